//! Counts of steps that contracts see and that cost nothing when a program runs.
#![tactic(auto)]

pub mod steps;

pub use steps::Steps;
