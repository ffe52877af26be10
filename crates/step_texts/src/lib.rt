//! The texts of a step: from one of its tasks to the next, behind each of their single changes, and where want of memory left them.
#![tactic(auto)]

pub mod laws;
