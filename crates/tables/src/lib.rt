//! Tables: rows in the order in which they were added, one of which is found by a test. The definitions and their
//! laws, each of which is the contract of a function that does nothing.
#![tactic(auto)]

pub mod laws;

pub use laws::{rows_are_changed_in_place, rows_are_put_in_place, worked_examples};
