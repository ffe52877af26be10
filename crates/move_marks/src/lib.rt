//! The list of selections that a move in a buffer's history leaves: where its changes put text in or took it out.
#![tactic(auto)]

mod joining;
pub mod laws;
pub mod leaving;

pub use leaving::list_left;
