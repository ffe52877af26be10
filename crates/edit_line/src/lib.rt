//! A line of characters that is edited at a cursor, as a prompt is.
#![tactic(auto)]

pub mod laws;
pub mod line;

pub use line::EditLine;
