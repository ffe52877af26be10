//! Single changes of a text with what they put in or took out, and what a log of their shifts is.
#![tactic(auto)]

pub mod change;
pub mod laws;
pub mod log;

pub use change::{Change, inverse};
pub use log::MAX_STAMP;
