//! Normal mode: one row for each key.
#![tactic(auto)]

mod actions;
mod awaited;
pub mod keys;
pub mod laws;
mod lists;
pub mod prefixes;
mod recording;
mod runs;

pub use keys::normal_key;
