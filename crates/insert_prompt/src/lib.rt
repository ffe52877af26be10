//! Insert mode and prompts: one row for each key.
#![tactic(auto)]

pub mod inserts;
pub mod laws;
pub mod prompts;

pub use inserts::insert_key;
pub use prompts::prompt_key;
