//! The keys of normal mode that change a list of selections as a whole: each call gives the new list, or nothing where
//! nothing would be selected.
#![tactic(auto)]

pub mod changes;
mod copies;
mod copying;
pub mod cuts;
mod dropping;
pub mod laws;
pub mod main_selection;
pub mod parts;
mod splitting;

pub use changes::{ListChange, changed};
pub use cuts::Cut;
pub use main_selection::main_beside;
pub use parts::Split;
