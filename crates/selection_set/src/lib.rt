//! Selections of a text, by coordinates, and lists of them.
#![tactic(auto)]

pub mod laws;
pub mod list;
pub mod making;
mod order;
pub mod sel;

pub use list::Sels;
pub use making::SelsError;
pub use sel::{Pair, Sel};
