//! Rows of characters that take a byte each where that is enough, and the characters of such rows, lent.
#![tactic(auto)]

pub mod compact;
mod kept;
pub mod lent;
mod turns;
mod widths;

pub use compact::CompactChars;
pub use lent::CharsRef;
