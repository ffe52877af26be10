//! Registers: lists of strings under names of one character, which every client shares.
#![tactic(auto)]

pub mod laws;
pub mod names;
pub mod registers;
pub mod row;

pub use laws::{registers_are_apart, worked_examples};
pub use names::{RegisterError, register_named};
pub use registers::Registers;
pub use row::{MAX_REGISTER_CHARS, Register};
