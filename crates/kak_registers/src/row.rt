//! One register that was set, and how much it may hold.

use byte_texts::Words;

/// How many characters the strings of a register may have together.
pub const MAX_REGISTER_CHARS: usize = 16_777_216;

/// A register that was set: its name, and the strings that it holds.
#[derive(Drop, Debug)]
pub struct Register {
    pub name: char,
    pub values: Words,
}
