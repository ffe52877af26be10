//! Lines, read one by one from a source of bytes or heard from a link: a call takes what the next line needs and nothing behind it, and tells
//! how the input ended, where it did.
#![tactic(auto)]

pub mod examples;
pub mod limits;
mod pieces;
pub mod reader;

pub use limits::{MAX_INPUT, MAX_PIECE};
pub use reader::{Came, LineReader, NextLine};
