//! The project's types of characters: `Text`, which ends in a newline, and `Chars`, any characters; beside them the
//! coordinates of the model and the limits.
#![tactic(auto)]

pub mod chars;
pub mod classes;
pub mod classing;
pub mod examples;
pub mod text;
pub mod widths;

pub use chars::Chars;
pub use classes::Class;
pub use classing::class;
pub use text::{Text, TextError};
pub use text_model::{Coord, MAX_CHARS, MAX_SELECTIONS, Shift};
pub use widths::{MAX_TABSTOP, cells};
