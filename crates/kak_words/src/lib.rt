//! Command words: how a text is read as commands of words, how the words' expansions are replaced, and how a word is
//! quoted.
#![tactic(auto)]

mod closing;
mod double_quotes;
mod expanding;
mod forms;
mod laws;
mod parts;
mod placed;
mod quoting;
mod reading;

pub use expanding::{Lookup, expand};
pub use laws::worked_examples;
pub use parts::{Command, CommandWords, Named, Piece, Pieces, Word, WordError};
pub use quoting::quote;
pub use reading::read_commands;
