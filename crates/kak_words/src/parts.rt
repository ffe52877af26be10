//! Commands, their words, and why a text has none.

ghost use Rattle.std.specs.Prelude.{◌≡◌};
ghost use Rattle.kak_words.specs.declared.parts.WordError.TheVariants.{NoMemory};

use byte_texts::Utf8Text;
use sequences::Seq;
use std::alloc::AllocError;
use thiserror::Error;

/// Why words aren't read or expanded.
#[derive(Drop, Debug, Error)]
pub enum WordError {
    /// The quote or the `%` at this character of the text (from 0) isn't closed, and none before it.
    #[error("unclosed at {0}")]
    Unclosed(usize),
    /// The table has no expansion of this name in the kind that is asked for.
    #[error("unknown expansion: {0}")]
    UnknownExpansion(Utf8Text),
    /// Memory ran out.
    #[error("out of memory")]
    NoMemory,
}

impl From<AllocError> for WordError {
    ghost from_gives = { λ _ e. e ≡ NoMemory };

    fn from(_error: AllocError) -> WordError {
        WordError::NoMemory
    }
}

/// An expansion: its kind, as `val` or `opt`, and the name that stands between its marks.
#[derive(Drop, Debug)]
pub struct Named {
    pub kind: Utf8Text,
    pub name: Utf8Text,
}

/// A part of a word: a text as it is, or an expansion.
#[derive(Drop, Debug)]
pub enum Piece {
    Plain(Utf8Text),
    Expansion(Named),
}

/// The pieces of a word.
pub type Pieces = Seq<Piece>;

/// A word: its pieces, and whether it is quoted. A quoted word stands for one string, and the others for as many as
/// their pieces give.
#[derive(Drop, Debug)]
pub struct Word {
    pub pieces: Pieces,
    pub quoted: bool,
}

/// The words of a command.
pub type CommandWords = Seq<Word>;

/// A command: its words, of which there is at least one where it was read.
#[derive(Drop, Debug)]
pub struct Command {
    pub words: CommandWords,
}
