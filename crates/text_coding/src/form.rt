//! The forms in which texts stand in files.

ghost use Rattle.std.specs.Prelude.{◌≡◌};
ghost use Rattle.text_coding.specs.declared.form.DecodeError.TheVariants.{NoMemory};

use line_buffer::Lines;
use std::alloc::AllocError;
use thiserror::Error;

/// How lines end in a file.
#[derive(Clone, Copy, PartialEq, Eq, Debug)]
pub enum Eol {
    /// With a newline.
    Lf,
    /// With a carriage return and a newline.
    Crlf,
}

/// What stands before the text in a file.
#[derive(Clone, Copy, PartialEq, Eq, Debug)]
pub enum Bom {
    /// Nothing.
    No,
    /// The mark of the byte order, in UTF-8.
    Utf8,
}

/// What the bytes of a file are loaded as.
#[derive(Drop, Debug)]
pub struct Loaded {
    /// The text, in lines.
    pub text: Lines,
    /// How its lines ended.
    pub eol: Eol,
    /// What stood before it.
    pub bom: Bom,
}

/// Why bytes can't be loaded.
#[derive(Clone, Copy, PartialEq, Eq, Debug, Error)]
pub enum DecodeError {
    /// They aren't UTF-8: the byte with this number, from 0, is the first that begins no character.
    #[error("not UTF-8 at byte {0}")]
    NotUtf8(usize),
    /// The text would have more than `MAX_CHARS` characters.
    #[error("text is full")]
    TextFull,
    /// Memory ran out.
    #[error("out of memory")]
    NoMemory,
}

impl From<AllocError> for DecodeError {
    ghost from_gives = { λ _ e. e ≡ NoMemory };

    fn from(_error: AllocError) -> DecodeError {
        DecodeError::NoMemory
    }
}
