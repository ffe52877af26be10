//! The names of registers, and why one can't be set.

ghost use Rattle.std.specs.Prelude.{◌≡◌, Some, None, if◌then◌else◌};
ghost use Rattle.kak_registers.specs.declared.names.RegisterError.TheVariants.{NoMemory};
ghost use Rattle.kak_registers.specs.Names.{is_settable, is_read_only, is_register, named, long_named};

use std::alloc::AllocError;
use thiserror::Error;

/// Why a register isn't set.
#[derive(Clone, Copy, PartialEq, Eq, Debug, Error)]
pub enum RegisterError {
    /// This character names no register.
    #[error("no such register: {0}")]
    NoRegister(char),
    /// The register of this name is worked out from the client that reads it, and can't be set.
    #[error("register is read only: {0}")]
    ReadOnly(char),
    /// The strings have more than `MAX_REGISTER_CHARS` characters together.
    #[error("register is full")]
    RegisterFull,
    /// Memory ran out.
    #[error("out of memory")]
    NoMemory,
}

// Whether a character names a register that can be set: a small letter, or one of `"/@^:|_`.
pub(crate) fn is_settable(name: char) -> bool
    ensures { result ≡ is_settable name }
{
    matches!(name, 'a'..='z' | '"' | '/' | '@' | '^' | ':' | '|' | '_')
}

// Whether a character names a register that is only read.
pub(crate) fn is_read_only(name: char) -> bool
    ensures { result ≡ is_read_only name }
{
    matches!(name, '.' | '#' | '%')
}

impl From<AllocError> for RegisterError {
    ghost from_gives = { λ _ e. e ≡ NoMemory };

    fn from(_error: AllocError) -> RegisterError {
        RegisterError::NoMemory
    }
}

/// The register that a word names: its one character, or one of the long names (`dquote`, `slash`, `arobase`, `caret`,
/// `colon`, `pipe`, `underscore`, `dot`, `hash`, `percent`). None where it names none.
pub fn register_named(word: &str) -> Option<char>
    ensures { result ≡ named word.now }
{
    match word.as_bytes() {
        [c] => only(*c),
        _ => long_named(word),
    }
}

// The register of an ASCII character, if it names one.
fn only(c: u8) -> Option<char>
    ensures { result ≡ (if is_register c then Some c else None) }
{
    let name = char::from(c);
    if is_settable(name) || is_read_only(name) {
        return Some(name);
    }
    None
}

// The register of a long name.
fn long_named(word: &str) -> Option<char>
    ensures { result ≡ long_named word.now }
{
    match word {
        "dquote" => Some('"'),
        "slash" => Some('/'),
        "arobase" => Some('@'),
        "caret" => Some('^'),
        "colon" => Some(':'),
        "pipe" => Some('|'),
        "underscore" => Some('_'),
        "dot" => Some('.'),
        "hash" => Some('#'),
        "percent" => Some('%'),
        _ => None,
    }
}
