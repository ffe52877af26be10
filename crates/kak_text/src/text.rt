//! Texts: characters that end in a newline, at most `MAX_CHARS` of them.

ghost use Rattle.std.specs.Prelude.{◌≡◌, ℕ, ◌+◌, ◌<◌, ◌≤◌, ◌↔◌, [], ◌∷◌, ◌++◌, length, IfOk, IsErrOf};
ghost use Rattle.text_model.specs.Texts.{IsStored, ends_in_newline};
ghost use Rattle.text_model.specs.Changes.{ended};
ghost use Rattle.kak_text.specs.declared.text.TextError.TheVariants.{NoMemory};

use std::alloc::{AllocError, Global};
use std::marker::Model;
use text_model::MAX_CHARS;
use thiserror::Error;

/// Why there is no text.
#[derive(Clone, Copy, PartialEq, Eq, Debug, Error)]
pub enum TextError {
    /// It would have more than `MAX_CHARS` characters.
    #[error("text is full")]
    TextFull,
    /// Memory ran out.
    #[error("out of memory")]
    NoMemory,
}

impl From<AllocError> for TextError {
    ghost from_gives = { λ _ e. e ≡ NoMemory };

    fn from(_e: AllocError) -> TextError {
        TextError::NoMemory
    }
}

/// A text: its last character is a newline, so it has one at least, and at most `MAX_CHARS`.
#[derive(Drop, Debug)]
pub struct Text {
    items: Vec<char>,
}

impl Model for Text {
    ghost use Rattle.std.specs.Prelude.{List, ℕ};
    ghost use Rattle.text_model.specs.Texts.{IsStored, ends_in_newline};

    ghost Value = { List ℕ };

    ghost view = { λ a. a.items.items };

    ghost invariant = { λ a. IsStored a.items.items };
}

impl Text {
    /// The text of one newline, which an empty buffer has.
    pub fn newline(alloc: Global) -> Result<Text, AllocError>
        ensures { IfOk result (λ text. text ≡ 10 ∷ []) }
    {
        let mut items = Vec::with_capacity(alloc, 1)?;
        items.push_reserved('\n');
        Ok(Text { items })
    }

    /// The text of these characters, with a newline at the end where it lacks.
    pub fn of_chars(alloc: Global, chars: &[char]) -> Result<Text, TextError>
        ensures ok { IfOk result (λ text. text ≡ ended chars.now) }
        ensures full { IsErrOf result TextError.TextFull ↔ (MAX_CHARS < length (ended chars.now)) }
    {
        if ended_len(chars) > MAX_CHARS {
            return Err(TextError::TextFull);
        }
        let mut items = Vec::with_capacity(alloc, chars.len() + 1)?;
        items.extend_from_slice(chars)?;
        if !ends_in_newline(chars) {
            items.push_reserved('\n');
        }
        Ok(Text { items })
    }

    /// The text of these characters; takes no memory.
    pub fn of_vec(items: Vec<char>) -> Text
        requires { IsStored items.items }
        ensures { result ≡ items.items }
    {
        Text { items }
    }

    /// The characters as a vector; takes no memory.
    pub fn into_vec(self) -> Vec<char>
        ensures value { result.items ≡ self }
        ensures valid { IsStored self }
    {
        self.items
    }

    /// The characters.
    pub fn as_slice(&self) -> &[char]
        ensures value { result.now ≡ self.now }
        ensures valid { IsStored self.now }
    {
        self.items.as_slice()
    }

    /// How many characters there are: one at least, and at most `MAX_CHARS`.
    pub fn len(&self) -> usize
        ensures value { result ≡ length self.now }
        ensures valid { IsStored self.now }
    {
        self.items.len()
    }
}

// Whether the last character is a newline; no characters have none.
fn ends_in_newline(chars: &[char]) -> bool
    ensures { result ≡ ends_in_newline chars.now }
{
    chars.last() == Some(&'\n')
}

// How many characters there are with a newline at the end where it lacks.
fn ended_len(chars: &[char]) -> usize
    ensures { result ≡ length (ended chars.now) }
{
    if ends_in_newline(chars) {
        chars.len()
    } else {
        chars.len() + 1
    }
}
