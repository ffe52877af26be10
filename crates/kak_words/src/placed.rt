//! Characters with their places.

ghost use Rattle.std.specs.Prelude.{◌≡◌, ◌↔◌, IfOk, IsTrue, true};
ghost use Rattle.std.specs.Str.{chars};
ghost use Rattle.kak_words.specs.Characters.{is_blank, ends_command, ends_word, is_opening, is_escapable, is_mark};
ghost use Rattle.kak_words.specs.Closing.{placed_from, text_of};

use byte_texts::Utf8Text;
use std::alloc::{AllocError, Global};

/// A character of a text, and how many characters stand before it.
#[derive(Clone, Copy, Debug)]
pub(crate) struct Placed {
    pub at: usize,
    pub c: char,
}

/// The characters of a text.
pub(crate) fn characters(alloc: Global, text: &str) -> Result<Vec<char>, AllocError>
    ensures { IfOk result (λ v. v.items ≡ chars text.now) }
{
    text.chars().collect(alloc)
}

/// The characters of a text with their places.
pub(crate) fn with_places(alloc: Global, text: &str) -> Result<Vec<Placed>, AllocError>
    ensures { IfOk result (λ v. v.items ≡ placed_from 0 (chars text.now)) }
{
    let all = characters(alloc, text)?;
    let mut list = Vec::with_capacity(alloc, all.len())?;
    for (at, c) in all.as_slice().iter().enumerate() {
        list.push(Placed { at, c: *c })?;
    }
    Ok(list)
}

/// The text of characters.
pub(crate) fn text_of(alloc: Global, list: &[Placed]) -> Result<Utf8Text, AllocError>
    ensures { IfOk result (λ t. t ≡ text_of list.now) }
{
    let mut text = String::with_capacity(alloc, list.len())?;
    for p in list {
        text.push(p.c)?;
    }
    Ok(Utf8Text::of_string(text))
}

/// Whether a character stands between words.
pub(crate) fn is_blank(c: char) -> bool
    ensures { result ≡ is_blank c }
{
    c == ' ' || c == '\t'
}

/// Whether a character stands between commands.
pub(crate) fn ends_command(c: char) -> bool
    ensures { result ≡ ends_command c }
{
    c == '\n' || c == ';'
}

/// Whether a character ends a plain word.
pub(crate) fn ends_word(c: char) -> bool
    ensures { result ≡ ends_word c }
{
    is_blank(c) || ends_command(c)
}

// Whether a character has a meaning at a word's start.
fn is_opening(c: char) -> bool
    ensures { result ≡ is_opening c }
{
    matches!(c, '%' | '\'' | '"' | '#')
}

/// Whether a backslash before a character has it stand for itself.
pub(crate) fn is_escapable(start: bool, c: char) -> bool
    ensures { result ≡ is_escapable start c }
{
    ends_word(c) || (start && is_opening(c))
}

/// Whether a character may open a form behind `%`.
pub(crate) fn is_mark(c: char) -> bool
    ensures { result ≡ is_mark c }
{
    !(c.is_alphabetic() || c.is_numeric() || is_blank(c))
}
