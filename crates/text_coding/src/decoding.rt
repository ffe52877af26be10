//! Texts from the bytes of files.

ghost use Rattle.std.specs.Prelude.{◌≡◌, ◌+◌, ◌^◌, ◌<◌, ◌≤◌, ℕ, List, ◌++◌, ◌∷◌, [], false, length, chars, IsTrue};
ghost use Rattle.text_model.specs.Changes.{ended};
ghost use Rattle.text_coding.specs.Coding.{mark_of, bom_of, body, eol_of, from_form, text_from, fitting, loaded, IsDecoded};
ghost use Rattle.text_coding.specs.Surveying.{IsSurvey};

use crate::form::{Bom, DecodeError, Eol, Loaded};
use crate::lines::{eol_of, text_lines};
use kak_text::MAX_CHARS;
use std::alloc::Global;

// The mark of the byte order in UTF-8.
const UTF8_MARK: [u8; 3] = [0xEF, 0xBB, 0xBF];

// How many characters of a file there are, with and without the returns that stand before newlines, and the last one.
#[derive(Clone, Copy)]
struct Survey {
    plain: usize,
    short: usize,
    before: char,
}

// The survey with one character more.
fn with_one(survey: Survey, c: char) -> Survey
    requires plain { survey.plain + 1 < 2 ^ 64 }
    requires short { survey.short + 1 < 2 ^ 64 }
    ensures { (cs : List ℕ) → IsSurvey survey cs → IsSurvey result (cs ++ c ∷ []) }
{
    let plain = survey.plain + 1;
    if c != '\n' {
        return Survey {
            plain,
            short: survey.short + 1,
            before: c,
        };
    }
    if survey.before != '\r' {
        return Survey {
            plain,
            short: survey.short + 1,
            before: c,
        };
    }
    Survey {
        plain,
        short: survey.short,
        before: c,
    }
}

// Goes over the characters of a file.
fn survey_of(text: &str) -> Survey
    ensures { IsSurvey result (chars text.now) }
{
    let mut survey = Survey {
        plain: 0,
        short: 0,
        before: '\0',
    };
    for c in text.chars() {
        survey = with_one(survey, c);
    }
    survey
}

impl Survey {
    // How many characters stay where the lines end so.
    fn count(&self, eol: Eol) -> usize
        ensures { (cs : List ℕ) → IsSurvey self.now cs → result ≡ length (from_form eol cs) }
    {
        match eol {
            Eol::Lf => self.plain,
            Eol::Crlf => self.short,
        }
    }

    // How many characters the text has, with a last newline, or more than it may have.
    fn text_len(&self, eol: Eol) -> usize
        ensures { (cs : List ℕ) → IsSurvey self.now cs → length cs + 1 < 2 ^ 64 → result ≡ length (ended (from_form eol cs)) }
    {
        let count = self.count(eol);
        if self.before == '\n' {
            return count;
        }
        count.saturating_add(1)
    }
}

// Whether the text of a file whose lines end so is too long. Its characters are counted only where its bytes are too many.
fn is_too_long(text: &str, eol: Eol) -> bool
    requires { length text.now + 1 < 2 ^ 64 }
    ensures long { IsTrue result → MAX_CHARS < length (ended (from_form eol (chars text.now))) }
    ensures short { result ≡ false → length (ended (from_form eol (chars text.now))) ≤ MAX_CHARS }
{
    if text.len() < MAX_CHARS {
        return false;
    }
    survey_of(text).text_len(eol) > MAX_CHARS
}

// The mark that bytes begin with.
fn bom_of(bytes: &[u8]) -> Bom
    ensures { result ≡ bom_of bytes.now }
{
    if bytes.starts_with(&UTF8_MARK) {
        Bom::Utf8
    } else {
        Bom::No
    }
}

// How many bytes the mark has.
fn mark_len(bom: Bom) -> usize
    ensures { result ≡ length (mark_of bom) }
{
    match bom {
        Bom::No => 0,
        Bom::Utf8 => UTF8_MARK.len(),
    }
}

// The bytes behind the mark.
fn body(bytes: &[u8]) -> &[u8]
    ensures { result.now ≡ body bytes.now }
{
    if bytes.starts_with(&UTF8_MARK) {
        &bytes[UTF8_MARK.len()..]
    } else {
        bytes
    }
}

// The text of a file's characters, with its form.
fn load_text(alloc: Global, text: &str, bom: Bom) -> Result<Loaded, DecodeError>
    requires { length text.now + 1 < 2 ^ 64 }
    ensures { IsDecoded result (fitting (text_from (chars text.now)) (eol_of (chars text.now)) bom) }
{
    let eol = eol_of(text);
    if is_too_long(text, eol) {
        return Err(DecodeError::TextFull);
    }
    match text_lines(alloc, text, eol) {
        Ok(text) => Ok(Loaded { text, eol, bom }),
        Err(_) => Err(DecodeError::NoMemory),
    }
}

/// The text that the bytes of a file are, and its form. A mark of the byte order is no part of it. Where each newline has
/// a carriage return before it, these belong to the line ends, and otherwise to the text. A text without a last newline
/// gets one. Where the bytes aren't UTF-8 that is said first. The characters go into the text's lines one line after
/// another, and are never held beside them as a whole; a line of ASCII is copied at once.
pub fn decode(alloc: Global, bytes: &[u8]) -> Result<Loaded, DecodeError>
    ensures { IsDecoded result (loaded bytes.now) }
{
    let bom = bom_of(bytes);
    let body = body(bytes);
    match str::from_utf8(body) {
        Ok(text) => load_text(alloc, text, bom),
        Err(error) => Err(DecodeError::NotUtf8(mark_len(bom) + error.valid_up_to())),
    }
}
