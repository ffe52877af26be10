//! Characters that are lent.

ghost use Rattle.std.specs.Prelude.{◌≡◌, ◌<◌, ◌≤◌, ◌↔◌, ◌++◌, [], length, drop, slice_index, slice_range, IsTrue, IsAscii, OnOk, OnErr, string_bytes, encode_utf8_all};
ghost use Rattle.compact_chars.specs.Rows.{chars_of};

use std::alloc::AllocError;

/// Characters in order, as they are kept: as bytes, or as themselves.
#[derive(Clone, Copy, Debug)]
pub enum CharsRef<'a> {
    /// The characters whose numbers these bytes are.
    Narrow(&'a [u8]),
    /// These characters.
    Wide(&'a [char]),
}

impl<'a> CharsRef<'a> {
    /// How many characters there are.
    pub fn len(self) -> usize
        ensures { result ≡ length (chars_of self.entry) }
    {
        match self {
            CharsRef::Narrow(bytes) => bytes.len(),
            CharsRef::Wide(chars) => chars.len(),
        }
    }

    /// Whether there are none.
    pub fn is_empty(self) -> bool
        ensures { IsTrue result ↔ (chars_of self.entry ≡ []) }
    {
        match self {
            CharsRef::Narrow(bytes) => bytes.is_empty(),
            CharsRef::Wide(chars) => chars.is_empty(),
        }
    }

    /// The n-th character from 0.
    #[inline(always)]
    pub fn at(self, n: usize) -> char
        requires { n < length (chars_of self) }
        ensures { result ≡ slice_index (chars_of self.entry) n }
    {
        match self {
            CharsRef::Narrow(bytes) => bytes[n] as char,
            CharsRef::Wide(chars) => chars[n],
        }
    }

    /// The characters from one to before another.
    pub fn between(self, from: usize, to: usize) -> CharsRef<'a>
        requires ordered { from ≤ to }
        requires inside { to ≤ length (chars_of self) }
        ensures { chars_of result ≡ slice_range (chars_of self.entry) from to }
    {
        match self {
            CharsRef::Narrow(bytes) => CharsRef::Narrow(&bytes[from..to]),
            CharsRef::Wide(chars) => CharsRef::Wide(&chars[from..to]),
        }
    }

    /// The characters from one on.
    pub fn behind(self, from: usize) -> CharsRef<'a>
        requires { from ≤ length (chars_of self) }
        ensures { chars_of result ≡ drop from (chars_of self.entry) }
    {
        match self {
            CharsRef::Narrow(bytes) => CharsRef::Narrow(&bytes[from..]),
            CharsRef::Wide(chars) => CharsRef::Wide(&chars[from..]),
        }
    }

    /// Adds the characters to others. After an error those are as they were.
    pub fn push_onto(self, others: &mut Vec<char>) -> Result<(), AllocError>
        ensures ok { OnOk result (others.new.items ≡ others.old.items ++ chars_of self.entry) }
        ensures err { OnErr result (others.new.items ≡ others.old.items) }
    {
        match self {
            CharsRef::Narrow(bytes) => push_bytes(others, bytes),
            CharsRef::Wide(chars) => others.extend_from_slice(chars),
        }
    }

    /// Adds the characters to a string. Want of memory leaves some of them added.
    pub fn push_utf8(self, text: &mut String) -> Result<(), AllocError>
        ensures { OnOk result (string_bytes text.new ≡ string_bytes text.old ++ encode_utf8_all (chars_of self.entry)) }
    {
        match self {
            CharsRef::Narrow(bytes) => push_narrow(text, bytes),
            CharsRef::Wide(chars) => push_wide(text, chars),
        }
    }
}

// Adds the characters whose numbers bytes are.
fn push_bytes(others: &mut Vec<char>, bytes: &[u8]) -> Result<(), AllocError>
    ensures ok { OnOk result (others.new.items ≡ others.old.items ++ bytes.now) }
    ensures err { OnErr result (others.new.items ≡ others.old.items) }
{
    others.reserve(bytes.len())?;
    for b in bytes {
        others.push_reserved(*b as char);
    }
    Ok(())
}

// Adds ASCII bytes to a string.
fn push_ascii(text: &mut String, bytes: &[u8]) -> Result<(), AllocError>
    requires { IsAscii bytes.now }
    ensures { OnOk result (string_bytes text.new ≡ string_bytes text.old ++ bytes.now) }
{
    match str::from_utf8(bytes) {
        Ok(ascii) => text.push_str(ascii),
        Err(_) => unreachable!(),
    }
}

// Adds the characters whose numbers bytes are to a string; at once where they are ASCII.
fn push_narrow(text: &mut String, bytes: &[u8]) -> Result<(), AllocError>
    ensures { OnOk result (string_bytes text.new ≡ string_bytes text.old ++ encode_utf8_all bytes.now) }
{
    if bytes.is_ascii() {
        return push_ascii(text, bytes);
    }
    text.reserve(bytes.len())?;
    for b in bytes {
        text.push(*b as char)?;
    }
    Ok(())
}

// Adds characters to a string.
fn push_wide(text: &mut String, chars: &[char]) -> Result<(), AllocError>
    ensures { OnOk result (string_bytes text.new ≡ string_bytes text.old ++ encode_utf8_all chars.now) }
{
    text.reserve(chars.len())?;
    for c in chars {
        text.push(*c)?;
    }
    Ok(())
}
