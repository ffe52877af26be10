//! The way between characters and bytes with their numbers.

ghost use Rattle.std.specs.Prelude.{◌≡◌, ◌≤◌, false, length, chars, IfOk, IsTrue};
ghost use Rattle.compact_chars.specs.Rows.{AreNarrow, HasWide};

use crate::kept::{SHORT_NARROW, SHORT_WIDE};
use smallvec::SmallVec;
use std::alloc::{AllocError, Global};

/// Whether a byte is enough for each character. Each is looked at, in a loop that has no other way out.
pub fn are_narrow(chars: &[char]) -> bool
    ensures narrow { IsTrue result → AreNarrow chars.now }
    ensures wide { result ≡ false → HasWide chars.now }
{
    let mut narrow = true;
    for c in chars {
        if (*c as u32) >= 256 {
            narrow = false;
        }
    }
    narrow
}

/// The numbers of characters for which a byte is enough.
pub fn narrowed(alloc: Global, chars: &[char]) -> Result<SmallVec<u8, SHORT_NARROW>, AllocError>
    requires { AreNarrow chars.now }
    ensures { IfOk result (λ bytes. bytes.items ≡ chars.now) }
{
    let mut bytes = SmallVec::with_capacity(alloc, chars.len())?;
    for c in chars {
        bytes.push_reserved(*c as u8);
    }
    Ok(bytes)
}

/// The characters whose numbers bytes are.
pub fn widened(alloc: Global, bytes: &[u8]) -> Result<SmallVec<char, SHORT_WIDE>, AllocError>
    ensures { IfOk result (λ chars. chars.items ≡ bytes.now) }
{
    let mut chars = SmallVec::with_capacity(alloc, bytes.len())?;
    for b in bytes {
        chars.push_reserved(*b as char);
    }
    Ok(chars)
}

/// The characters of a string. Room for as many is made before.
pub fn decoded(alloc: Global, text: &str) -> Result<Vec<char>, AllocError>
    ensures { IfOk result (λ all. all.items ≡ chars text.now) }
{
    let mut all = Vec::with_capacity(alloc, begins(text.as_bytes()))?;
    for c in text.chars() {
        all.push(c)?;
    }
    Ok(all)
}

// How many bytes of a string begin a character.
fn begins(bytes: &[u8]) -> usize
    ensures { result ≤ length bytes.now }
{
    let mut count = 0;
    for b in bytes {
        if *b < 0x80 || *b >= 0xC0 {
            count += 1;
        }
    }
    count
}
