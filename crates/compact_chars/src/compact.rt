//! Rows of characters.

ghost use Rattle.std.specs.Prelude.{◌≡◌, ◌≤◌, ◌++◌, [], length, take, drop, chars, IfOk, OnOk, OnErr};
ghost use Rattle.compact_chars.specs.Rows.{chars_of, chars_kept};

use crate::kept::Kept;
use crate::lent::CharsRef;
use crate::turns::{NEAR, cut_out, end_with, put_in};
use crate::widths::{are_narrow, decoded, narrowed, widened};
use smallvec::SmallVec;
use std::alloc::{AllocError, Global};
use std::marker::Model;

/// Characters in order. Where each has a number below 256 they take a byte each, and else four bytes each; up to 16 bytes
/// take no memory of their own.
#[derive(Drop, Debug)]
pub struct CompactChars {
    kept: Kept,
}

impl Model for CompactChars {
    ghost use Rattle.std.specs.Prelude.{List, ℕ};
    ghost use Rattle.compact_chars.specs.Rows.{chars_kept};

    ghost Value = { List ℕ };

    ghost view = { λ a. chars_kept a.kept };
}

impl CompactChars {
    /// A copy of these characters.
    pub fn of_chars(alloc: Global, chars: CharsRef<'_>) -> Result<CompactChars, AllocError>
        ensures { IfOk result (λ row. row ≡ chars_of chars.entry) }
    {
        let kept = match chars {
            CharsRef::Narrow(bytes) => Kept::Narrow(SmallVec::from_slice(alloc, bytes)?),
            CharsRef::Wide(chars) => kept_of(alloc, chars)?,
        };
        Ok(CompactChars { kept })
    }

    /// The characters of a string. ASCII is copied at once; other characters are decoded, and where they take four bytes
    /// each, the row keeps the memory that they were decoded into.
    pub fn of_str(alloc: Global, text: &str) -> Result<CompactChars, AllocError>
        ensures { IfOk result (λ row. row ≡ chars text.now) }
    {
        if text.is_ascii() {
            return CompactChars::of_chars(alloc, CharsRef::Narrow(text.as_bytes()));
        }
        let kept = kept_from(alloc, decoded(alloc, text)?)?;
        Ok(CompactChars { kept })
    }

    /// A copy of characters, and of others behind them. Where both are kept in the same way, each is copied at once.
    pub fn of_both(
        alloc: Global,
        front: CharsRef<'_>,
        back: CharsRef<'_>,
    ) -> Result<CompactChars, AllocError>
        ensures { IfOk result (λ row. row ≡ chars_of front.entry ++ chars_of back.entry) }
    {
        let mut kept = room_for(alloc, front, back)?;
        end_kept(alloc, &mut kept, 0, front)?;
        end_kept(alloc, &mut kept, front.len(), back)?;
        Ok(CompactChars { kept })
    }

    /// The characters.
    pub fn as_chars(&self) -> CharsRef<'_>
        ensures { chars_of result ≡ self.now }
    {
        match &self.kept {
            Kept::Narrow(bytes) => CharsRef::Narrow(bytes.as_slice()),
            Kept::Wide(chars) => CharsRef::Wide(chars.as_slice()),
        }
    }

    /// Puts characters in before one, by its place from 0. It costs them and what stands behind; where they are the first
    /// for which a byte isn't enough, it costs the row. After an error the row is as it was.
    pub fn put(&mut self, alloc: Global, at: usize, chars: &[char]) -> Result<(), AllocError>
        requires { at ≤ length self.old }
        ensures ok { OnOk result (self.new ≡ take at self.old ++ (chars.now ++ drop at self.old)) }
        ensures err { OnErr result (self.new ≡ self.old) }
    {
        put_kept(alloc, &mut self.kept, at, chars)
    }

    /// Takes the characters from one to before another out; takes no memory. It costs what stands behind.
    pub fn cut(&mut self, from: usize, to: usize)
        requires ordered { from ≤ to }
        requires inside { to ≤ length self.old }
        ensures { self.new ≡ take from self.old ++ drop to self.old }
    {
        match &mut self.kept {
            Kept::Narrow(row) => cut_out(row, from, to, [0; NEAR].as_mut_slice()),
            Kept::Wide(row) => cut_out(row, from, to, ['\0'; NEAR].as_mut_slice()),
        }
    }

    /// Puts other characters in the place of those from one on. It costs them alone, which are copied at once where they are
    /// kept as the row is; where they are the first for which a byte isn't enough, it costs the row too. After an error the
    /// row is as it was.
    pub fn end_as(&mut self, alloc: Global, at: usize, end: CharsRef<'_>) -> Result<(), AllocError>
        requires { at ≤ length self.old }
        ensures ok { OnOk result (self.new ≡ take at self.old ++ chars_of end.entry) }
        ensures err { OnErr result (self.new ≡ self.old) }
    {
        end_kept(alloc, &mut self.kept, at, end)
    }
}

// Characters, as bytes where these are enough, and else in the memory where they are.
fn kept_from(alloc: Global, chars: Vec<char>) -> Result<Kept, AllocError>
    ensures { IfOk result (λ kept. chars_kept kept ≡ chars.items) }
{
    if are_narrow(chars.as_slice()) {
        return Ok(Kept::Narrow(narrowed(alloc, chars.as_slice())?));
    }
    Ok(Kept::Wide(SmallVec::from_vec(chars)))
}

// A copy of characters, as bytes where these are enough.
fn kept_of(alloc: Global, chars: &[char]) -> Result<Kept, AllocError>
    ensures { IfOk result (λ kept. chars_kept kept ≡ chars.now) }
{
    if are_narrow(chars) {
        return Ok(Kept::Narrow(narrowed(alloc, chars)?));
    }
    Ok(Kept::Wide(SmallVec::from_slice(alloc, chars)?))
}

// Room for characters and others behind them: for bytes, where these are enough.
fn room_for(alloc: Global, front: CharsRef<'_>, back: CharsRef<'_>) -> Result<Kept, AllocError>
    ensures { IfOk result (λ kept. chars_kept kept ≡ []) }
{
    let both = front.len() + back.len();
    for chars in [front, back] {
        if let CharsRef::Wide(chars) = chars {
            if !are_narrow(chars) {
                return Ok(Kept::Wide(SmallVec::with_capacity(alloc, both)?));
            }
        }
    }
    Ok(Kept::Narrow(SmallVec::with_capacity(alloc, both)?))
}

// Puts characters in.
fn put_kept(alloc: Global, kept: &mut Kept, at: usize, chars: &[char]) -> Result<(), AllocError>
    requires { at ≤ length (chars_kept kept.old) }
    ensures ok { OnOk result (chars_kept kept.new ≡ take at (chars_kept kept.old) ++ (chars.now ++ drop at (chars_kept kept.old))) }
    ensures err { OnErr result (chars_kept kept.new ≡ chars_kept kept.old) }
{
    match kept {
        Kept::Wide(row) => put_in(row, at, chars, ['\0'; NEAR].as_mut_slice()),
        Kept::Narrow(row) => {
            if are_narrow(chars) {
                let bytes = narrowed(alloc, chars)?;
                return put_in(row, at, bytes.as_slice(), [0; NEAR].as_mut_slice());
            }
            let mut wide = widened(alloc, row.as_slice())?;
            put_in(&mut wide, at, chars, ['\0'; NEAR].as_mut_slice())?;
            *kept = Kept::Wide(wide);
            Ok(())
        }
    }
}

// Puts other characters in the place of those from one on.
fn end_kept(alloc: Global, kept: &mut Kept, at: usize, end: CharsRef<'_>) -> Result<(), AllocError>
    requires { at ≤ length (chars_kept kept.old) }
    ensures ok { OnOk result (chars_kept kept.new ≡ take at (chars_kept kept.old) ++ chars_of end.entry) }
    ensures err { OnErr result (chars_kept kept.new ≡ chars_kept kept.old) }
{
    match kept {
        Kept::Wide(row) => match end {
            CharsRef::Wide(chars) => end_with(row, at, chars),
            CharsRef::Narrow(bytes) => {
                let chars = widened(alloc, bytes)?;
                end_with(row, at, chars.as_slice())
            }
        },
        Kept::Narrow(row) => match end {
            CharsRef::Narrow(bytes) => end_with(row, at, bytes),
            CharsRef::Wide(chars) => {
                if are_narrow(chars) {
                    let bytes = narrowed(alloc, chars)?;
                    return end_with(row, at, bytes.as_slice());
                }
                let mut wide = widened(alloc, &row.as_slice()[..at])?;
                wide.extend_from_slice(chars)?;
                *kept = Kept::Wide(wide);
                Ok(())
            }
        },
    }
}
