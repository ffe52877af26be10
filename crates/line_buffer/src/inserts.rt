//! Putting characters into a text, over the calls that reach its fields.

ghost use Rattle.std.specs.Prelude.{◌≡◌, ◌≢◌, ℕ, ◌+◌, ◌<◌, ◌≤◌, ◌^◌, ◌↔◌, ◌++◌, length, All, IfOk, OnOk, OnErr, IsErrOf};
ghost use Rattle.text_model.specs.Coords.{after, reached};
ghost use Rattle.text_model.specs.Texts.{IsStored, IsText, IsPlace, IsPlaceOrEnd, offset, end_coord};
ghost use Rattle.text_model.specs.Changes.{ended, put_in, inserted, changed, Insertion, move_of, IsShift};

use crate::cuts::gathered;
use crate::lines::{Lines, LinesError};
use compact_chars::CharsRef;
use kak_text::{Coord, MAX_CHARS, Shift};
use std::alloc::Global;

impl Lines {
    /// Puts characters in at a place or at the end, where they get a newline behind them if their last is none. The
    /// shift is that of the change; without characters its begin is its end. `TextFull` comes where the new text
    /// would have more than `MAX_CHARS` characters. After an error the text is as it was.
    pub fn insert(&mut self, alloc: Global, at: Coord, chars: &[char]) -> Result<Shift, LinesError>
        requires { IsPlaceOrEnd self.old at }
        ensures text { OnOk result (self.new ≡ inserted self.old (offset self.old at) chars.now) }
        ensures shift { IfOk result (λ s. IsShift self.old self.new s (move_of self.old (Insertion (offset self.old at) (put_in self.old (offset self.old at) chars.now)))) }
        ensures begin { IfOk result (λ s. s.begin ≡ at) }
        ensures full { IsErrOf result LinesError.TextFull ↔ (MAX_CHARS < length (inserted self.old (offset self.old at) chars.now)) }
        ensures err { OnErr result (self.new ≡ self.old) }
        ensures valid { IsStored self.old × IsStored self.new }
    {
        let end = self.put(alloc, at, chars)?;
        Ok(Shift {
            insert: true,
            begin: at,
            end,
            last: self.last_place(),
        })
    }

    // Puts characters in, and gives the coordinate behind them.
    fn put(&mut self, alloc: Global, at: Coord, chars: &[char]) -> Result<Coord, LinesError>
        requires { IsPlaceOrEnd self.old at }
        ensures text { OnOk result (self.new ≡ inserted self.old (offset self.old at) chars.now) }
        ensures behind { IfOk result (λ b. b ≡ reached at (put_in self.old (offset self.old at) chars.now)) }
        ensures full { IsErrOf result LinesError.TextFull ↔ (MAX_CHARS < length (inserted self.old (offset self.old at) chars.now)) }
        ensures err { OnErr result (self.new ≡ self.old) }
        ensures valid { IsStored self.old }
    {
        let lines = self.line_count();
        if chars.is_empty() {
            return Ok(at);
        }
        if (at.line as usize) < lines {
            return self.put_inside(alloc, at, chars);
        }
        self.put_behind(alloc, chars)
    }

    // Puts characters in at a place.
    fn put_inside(&mut self, alloc: Global, at: Coord, chars: &[char]) -> Result<Coord, LinesError>
        requires { IsPlace self.old at }
        ensures text { OnOk result (self.new ≡ changed self.old (Insertion (offset self.old at) chars.now)) }
        ensures behind { IfOk result (λ b. b ≡ reached at chars.now) }
        ensures full { IsErrOf result LinesError.TextFull ↔ (MAX_CHARS < length self.old + length chars.now) }
        ensures err { OnErr result (self.new ≡ self.old) }
    {
        if chars.len() > MAX_CHARS - self.len() {
            return Err(LinesError::TextFull);
        }
        if chars.contains(&'\n') {
            let behind = walked(at, chars);
            self.put_lines(alloc, at, chars)?;
            return Ok(behind);
        }
        let behind = along(at, chars);
        self.put_on_line(alloc, at, chars)?;
        Ok(behind)
    }

    // Puts characters in at the end, with a newline behind them where it lacks.
    fn put_behind(&mut self, alloc: Global, chars: &[char]) -> Result<Coord, LinesError>
        ensures text { OnOk result (self.new ≡ self.old ++ ended chars.now) }
        ensures behind { IfOk result (λ b. b ≡ reached (end_coord self.old) (ended chars.now)) }
        ensures full { IsErrOf result LinesError.TextFull ↔ (MAX_CHARS < length self.old + length (ended chars.now)) }
        ensures err { OnErr result (self.new ≡ self.old) }
    {
        if chars.last() == Some(&'\n') {
            return self.put_whole(alloc, chars);
        }
        if chars.len() >= MAX_CHARS - self.len() {
            return Err(LinesError::TextFull);
        }
        let lines = gathered(alloc, chars, CharsRef::Narrow(b"\n"))?;
        self.put_whole(alloc, lines.as_slice())
    }

    // Puts whole lines in at the end.
    fn put_whole(&mut self, alloc: Global, chars: &[char]) -> Result<Coord, LinesError>
        requires { IsText chars.now }
        ensures text { OnOk result (self.new ≡ self.old ++ chars.now) }
        ensures behind { IfOk result (λ b. b ≡ reached (end_coord self.old) chars.now) }
        ensures full { IsErrOf result LinesError.TextFull ↔ (MAX_CHARS < length self.old + length chars.now) }
        ensures err { OnErr result (self.new ≡ self.old) }
    {
        if chars.len() > MAX_CHARS - self.len() {
            return Err(LinesError::TextFull);
        }
        let end = Coord {
            line: self.line_count() as u32,
            column: 0,
        };
        let behind = walked(end, chars);
        self.put_at_end(alloc, chars)?;
        Ok(behind)
    }
}

// The coordinate behind a character at a coordinate.
fn stepped(at: Coord, c: char) -> Coord
    requires line { at.line + 1 < 2 ^ 32 }
    requires column { at.column + 1 < 2 ^ 32 }
    ensures { result ≡ after at c }
{
    if c == '\n' {
        return Coord {
            line: at.line + 1,
            column: 0,
        };
    }
    Coord {
        line: at.line,
        column: at.column + 1,
    }
}

// The coordinate behind characters that begin at a coordinate.
fn walked(from: Coord, chars: &[char]) -> Coord
    requires line { from.line + length chars.now < 2 ^ 32 }
    requires column { from.column + length chars.now < 2 ^ 32 }
    ensures { result ≡ reached from chars.now }
{
    let mut at = from;
    for c in chars {
        at = stepped(at, *c);
    }
    at
}

// The coordinate behind characters of one line that begin at a coordinate.
fn along(from: Coord, chars: &[char]) -> Coord
    requires column { from.column + length chars.now < 2 ^ 32 }
    requires one_line { All (λ c. c ≢ 10) chars.now }
    ensures { result ≡ reached from chars.now }
{
    Coord {
        line: from.line,
        column: from.column + chars.len() as u32,
    }
}
