//! The lines of a buffer: the calls that reach the fields.

ghost use Rattle.std.specs.Prelude.{◌≡◌, ◌≢◌, ℕ, ◌+◌, ◌<◌, ◌≤◌, ◌*◌, ◌++◌, ◌∷◌, [], length, take, drop, All, IfOk, OnOk, OnErr};
ghost use Rattle.text_model.specs.Texts.{IsStored, IsText, IsLine, IsPlace, joined, offset, line_count, nth_line};
ghost use Rattle.text_model.specs.Changes.{changed, Insertion, Erasure};
ghost use Rattle.line_buffer.specs.Buffer.{IsBuffer};
ghost use Rattle.compact_chars.specs.Rows.{chars_of};
ghost use Rattle.line_buffer.specs.declared.lines.LinesError.TheVariants.{NoMemory};

use crate::cuts::cut;
use crate::line::Line;
use crate::rows::Rows;
use compact_chars::CharsRef;
use kak_text::{Coord, MAX_CHARS, Text};
use std::alloc::{AllocError, Global};
use std::marker::Model;
use thiserror::Error;

/// Why a text was not changed.
#[derive(Clone, Copy, PartialEq, Eq, Debug, Error)]
pub enum LinesError {
    /// It would have more than `MAX_CHARS` characters.
    #[error("text is full")]
    TextFull,
    /// Memory ran out.
    #[error("out of memory")]
    NoMemory,
}

impl From<AllocError> for LinesError {
    ghost from_gives = { λ _ e. e ≡ NoMemory };

    fn from(_e: AllocError) -> LinesError {
        LinesError::NoMemory
    }
}

/// A text as its lines, with the count of its characters.
#[derive(Drop, Debug)]
pub struct Lines {
    lines: Rows,
    count: usize,
}

impl Model for Lines {
    ghost use Rattle.std.specs.Prelude.{List, ℕ};
    ghost use Rattle.text_model.specs.Texts.{joined};
    ghost use Rattle.line_buffer.specs.Buffer.{IsBuffer};

    ghost Value = { List ℕ };

    ghost view = { λ a. joined a.lines };

    ghost invariant = { λ a. IsBuffer a.lines a.count };
}

impl Lines {
    /// The lines of a text.
    pub fn of_text(alloc: Global, text: &Text) -> Result<Lines, AllocError>
        ensures { IfOk result (λ lines. lines ≡ text.now) }
    {
        let chars = text.as_slice();
        Ok(Lines {
            lines: Rows::of_vec(alloc, cut(alloc, chars)?),
            count: chars.len(),
        })
    }

    // These lines, with so many characters in them.
    pub(crate) fn of_lines(alloc: Global, lines: Vec<Line>, count: usize) -> Lines
        requires { IsBuffer lines.items count }
        ensures { result ≡ joined lines.items }
    {
        Lines {
            lines: Rows::of_vec(alloc, lines),
            count,
        }
    }

    /// How many characters there are: one at least, and at most `MAX_CHARS`.
    pub fn len(&self) -> usize
        ensures value { result ≡ length self.now }
        ensures valid { IsStored self.now }
    {
        self.count
    }

    /// How many lines there are: one at least.
    pub fn line_count(&self) -> usize
        ensures value { result ≡ line_count self.now }
        ensures some { 0 < result }
        ensures small { result ≤ MAX_CHARS }
        ensures valid { IsStored self.now }
    {
        self.lines.len()
    }

    /// The n-th line from 0, with its newline.
    pub fn line(&self, n: usize) -> CharsRef<'_>
        requires { n < line_count self.now }
        ensures value { chars_of result ≡ nth_line self.now n }
        ensures line { IsLine (chars_of result) }
        ensures small { length (chars_of result) ≤ MAX_CHARS }
        ensures valid { IsStored self.now }
    {
        self.lines.line(n).as_chars()
    }

    // Puts characters without a newline in at a place.
    pub(crate) fn put_on_line(
        &mut self,
        alloc: Global,
        at: Coord,
        chars: &[char],
    ) -> Result<(), AllocError>
        requires place { IsPlace self.old at }
        requires room { length self.old + length chars.now ≤ MAX_CHARS }
        requires one_line { All (λ c. c ≢ 10) chars.now }
        ensures ok { OnOk result (self.new ≡ changed self.old (Insertion (offset self.old at) chars.now)) }
        ensures err { OnErr result (self.new ≡ self.old) }
    {
        self.lines
            .put_on(alloc, at.line as usize, at.column as usize, chars)?;
        self.count += chars.len();
        Ok(())
    }

    // Puts characters in at a place. It costs them, what stands behind on the line, and the lines between here and the
    // change before.
    pub(crate) fn put_lines(
        &mut self,
        alloc: Global,
        at: Coord,
        chars: &[char],
    ) -> Result<(), AllocError>
        requires place { IsPlace self.old at }
        requires room { length self.old + length chars.now ≤ MAX_CHARS }
        ensures ok { OnOk result (self.new ≡ changed self.old (Insertion (offset self.old at) chars.now)) }
        ensures err { OnErr result (self.new ≡ self.old) }
    {
        self.lines
            .split(alloc, at.line as usize, at.column as usize, chars)?;
        self.count += chars.len();
        Ok(())
    }

    // Puts whole lines in at the end.
    pub(crate) fn put_at_end(&mut self, alloc: Global, chars: &[char]) -> Result<(), AllocError>
        requires room { length self.old + length chars.now ≤ MAX_CHARS }
        requires lines { IsText chars.now }
        ensures ok { OnOk result (self.new ≡ self.old ++ chars.now) }
        ensures err { OnErr result (self.new ≡ self.old) }
    {
        let fresh = cut(alloc, chars)?;
        let end = self.line_count();
        self.lines.replace(end, end, fresh)?;
        self.count += chars.len();
        Ok(())
    }

    // Takes the characters from a place of a line to before another out, which takes no memory.
    pub(crate) fn cut_line(&mut self, from: Coord, to: Coord)
        requires place { IsPlace self.old to }
        requires one_line { from.line ≡ to.line }
        requires ordered { from.column ≤ to.column }
        ensures { self.new ≡ changed self.old (Erasure (offset self.old from) (offset self.old to)) }
    {
        self.lines
            .cut_on(to.line as usize, from.column as usize, to.column as usize);
        self.count -= (to.column - from.column) as usize;
    }

    // Takes so many characters out, from a place to before one on a later line. It costs what stands behind both on their
    // lines, the lines that go, and the lines between here and the change before.
    pub(crate) fn join_lines(
        &mut self,
        alloc: Global,
        from: Coord,
        to: Coord,
        gone: usize,
    ) -> Result<(), AllocError>
        requires from { IsPlace self.old from }
        requires to { IsPlace self.old to }
        requires ordered { from.line < to.line }
        requires gone { offset self.old from + gone ≡ offset self.old to }
        ensures ok { OnOk result (self.new ≡ changed self.old (Erasure (offset self.old from) (offset self.old to))) }
        ensures err { OnErr result (self.new ≡ self.old) }
    {
        self.lines.join(
            alloc,
            from.line as usize,
            from.column as usize,
            to.line as usize,
            to.column as usize,
        )?;
        self.count -= gone;
        Ok(())
    }

    // Takes the lines from one that isn't the first up to the end out, with so many characters.
    pub(crate) fn cut_off(
        &mut self,
        alloc: Global,
        from: Coord,
        gone: usize,
    ) -> Result<(), AllocError>
        requires begin { from.column ≡ 0 }
        requires some { 0 < from.line }
        requires inside { from.line ≤ line_count self.old }
        requires gone { offset self.old from + gone ≡ length self.old }
        ensures ok { OnOk result (self.new ≡ changed self.old (Erasure (offset self.old from) (length self.old))) }
        ensures err { OnErr result (self.new ≡ self.old) }
    {
        let end = self.line_count();
        self.lines
            .replace(from.line as usize, end, Vec::new(alloc))?;
        self.count -= gone;
        Ok(())
    }
}
