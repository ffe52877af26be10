//! One line of a buffer.

ghost use Rattle.std.specs.Prelude.{◌≡◌, ◌≢◌, ◌<◌, ◌≤◌, ◌++◌, length, take, drop, chars, All, IfOk, OnOk, OnErr};
ghost use Rattle.text_model.specs.Texts.{IsLine};
ghost use Rattle.compact_chars.specs.Rows.{chars_of};

use compact_chars::{CharsRef, CompactChars};
use std::alloc::{AllocError, Global};
use std::marker::Model;

/// A line: its last character is a newline, and no other is.
#[derive(Drop, Debug)]
pub struct Line {
    chars: CompactChars,
}

impl Model for Line {
    ghost use Rattle.std.specs.Prelude.{List, ℕ};
    ghost use Rattle.text_model.specs.Texts.{IsLine};

    ghost Value = { List ℕ };

    ghost view = { λ a. a.chars };

    ghost invariant = { λ a. IsLine a.chars };
}

impl Line {
    /// A line that holds a copy of these characters.
    pub fn of_chars(alloc: Global, chars: CharsRef<'_>) -> Result<Line, AllocError>
        requires { IsLine (chars_of chars) }
        ensures { IfOk result (λ line. line ≡ chars_of chars.entry) }
    {
        Ok(Line {
            chars: CompactChars::of_chars(alloc, chars)?,
        })
    }

    /// The line of a string.
    pub fn of_str(alloc: Global, text: &str) -> Result<Line, AllocError>
        requires { IsLine (chars text.now) }
        ensures { IfOk result (λ line. line ≡ chars text.now) }
    {
        Ok(Line {
            chars: CompactChars::of_str(alloc, text)?,
        })
    }

    /// A line that holds a copy of characters that are no newlines, and of a line behind them.
    pub fn of_both(
        alloc: Global,
        front: CharsRef<'_>,
        end: CharsRef<'_>,
    ) -> Result<Line, AllocError>
        requires one_line { All (λ c. c ≢ 10) (chars_of front) }
        requires line { IsLine (chars_of end) }
        ensures { IfOk result (λ line. line ≡ chars_of front.entry ++ chars_of end.entry) }
    {
        Ok(Line {
            chars: CompactChars::of_both(alloc, front, end)?,
        })
    }

    /// Puts characters that are no newlines in at a column. It costs them and what stands behind the column; where they are
    /// the first for which a byte isn't enough, it costs the line.
    pub fn put(&mut self, alloc: Global, column: usize, chars: &[char]) -> Result<(), AllocError>
        requires inside { column < length self.old }
        requires one_line { All (λ c. c ≢ 10) chars.now }
        ensures ok { OnOk result (self.new ≡ take column self.old ++ (chars.now ++ drop column self.old)) }
        ensures err { OnErr result (self.new ≡ self.old) }
    {
        self.chars.put(alloc, column, chars)
    }

    /// Takes the characters from a column to before another out; takes no memory.
    pub fn cut(&mut self, from: usize, to: usize)
        requires ordered { from ≤ to }
        requires inside { to < length self.old }
        ensures { self.new ≡ take from self.old ++ drop to self.old }
    {
        self.chars.cut(from, to);
    }

    /// Begins the line with characters that are no newlines, in the place of those before a column. It costs them and what
    /// stands behind the column; where they are the first for which a byte isn't enough, it costs the line.
    pub fn begin_as(
        &mut self,
        alloc: Global,
        column: usize,
        begin: &[char],
    ) -> Result<(), AllocError>
        requires inside { column < length self.old }
        requires one_line { All (λ c. c ≢ 10) begin.now }
        ensures ok { OnOk result (self.new ≡ begin.now ++ drop column self.old) }
        ensures err { OnErr result (self.new ≡ self.old) }
    {
        self.chars.put(alloc, column, begin)?;
        self.chars.cut(0, column);
        Ok(())
    }

    /// Ends the line at a column as another does. It costs the new end alone, and what stands before the column only where in
    /// the new end a byte isn't enough for the first time.
    pub fn end_as(
        &mut self,
        alloc: Global,
        column: usize,
        end: CharsRef<'_>,
    ) -> Result<(), AllocError>
        requires inside { column < length self.old }
        requires line { IsLine (chars_of end) }
        ensures ok { OnOk result (self.new ≡ take column self.old ++ chars_of end.entry) }
        ensures err { OnErr result (self.new ≡ self.old) }
    {
        self.chars.end_as(alloc, column, end)
    }

    /// What stands before a column, in which no newline is.
    pub fn begin(&self, column: usize) -> CharsRef<'_>
        requires { column < length self.now }
        ensures value { chars_of result ≡ take column self.now }
        ensures one_line { All (λ c. c ≢ 10) (chars_of result) }
        ensures valid { IsLine self.now }
    {
        self.chars.as_chars().between(0, column)
    }

    /// What stands from a column on, which is a line too.
    pub fn rest(&self, column: usize) -> CharsRef<'_>
        requires { column < length self.now }
        ensures value { chars_of result ≡ drop column self.now }
        ensures line { IsLine (chars_of result) }
        ensures valid { IsLine self.now }
    {
        self.chars.as_chars().behind(column)
    }

    /// The characters.
    pub fn as_chars(&self) -> CharsRef<'_>
        ensures value { chars_of result ≡ self.now }
        ensures valid { IsLine self.now }
    {
        self.chars.as_chars()
    }
}
