//! Lines that come one behind another.

ghost use Rattle.std.specs.Prelude.{◌≡◌, ◌+◌, ◌<◌, ◌≤◌, ◌++◌, ◌∷◌, ◌↔◌, [], length, chars, IsTrue, OnOk, OnErr, IsErrOf};
ghost use Rattle.text_model.specs.Texts.{IsLine};
ghost use Rattle.text_model.specs.declared.TheConstants.{MAX_CHARS};

use crate::line::Line;
use crate::lines::{Lines, LinesError};
use kak_text::MAX_CHARS;
use std::alloc::{AllocError, Global};
use std::marker::Model;

/// Lines that come one behind another, as those of a file do, with the count of their characters. They are seen as these
/// characters. A line costs its own characters.
#[derive(Drop, Debug)]
pub struct GrowingLines {
    lines: Vec<Line>,
    count: usize,
}

impl Model for GrowingLines {
    ghost use Rattle.std.specs.Prelude.{◌≡◌, ◌≤◌, All, List, ℕ, length};
    ghost use Rattle.text_model.specs.Texts.{IsLine, joined};
    ghost use Rattle.text_model.specs.declared.TheConstants.{MAX_CHARS};

    ghost Value = { List ℕ };

    ghost view = { λ g. joined g.lines.items };

    ghost invariant = { λ g. All IsLine g.lines.items × (g.count ≡ length (joined g.lines.items)) × (g.count ≤ MAX_CHARS) };
}

// Whether a string has so many characters at most. They are counted only where its bytes are more.
fn has_at_most(text: &str, most: usize) -> bool
    ensures { IsTrue result ↔ (length (chars text.now) ≤ most) }
{
    if text.len() <= most {
        return true;
    }
    char_len(text) <= most
}

// How many characters a text has.
fn char_len(text: &str) -> usize
    ensures { result ≡ length (chars text.now) }
{
    text.chars().count()
}

// Adds a line.
fn push_line(lines: &mut Vec<Line>, line: Line) -> Result<(), AllocError>
    ensures ok { OnOk result (lines.new.items ≡ lines.old.items ++ line ∷ []) }
    ensures err { OnErr result (lines.new.items ≡ lines.old.items) }
{
    lines.push(line)?;
    Ok(())
}

impl GrowingLines {
    /// No line.
    pub fn new(alloc: Global) -> GrowingLines
        ensures { result ≡ [] }
    {
        GrowingLines {
            lines: Vec::new(alloc),
            count: 0,
        }
    }

    /// How many characters there are.
    pub fn len(&self) -> usize
        ensures { result ≡ length self.now }
    {
        self.count
    }

    /// Adds the line of a string. `TextFull` comes where there would be more than `MAX_CHARS` characters. An `Err` leaves
    /// the lines.
    pub fn push(&mut self, alloc: Global, line: &str) -> Result<(), LinesError>
        requires { IsLine (chars line.now) }
        ensures ok { OnOk result (self.new ≡ self.old ++ chars line.now) }
        ensures full { IsErrOf result LinesError.TextFull ↔ (MAX_CHARS < length self.old + length (chars line.now)) }
        ensures err { OnErr result (self.new ≡ self.old) }
    {
        if !has_at_most(line, MAX_CHARS - self.count) {
            return Err(LinesError::TextFull);
        }
        let made = Line::of_str(alloc, line)?;
        let more = made.as_chars().len();
        push_line(&mut self.lines, made)?;
        self.count += more;
        Ok(())
    }

    /// The text of these lines, of which there is one at least; takes no memory.
    pub fn finish(self, alloc: Global) -> Lines
        requires { 0 < length self }
        ensures { result ≡ self }
    {
        let GrowingLines { lines, count } = self;
        Lines::of_lines(alloc, lines, count)
    }
}
