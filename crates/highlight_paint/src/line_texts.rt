//! Lines as texts that come one after another.

ghost use Rattle.std.proofs.Props.{props};
ghost use Rattle.std.specs.Prelude.{◌≡◌, ◌≤◌};
ghost use Rattle.text_model.specs.Texts.{line_count};
ghost use Rattle.highlight_paint.specs.Texts.{bytes_between};

use crate::painting::LinePart;
use line_buffer::Lines;
use regex_ports::Texts;
use std::alloc::AllocError;

/// Lines without their newlines as texts, from one to before another.
#[derive(Drop)]
pub(crate) struct LineTexts<'a> {
    lines: &'a Lines,
    next: usize,
    below: usize,
    ghost inside: { below ≤ line_count lines.now } by { Prim.hlevel props },
}

impl<'a> LineTexts<'a> {
    /// The lines of a part.
    pub(crate) fn new(part: LinePart<'a>) -> LineTexts<'a>
        requires { part.below ≤ line_count part.lines.now }
        ensures { bytes_between result.lines.now result.next result.below ≡ bytes_between part.entry.lines.now part.entry.top part.entry.below }
    {
        LineTexts {
            lines: part.lines,
            next: part.top,
            below: part.below,
        }
    }
}

impl<'a> Texts for LineTexts<'a> {
    ghost left = { λ t. bytes_between t.lines.now t.next t.below };

    fn next(&mut self, text: &mut String) -> Result<bool, AllocError> {
        if self.next >= self.below {
            return Ok(false);
        }
        let line = self.lines.line(self.next);
        text.clear();
        line.between(0, line.len() - 1).push_utf8(text)?;
        self.next += 1;
        Ok(true)
    }
}
