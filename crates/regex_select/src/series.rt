//! The selections of a list as texts that come one after another.

ghost use Rattle.std.proofs.Props.{props};
ghost use Rattle.std.specs.Prelude.{◌≡◌, map};
ghost use Rattle.selection_set.specs.Listing.{AreInside, ranges_of};
ghost use Rattle.regex_select.specs.Rows.{selected_bytes, bytes_left};

use crate::writing::write;
use line_buffer::Lines;
use regex_ports::Texts;
use selection_set::Sels;
use std::alloc::AllocError;

/// The selections of a list as texts, from one of them on.
#[derive(Drop)]
pub(crate) struct SelTexts<'a> {
    lines: &'a Lines,
    sels: &'a Sels,
    next: usize,
    ghost inside: { AreInside lines.now sels.now.list } by { Prim.hlevel props },
}

impl<'a> SelTexts<'a> {
    /// All selections of a list.
    pub(crate) fn new(lines: &'a Lines, sels: &'a Sels) -> SelTexts<'a>
        requires { AreInside lines.now sels.now.list }
        ensures { bytes_left result.lines.now result.sels.now.list result.next ≡ map (selected_bytes lines.now) (ranges_of lines.now sels.now.list) }
    {
        SelTexts {
            lines,
            sels,
            next: 0,
        }
    }
}

impl<'a> Texts for SelTexts<'a> {
    ghost left = { λ t. bytes_left t.lines.now t.sels.now.list t.next };

    fn next(&mut self, text: &mut String) -> Result<bool, AllocError> {
        if self.next >= self.sels.len() {
            return Ok(false);
        }
        write(self.lines, self.sels.at(self.next), text)?;
        self.next += 1;
        Ok(true)
    }
}
