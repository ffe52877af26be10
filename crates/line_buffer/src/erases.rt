//! Taking characters out of a text, over the calls that reach its fields.

ghost use Rattle.std.specs.Prelude.{◌≡◌, ℕ, ◌+◌, ◌<◌, ◌≤◌, ◌==◌, ◌&&◌, nat_lt, length, slice_range, IfOk, OnOk, OnErr};
ghost use Rattle.text_model.specs.Texts.{IsStored, IsPlaceOrEnd, offset, line_count};
ghost use Rattle.text_model.specs.Changes.{taken_end, erased, changed, Erasure, IsShift};
ghost use Rattle.line_buffer.specs.Taking.{taken_move};

use crate::lines::Lines;
use kak_text::{Coord, Shift};
use std::alloc::{AllocError, Global};

impl Lines {
    /// Takes the characters from a place to before another, or to the end, out, and gives the shift of the change and what
    /// was taken. The last newline of the text stays, unless the range reaches the end and begins behind another newline:
    /// then its lines go whole. Where nothing is taken, the shift's begin is its end. After an error the text is as it was.
    /// It costs the lines that it touches, and where lines go, those between them and the change before.
    pub fn erase(
        &mut self,
        alloc: Global,
        from: Coord,
        to: Coord,
    ) -> Result<(Shift, Vec<char>), AllocError>
        requires from { IsPlaceOrEnd self.old from }
        requires to { IsPlaceOrEnd self.old to }
        requires ordered { offset self.old from ≤ offset self.old to }
        ensures text { OnOk result (self.new ≡ erased self.old (offset self.old from) (offset self.old to)) }
        ensures shift { IfOk result (λ e. IsShift self.old self.new e.0 (taken_move self.old (offset self.old from) (offset self.old to))) }
        ensures begin { IfOk result (λ e. e.0.begin ≡ from) }
        ensures taken { IfOk result (λ e. e.1.items ≡ slice_range self.old (offset self.old from) (taken_end self.old (offset self.old from) (offset self.old to))) }
        ensures err { OnErr result (self.new ≡ self.old) }
        ensures valid { IsStored self.old × IsStored self.new }
    {
        let end = self.taken_to(from, to);
        let taken = self.chars(alloc, from, end)?;
        self.take_out(alloc, from, end, taken.len())?;
        let shift = Shift {
            insert: false,
            begin: from,
            end,
            last: self.last_place(),
        };
        Ok((shift, taken))
    }

    // Where the range that is really taken ends: at the end only where it begins behind a newline.
    fn taken_to(&self, from: Coord, to: Coord) -> Coord
        requires from { IsPlaceOrEnd self.now from }
        requires to { IsPlaceOrEnd self.now to }
        requires ordered { offset self.now from ≤ offset self.now to }
        ensures value { offset self.now result ≡ taken_end self.now (offset self.now from) (offset self.now to) }
        ensures place { IsPlaceOrEnd self.now result }
        ensures after { offset self.now from ≤ offset self.now result }
        ensures whole { result.line ≡ line_count self.now → (from.column ≡ 0) × (0 < from.line) }
        ensures valid { IsStored self.now }
    {
        let lines = self.line_count();
        if (to.line as usize) < lines {
            return to;
        }
        if begins_later_line(from) {
            return to;
        }
        self.last_place()
    }

    // Takes a range of so many characters out, which ends at a place, or at the end where it begins behind a newline.
    fn take_out(
        &mut self,
        alloc: Global,
        from: Coord,
        to: Coord,
        gone: usize,
    ) -> Result<(), AllocError>
        requires from { IsPlaceOrEnd self.old from }
        requires to { IsPlaceOrEnd self.old to }
        requires gone { offset self.old from + gone ≡ offset self.old to }
        requires whole { to.line ≡ line_count self.old → (from.column ≡ 0) × (0 < from.line) }
        ensures ok { OnOk result (self.new ≡ changed self.old (Erasure (offset self.old from) (offset self.old to))) }
        ensures err { OnErr result (self.new ≡ self.old) }
    {
        if to.line as usize == self.line_count() {
            return self.cut_off(alloc, from, gone);
        }
        if from.line == to.line {
            self.cut_line(from, to);
            return Ok(());
        }
        self.join_lines(alloc, from, to, gone)
    }
}

// Whether a line other than the first begins at a coordinate.
fn begins_later_line(at: Coord) -> bool
    ensures { result ≡ (nat_lt 0 at.line && (at.column == 0)) }
{
    at.line > 0 && at.column == 0
}
