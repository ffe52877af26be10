//! Replacements in a history, over the calls that reach its fields.

ghost use Rattle.std.specs.Prelude.{◌≡◌, ℕ, ◌+◌, ◌<◌, ◌≤◌, ◌++◌, ◌&&◌, nat_lt, false, [], length, IfOk, OnOk, OnErr, option_to_list, vec_len, vec_capacity};
ghost use Rattle.text_model.specs.declared.TheConstants.{MAX_CHARS};
ghost use Rattle.text_model.specs.Texts.{IsPlaceOrEnd, offset, coord_at, ends_in_newline, end_coord};
ghost use Rattle.text_model.specs.Changes.{all_changed};
ghost use Rattle.undo_model.specs.Steps.{AreSteps};
ghost use Rattle.undo_model.specs.Stories.{is_undo_full};
ghost use Rattle.undo_model.specs.Edits.{is_too_long};
ghost use Rattle.buffer_store.specs.Buffers.{AreSplicesOf, flat_splices, changes_of};
ghost use Rattle.buffer_store.specs.Histories.{exchange_between, behind_exchange, replacement_between, replacement_from, IsWholly, IsPartly, IsBehind, end_of};

use crate::edits::Splice;
use crate::history::History;
use kak_text::{Coord, Shift};
use selection_map::rebase;
use std::alloc::{AllocError, Global};

impl History {
    /// Makes replacements, from the first to the last, as changes of a client, where the text and the tree have room for all
    /// of them, and adds their shifts to an empty list. After an error some of the single changes are made, from the first on.
    pub(crate) fn replace_all(
        &mut self,
        alloc: Global,
        who: u32,
        splices: &[Splice],
        shifts: &mut Vec<Shift>,
    ) -> Result<(), AllocError>
        requires splices { AreSplicesOf self.old.text splices.now }
        requires short { is_too_long (length self.old.text) self.old.text (flat_splices self.old.text splices.now) ≡ false }
        requires nodes { is_undo_full who (changes_of self.old.text splices.now) self.old ≡ false }
        requires none { shifts.old.items ≡ [] }
        ensures ok { OnOk result (IsWholly who (changes_of self.old.text splices.now) self.old self.new [] shifts.new.items) }
        ensures err { OnErr result (IsPartly who (changes_of self.old.text splices.now) self.old self.new [] shifts.new.items) }
        ensures steps { AreSteps self.old.text (changes_of self.old.text splices.now) }
    {
        // its contract says that the text is one that can be kept
        let _stored = self.lines().len();
        let mut from = Coord { line: 0, column: 0 };
        let mut to = from;
        for splice in splices {
            let begin = rebase(splice.from, from, to);
            let end = rebase(splice.to, from, to);
            to = self.replace(alloc, who, begin, end, splice.text.as_slice(), shifts)?;
            from = splice.to;
        }
        Ok(())
    }

    // Replaces a range by characters, and gives the coordinate behind them, from which on the text is as it was behind the
    // range. After an error some of the single changes are made, from the first on.
    fn replace(
        &mut self,
        alloc: Global,
        who: u32,
        from: Coord,
        to: Coord,
        chars: &[char],
        shifts: &mut Vec<Shift>,
    ) -> Result<Coord, AllocError>
        requires from { IsPlaceOrEnd self.old.text from }
        requires to { IsPlaceOrEnd self.old.text to }
        requires ordered { offset self.old.text from ≤ offset self.old.text to }
        requires room { length (all_changed self.old.text (replacement_between self.old.text from to chars.now)) ≤ MAX_CHARS }
        requires nodes { is_undo_full who (replacement_between self.old.text from to chars.now) self.old ≡ false }
        ensures ok { OnOk result (IsWholly who (replacement_between self.old.text from to chars.now) self.old self.new shifts.old.items shifts.new.items) }
        ensures err { OnErr result (IsPartly who (replacement_between self.old.text from to chars.now) self.old self.new shifts.old.items shifts.new.items) }
        ensures behind { IfOk result (λ b. IsBehind self.old.text self.new.text to b) }
    {
        if (to.line as usize) < self.lines().line_count() {
            return self.exchange(alloc, who, from, to, chars, shifts);
        }
        self.replace_end(alloc, who, from, to, chars, shifts)?;
        Ok(Coord {
            line: self.lines().line_count() as u32,
            column: 0,
        })
    }

    // Replaces the end of the text from a place on; its last newline stays where it would be taken and put back.
    fn replace_end(
        &mut self,
        alloc: Global,
        who: u32,
        from: Coord,
        to: Coord,
        chars: &[char],
        shifts: &mut Vec<Shift>,
    ) -> Result<Coord, AllocError>
        requires from { IsPlaceOrEnd self.old.text from }
        requires to { to ≡ end_coord self.old.text }
        requires room { length (all_changed self.old.text (replacement_from self.old.text from chars.now)) ≤ MAX_CHARS }
        requires nodes { is_undo_full who (replacement_from self.old.text from chars.now) self.old ≡ false }
        ensures ok { OnOk result (IsWholly who (replacement_from self.old.text from chars.now) self.old self.new shifts.old.items shifts.new.items) }
        ensures err { OnErr result (IsPartly who (replacement_from self.old.text from chars.now) self.old self.new shifts.old.items shifts.new.items) }
    {
        let last = self.lines().last_place();
        if keeps_newline(from, to, chars) {
            let front = &chars[..chars.len() - 1];
            return self.exchange(alloc, who, from, last, front, shifts);
        }
        self.exchange(alloc, who, from, to, chars, shifts)
    }

    // Takes a range out and puts characters in at its place, and gives the coordinate behind them.
    fn exchange(
        &mut self,
        alloc: Global,
        who: u32,
        from: Coord,
        to: Coord,
        chars: &[char],
        shifts: &mut Vec<Shift>,
    ) -> Result<Coord, AllocError>
        requires from { IsPlaceOrEnd self.old.text from }
        requires to { IsPlaceOrEnd self.old.text to }
        requires ordered { offset self.old.text from ≤ offset self.old.text to }
        requires room { length (all_changed self.old.text (exchange_between self.old.text from to chars.now)) ≤ MAX_CHARS }
        requires nodes { is_undo_full who (exchange_between self.old.text from to chars.now) self.old ≡ false }
        ensures ok { OnOk result (IsWholly who (exchange_between self.old.text from to chars.now) self.old self.new shifts.old.items shifts.new.items) }
        ensures err { OnErr result (IsPartly who (exchange_between self.old.text from to chars.now) self.old self.new shifts.old.items shifts.new.items) }
        ensures behind { IfOk result (λ b. b ≡ coord_at self.new.text (behind_exchange self.old.text from to chars.now)) }
    {
        // its contract says that the text is one that can be kept
        let _stored = self.lines().len();
        shifts.reserve(2)?;
        let taken = self.erase(alloc, who, from, to)?;
        note(shifts, taken);
        let put = self.insert(alloc, who, from, chars)?;
        note(shifts, put);
        Ok(behind(from, put))
    }
}

// Adds a shift, if there is one, to a list that has room for it.
fn note(shifts: &mut Vec<Shift>, shift: Option<Shift>)
    requires { vec_len shifts.old < vec_capacity shifts.old }
    ensures items { shifts.new.items ≡ shifts.old.items ++ option_to_list shift }
    ensures len { vec_len shifts.new ≤ vec_len shifts.old + 1 }
    ensures capacity { vec_capacity shifts.new ≡ vec_capacity shifts.old }
{
    if let Some(shift) = shift {
        shifts.push_reserved(shift);
    }
}

// The coordinate behind what was put in at one.
fn behind(at: Coord, put: Option<Shift>) -> Coord
    ensures { result ≡ end_of at put }
{
    match put {
        Some(shift) => shift.end,
        None => at,
    }
}

// Whether a replacement from a coordinate up to the end of a text would take its last newline and put one back.
pub(crate) fn keeps_newline(from: Coord, to: Coord, chars: &[char]) -> bool
    ensures { result ≡ (nat_lt from.line to.line && ends_in_newline chars.now) }
{
    from.line < to.line && chars.last() == Some(&'\n')
}
