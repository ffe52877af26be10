//! The mark of a change: where a text differs from the one before.

ghost use Rattle.std.specs.Prelude.{◌≡◌, ℕ, ◌-◌, ◌<◌, List, min};
ghost use Rattle.text_model.specs.Texts.{IsPlaceOrEnd, offset, coord_at, last_place};
ghost use Rattle.text_model.specs.Changes.{Change};
ghost use Rattle.undo_model.specs.Marks.{mark};
ghost use Rattle.move_marks.specs.Marking.{sel_at};
ghost use Rattle.buffer_store.specs.Traces.{IsRightBehind, IsBehindAStep};

use kak_text::{Coord, Shift};
use line_buffer::Lines;
use selection_set::Sel;

/// The mark of the last change of a text, by its shift: what was put in, or the character where something was taken out,
/// which is the last one where that was the end.
pub(crate) fn mark_of(lines: &Lines, shift: Shift) -> Sel
    requires { IsBehindAStep lines.now shift }
    ensures { (old : List ℕ) (c : Change) → IsRightBehind old c lines.now shift → result ≡ sel_at lines.now (mark lines.now c) }
{
    if shift.insert {
        return Sel {
            low: shift.begin,
            high: before(lines, shift.end),
            turned: false,
            target: None,
        };
    }
    Sel::only(at_most_last(lines, shift.begin))
}

// The place before another, or before the end.
fn before(lines: &Lines, at: Coord) -> Coord
    requires place { IsPlaceOrEnd lines.now at }
    requires some { 0 < offset lines.now at }
    ensures { result ≡ coord_at lines.now (offset lines.now at - 1) }
{
    if at.line as usize == lines.line_count() {
        return lines.last_place();
    }
    match lines.prev(at) {
        Some(place) => place,
        None => unreachable!(),
    }
}

// A place itself, and the last one for the end.
fn at_most_last(lines: &Lines, at: Coord) -> Coord
    requires { IsPlaceOrEnd lines.now at }
    ensures { result ≡ coord_at lines.now (min (offset lines.now at) (last_place lines.now)) }
{
    if at.line as usize == lines.line_count() {
        return lines.last_place();
    }
    at
}
