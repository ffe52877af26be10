//! Places and selections through one change.

ghost use Rattle.std.specs.Prelude.{◌≡◌, ℕ, List, true, if◌then◌else◌};
ghost use Rattle.text_model.specs.Coords.{is_at_most};
ghost use Rattle.text_model.specs.Texts.{IsPlace};
ghost use Rattle.text_model.specs.Changes.{Move};
ghost use Rattle.selection_map.specs.Carrying.{IsSmall, IsShiftStep, Carries, AreSmall, CarriesBoth};
ghost use Rattle.selection_set.specs.Inside.{IsInside};
ghost use Rattle.selection_map.specs.Rebasing.{rebased, mapped, mapped_sel, earlier};

use selection_set::Sel;
use text_model::{Coord, Shift};

/// The coordinate that lies as far behind `to` as `at` lies behind `from`.
pub fn rebase(at: Coord, from: Coord, to: Coord) -> Coord
    requires ordered { is_at_most from at ≡ true }
    requires at_small { IsSmall at }
    requires to_small { IsSmall to }
    ensures { result ≡ rebased at from to }
{
    if at.line == from.line {
        return Coord {
            line: to.line,
            column: to.column + (at.column - from.column),
        };
    }
    Coord {
        line: to.line + (at.line - from.line),
        column: at.column,
    }
}

/// The earlier of two coordinates.
pub(crate) fn earlier_of(a: Coord, b: Coord) -> Coord
    ensures { result ≡ earlier a b }
{
    if a.is_at_most(b) { a } else { b }
}

// Where a coordinate goes, by its arithmetic alone.
fn map_coord(at: Coord, shift: &Shift) -> Coord
    requires at_small { IsSmall at }
    requires begin_small { IsSmall shift.now.begin }
    requires end_small { IsSmall shift.now.end }
    ensures { result ≡ mapped shift.now at }
{
    if !shift.begin.is_at_most(at) {
        return earlier_of(at, shift.last);
    }
    if shift.insert {
        return earlier_of(rebase(at, shift.begin, shift.end), shift.last);
    }
    if at.is_at_most(shift.end) {
        return earlier_of(shift.begin, shift.last);
    }
    earlier_of(rebase(at, shift.end, shift.begin), shift.last)
}

/// Where a place of a text goes when the text is changed. Through an insertion, what stands before it stays and the
/// rest goes behind it; through an erasure, what stands in the range or right behind it goes to where it began. What
/// would come behind the last character goes to the last character.
pub fn map_one(at: Coord, shift: &Shift) -> Coord
    requires at_small { IsSmall at }
    requires begin_small { IsSmall shift.now.begin }
    requires end_small { IsSmall shift.now.end }
    ensures mapped { result ≡ mapped shift.now at }
    ensures carries { (old new : List ℕ) (m : Move) → IsShiftStep old new shift.now m → IsPlace old at → Carries old new m at result }
{
    map_coord(at, shift)
}

/// Where a selection of a text goes when the text is changed: both of its ends go as `map_one` says, and its flag and
/// its target stay.
pub fn map_sel(sel: Sel, shift: &Shift) -> Sel
    requires { AreSmall sel shift.now }
    ensures mapped { result ≡ mapped_sel shift.now sel }
    ensures carries { (old new : List ℕ) (m : Move) → IsShiftStep old new shift.now m → IsInside old sel → CarriesBoth old new m sel result }
{
    Sel {
        low: map_one(sel.low, shift),
        high: map_one(sel.high, shift),
        turned: sel.turned,
        target: sel.target,
    }
}
