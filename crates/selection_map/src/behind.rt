//! Selections that stand each behind a change of its own, through the changes behind that.

ghost use Rattle.std.specs.Prelude.{◌≡◌, true, IfSome, is_some};
ghost use Rattle.selection_map.specs.Carrying.{IsSmall};
ghost use Rattle.selection_map.specs.Reaching.{through};
ghost use Rattle.selection_map.specs.Behind.{AreFalling, AreRising, meets_few, all_meet_few, each_through_rest, both_go, StandBehind, CanGoPast};

use crate::carrying::map_sel;
use crate::reach::{ShiftReach, at_rest, goes, reach_of, then_on};
use selection_set::Sel;
use text_model::Shift;

/// Takes each of some selections, which stand each in the text behind a change of its own, through the shifts of the
/// changes behind that, where these fall. Takes no memory, and costs selections and shifts once: they are passed from
/// the last to the first.
pub fn carry_back(sels: &mut [Sel], shifts: &[Shift])
    requires behind { StandBehind shifts.now sels.old }
    requires fall { AreFalling shifts.now }
    ensures { sels.new ≡ each_through_rest shifts.now sels.old }
{
    let mut way = at_rest();
    let mut n = sels.len();
    while n > 0 {
        n -= 1;
        sels[n] = gone(way, sels[n]);
        way = then_on(reach_of(&shifts[n]), way);
    }
}

/// Takes each of some selections, which stand each in the text behind a change of its own, through the shifts of the
/// changes behind that, where these rise, and each selection meets at most two of them before one begins behind it. Where
/// some selection meets more, the answer is false, and the selections are of no use. Takes no memory, and costs selections
/// and shifts once.
pub fn carry_on(sels: &mut [Sel], shifts: &[Shift]) -> bool
    requires behind { StandBehind shifts.now sels.old }
    requires rise { AreRising shifts.now }
    ensures few { result ≡ all_meet_few shifts.now sels.old }
    ensures carried { result ≡ true → sels.new ≡ each_through_rest shifts.now sels.old }
{
    for n in 0..sels.len() {
        let (_, rest) = shifts.split_at(n + 1);
        let Some(moved) = past(2, sels[n], rest) else {
            return false;
        };
        sels[n] = moved;
    }
    true
}

// Takes a selection through shifts that rise, where it meets at most so many before one begins behind it.
fn past(most: usize, sel: Sel, shifts: &[Shift]) -> Option<Sel>
    requires { CanGoPast shifts.now sel }
    ensures through { IfSome result (λ x. x ≡ through shifts.now sel) }
    ensures few { is_some result ≡ meets_few most shifts.now sel }
{
    let Some((first, others)) = shifts.split_first() else {
        return Some(sel);
    };
    if !first.begin.is_at_most(sel.high) {
        return Some(sel);
    }
    if most == 0 {
        return None;
    }
    past(most - 1, map_sel(sel, first), others)
}

// Where both ends of a selection go.
fn gone(way: ShiftReach, sel: Sel) -> Sel
    requires low_small { IsSmall sel.low }
    requires high_small { IsSmall sel.high }
    requires onto_small { IsSmall way.onto }
    ensures { result ≡ both_go way sel }
{
    Sel {
        low: goes(way, sel.low),
        high: goes(way, sel.high),
        turned: sel.turned,
        target: sel.target,
    }
}
