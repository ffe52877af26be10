//! The walk of a list of selections in order through shifts in order. Ends and shifts both go forward, and each is passed
//! once.

ghost use Rattle.std.specs.Prelude.{◌≡◌, ◌+◌, ◌*◌, ◌<◌, ◌≤◌, List, [], ◌∷◌, length, drop, map, slice_index_or};
ghost use Rattle.text_model.specs.Coords.{is_at_most};
ghost use Rattle.selection_map.specs.Carrying.{IsSmall};
ghost use Rattle.selection_map.specs.Bounds.{IsSmallReach};
ghost use Rattle.selection_map.specs.Reaching.{goes, reach_of, through};
ghost use Rattle.selection_map.specs.Walking.{queue, is_due, with_shift, advanced, underway};
ghost use Rattle.selection_map.specs.Premises.{CanAdvance, CanWalk, CanWalkOver};
ghost use Rattle.selection_map.specs.Staying.{FirstStay, OthersStay, StayBetween, count_moved};

use crate::reach::{ShiftReach, at_rest, goes, reach_of, then_on};
use crate::staying::first_from;
use selection_set::{Sel, Sels};
use std::sync::ledger::Ledger;
use step_count::Steps;
use text_model::{Coord, Shift};

/// How the begins of shifts, one after another, go on: none falls, or none rises.
#[derive(Clone, Copy, PartialEq, Eq, Debug)]
pub(crate) enum ShiftWay {
    /// The shifts are passed from the first to the last.
    Rising,
    /// The shifts are passed from the last to the first.
    Falling,
}

/// How far a walk has come: the way of the shifts passed, and how many these are.
#[derive(Clone, Copy, Debug)]
pub(crate) struct Walk {
    pub(crate) reach: ShiftReach,
    pub(crate) passed: usize,
}

// The shift that is passed behind n others.
fn nth(way: ShiftWay, shifts: &[Shift], n: usize) -> Shift
    requires { n < length shifts.now }
    ensures { (d : Shift) → result ≡ slice_index_or (queue way shifts.now) n d }
{
    match way {
        ShiftWay::Rising => shifts[n],
        ShiftWay::Falling => shifts[shifts.len() - 1 - n],
    }
}

// Whether a shift is passed before an end.
fn is_due(way: ShiftWay, at: Coord, shift: &Shift, reach: ShiftReach) -> bool
    requires at_small { IsSmall at }
    requires onto_small { IsSmall reach.onto }
    ensures { result ≡ is_due way at shift.now reach }
{
    match way {
        ShiftWay::Rising => shift.begin.is_at_most(goes(reach, at)),
        ShiftWay::Falling => shift.begin.is_at_most(at),
    }
}

// The way with one more shift.
fn with_shift(way: ShiftWay, shift: &Shift, reach: ShiftReach) -> ShiftReach
    requires reach_small { IsSmallReach reach }
    requires shift_small { IsSmallReach (reach_of shift.now) }
    ensures { result ≡ with_shift way shift.now reach }
{
    match way {
        ShiftWay::Rising => then_on(reach, reach_of(shift)),
        ShiftWay::Falling => then_on(reach_of(shift), reach),
    }
}

// Passes the shifts that are due before an end. A turn finishes that end, and one passes each shift.
fn advance<L: Ledger>(
    way: ShiftWay,
    at: Coord,
    walk: Walk,
    shifts: &[Shift],
    steps: &mut Steps<L>,
) -> Walk
    requires { CanAdvance way shifts.now walk at }
    ensures goes_on { underway way shifts.now result ≡ advanced way at walk.reach (drop walk.passed (queue way shifts.now)) }
    ensures few { result.passed ≤ length shifts.now }
    ensures turns { steps.new + walk.passed ≡ steps.old + result.passed + 1 }
{
    steps.tick();
    let mut reach = walk.reach;
    let mut passed = walk.passed;
    while passed < shifts.len() {
        let shift = nth(way, shifts, passed);
        if !is_due(way, at, &shift, reach) {
            return Walk { reach, passed };
        }
        steps.tick();
        reach = with_shift(way, &shift, reach);
        passed += 1;
    }
    Walk { reach, passed }
}

// Takes a selection through all shifts, and goes on to its ends, in a turn for each end and each shift passed.
fn walk_one<L: Ledger>(
    way: ShiftWay,
    sel: Sel,
    walk: Walk,
    shifts: &[Shift],
    steps: &mut Steps<L>,
) -> (Sel, Walk)
    requires { CanWalkOver way shifts.now walk (sel ∷ []) }
    ensures through { result.0 ≡ through shifts.now sel }
    ensures goes_on { (rest : List Sel) → CanWalkOver way shifts.now walk (sel ∷ rest) → CanWalkOver way shifts.now result.1 rest }
    ensures few { result.1.passed ≤ length shifts.now }
    ensures turns { steps.new + walk.passed ≡ steps.old + result.1.passed + 2 }
{
    let low = advance(way, sel.low, walk, shifts, steps);
    let high = advance(way, sel.high, low, shifts, steps);
    let moved = Sel {
        low: goes(low.reach, sel.low),
        high: goes(high.reach, sel.high),
        turned: sel.turned,
        target: sel.target,
    };
    (moved, high)
}

/// How many of the first selections of a list end before each of some shifts begins, which go one way: these stay where they
/// are. They are searched for by halves.
pub(crate) fn count_before(way: ShiftWay, sels: &Sels, shifts: &[Shift]) -> usize
    requires some { 0 < length shifts.now }
    requires can { CanWalk way shifts.now sels.now.list }
    ensures few { result ≤ length sels.now.list }
    ensures stay { FirstStay result shifts.now sels.now.list }
{
    let first = nth(way, shifts, 0);
    first_from(sels, first.begin, 0)
}

// The place of a selection from a place on up to which all stay where they are: those on lines behind the shifts that were
// passed, where as many lines came as went, which end before the next shift begins. They are searched for by halves.
fn next_to_move(way: ShiftWay, sels: &Sels, shifts: &[Shift], walk: Walk, from: usize) -> usize
    requires over { CanWalkOver way shifts.now walk (drop from sels.now.list) }
    requires within { from < length sels.now.list }
    ensures behind { from ≤ result }
    ensures few { result ≤ length sels.now.list }
    ensures stay { StayBetween from result shifts.now sels.now.list }
{
    let sel = sels.at(from);
    if walk.reach.from.line != walk.reach.onto.line {
        return from;
    }
    if sel.low.line <= walk.reach.from.line {
        return from;
    }
    if walk.passed >= shifts.len() {
        return sels.len();
    }
    let next = nth(way, shifts, walk.passed);
    first_from(sels, next.begin, from)
}

/// Takes each selection of a list through all shifts, which go one way, where the first ones before a place are known to stay.
/// The answer is a place from which on all others stay too, which weren't looked at. A turn finishes an end or passes a shift.
pub(crate) fn walk_sels<L: Ledger>(
    way: ShiftWay,
    sels: &mut Sels,
    shifts: &[Shift],
    from: usize,
    steps: &mut Steps<L>,
) -> usize
    requires can { CanWalk way shifts.now sels.old.list }
    requires first { FirstStay from shifts.now sels.old.list }
    requires within { from ≤ length sels.old.list }
    ensures each { sels.new ≡ record { list = map (through shifts.now) sels.old.list; main = sels.old.main } }
    ensures others { OthersStay result shifts.now sels.old.list }
    ensures ends { steps.old + 2 * count_moved shifts.now sels.old.list ≤ steps.new }
    ensures turns { steps.new ≤ steps.old + (2 * length sels.old.list + length shifts.now) }
{
    let count = sels.len();
    let mut walk = Walk {
        reach: at_rest(),
        passed: 0,
    };
    let mut n = from;
    while n < count {
        let next = next_to_move(way, sels, shifts, walk, n);
        if next >= count {
            return n;
        }
        let (moved, further) = walk_one(way, sels.at(next), walk, shifts, steps);
        sels.put(next, moved);
        walk = further;
        n = next + 1;
    }
    n
}
