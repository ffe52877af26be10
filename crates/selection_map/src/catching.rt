//! Lists of selections through many changes at once.

ghost use Rattle.std.specs.Prelude.{◌≡◌, ◌↔◌, ℕ, ◌<◌, ◌≤◌, ◌-◌, ◌+◌, ◌*◌, true, false, List, length, take, map, slice_index_or};
ghost use Rattle.text_model.specs.Coords.{is_at_most};
ghost use Rattle.selection_map.specs.Rebasing.{earlier};
ghost use Rattle.selection_map.specs.Reaching.{through};
ghost use Rattle.selection_map.specs.declared.walking.ShiftWay.{ShiftWay};
ghost use Rattle.selection_map.specs.Walking.{follows, IsRun};
ghost use Rattle.selection_map.specs.Premises.{CanGoOn, CanWalk};
ghost use Rattle.selection_map.specs.Staying.{FirstStay, OthersStay, count_moved};
ghost use Rattle.selection_map.specs.Behind.{AreFalling, AreRising};
ghost use Rattle.selection_map.specs.Catching.{Step, CanCatchUp, IsCatchable, IsCaughtUp};

use crate::carrying::earlier_of;
use crate::staying::{greater, lesser, settle_between};
use crate::walking::{ShiftWay, count_before, walk_sels};
use selection_set::Sels;
use std::marker::Brand;
use std::sync::ledger::{Blank, Ledger};
use step_count::Steps;
use text_model::Shift;

// Whether one shift may follow another in a walk.
fn follows(way: ShiftWay, a: &Shift, b: &Shift) -> bool
    ensures { result ≡ follows way a.now b.now }
{
    match way {
        ShiftWay::Rising => a.begin.is_at_most(b.begin),
        ShiftWay::Falling => b.begin.is_at_most(earlier_of(a.begin, a.last)),
    }
}

// How many of the first shifts go one way.
fn run_length(way: ShiftWay, shifts: &[Shift]) -> usize
    requires { 0 < length shifts.now }
    ensures some { 0 < result }
    ensures few { result ≤ length shifts.now }
    ensures run { IsRun way (take result shifts.now) }
    ensures longest { result < length shifts.now → (d : Shift)
        → follows way (slice_index_or shifts.now (result - 1) d) (slice_index_or shifts.now result d) ≡ false }
{
    let mut n = 1;
    while n < shifts.len() {
        if !follows(way, &shifts[n - 1], &shifts[n]) {
            return n;
        }
        n += 1;
    }
    n
}

/// Whether shifts fall: each begins at or before the begin of the one in front of it, and not behind the last place that
/// that one left.
pub fn falls(shifts: &[Shift]) -> bool
    ensures { result ≡ true ↔ AreFalling shifts.now }
{
    if shifts.is_empty() {
        return true;
    }
    run_length(ShiftWay::Falling, shifts) == shifts.len()
}

/// Whether shifts rise: none begins before the begin of the one in front of it.
pub fn rises(shifts: &[Shift]) -> bool
    ensures { result ≡ true ↔ AreRising shifts.now }
{
    if shifts.is_empty() {
        return true;
    }
    run_length(ShiftWay::Rising, shifts) == shifts.len()
}

// A run of shifts that a list went through: how many they are, and the places before and from which on no selection moved.
#[derive(Clone, Copy, Debug)]
struct PassedRun {
    count: usize,
    low: usize,
    high: usize,
}

// Takes each selection of a list through shifts that go one way: the places before and from which on none moved.
fn walk_part<L: Ledger>(
    way: ShiftWay,
    sels: &mut Sels,
    shifts: &[Shift],
    steps: &mut Steps<L>,
) -> (usize, usize)
    requires some { 0 < length shifts.now }
    requires can { CanWalk way shifts.now sels.old.list }
    ensures each { sels.new ≡ record { list = map (through shifts.now) sels.old.list; main = sels.old.main } }
    ensures first { FirstStay result.0 shifts.now sels.old.list }
    ensures others { OthersStay result.1 shifts.now sels.old.list }
{
    let low = count_before(way, sels, shifts);
    let high = walk_sels(way, sels, shifts, low, steps);
    (low, high)
}

// Takes each selection of a list through the first shifts that go one way, rising or falling, whichever are more.
fn walk_run<L: Ledger>(sels: &mut Sels, shifts: &[Shift], steps: &mut Steps<L>) -> PassedRun
    requires some { 0 < length shifts.now }
    requires can { CanGoOn shifts.now sels.old.list }
    ensures some { 0 < result.count }
    ensures few { result.count ≤ length shifts.now }
    ensures each { sels.new ≡ record { list = map (through (take result.count shifts.now)) sels.old.list; main = sels.old.main } }
    ensures first { FirstStay result.low (take result.count shifts.now) sels.old.list }
    ensures others { OthersStay result.high (take result.count shifts.now) sels.old.list }
    ensures whole { (way : ShiftWay) → IsRun way shifts.now → result.count ≡ length shifts.now }
{
    let rising = run_length(ShiftWay::Rising, shifts);
    let falling = run_length(ShiftWay::Falling, shifts);
    if rising < falling {
        let (low, high) = walk_part(ShiftWay::Falling, sels, &shifts[..falling], steps);
        return PassedRun {
            count: falling,
            low,
            high,
        };
    }
    let (low, high) = walk_part(ShiftWay::Rising, sels, &shifts[..rising], steps);
    PassedRun {
        count: rising,
        low,
        high,
    }
}

// Takes a list through shifts, run by run, and settles the part that moved.
fn catch_all<L: Ledger>(sels: &mut Sels, shifts: &[Shift], blank: Blank)
    requires can { IsCatchable shifts.now sels.old }
    requires name { blank.name ≡ L.name }
    requires parts { blank.parts ≡ L.parts }
    requires some { 0 < blank.parts }
    ensures caught { (old : List ℕ) (steps : List Step) → CanCatchUp old steps shifts.now sels.old
        → IsCaughtUp old steps sels.old sels.new }
{
    let mut steps = Steps::<L>::new(blank);
    let mut start = 0;
    let mut low = sels.len();
    let mut high = 0;
    while start < shifts.len() {
        let run = walk_run(sels, &shifts[start..], &mut steps);
        start += run.count;
        low = lesser(low, run.low);
        high = greater(high, run.high);
    }
    settle_between(sels, low, high);
}

/// Takes a list that is held in a text through the shifts of changes of that text, one after another: then it is held in
/// the text after the changes, and is what it would be if it had been carried and settled at each of them. Takes no
/// memory. The shifts are cut into runs whose begins rise or fall. Each run costs its shifts and the selections that it moves,
/// and a search by halves for the next one on a later line. Where lines came or went, all selections behind them move.
pub fn catch_up(sels: &mut Sels, shifts: &[Shift])
    requires { IsCatchable shifts.now sels.old }
    ensures caught { (old : List ℕ) (steps : List Step) → CanCatchUp old steps shifts.now sels.old
        → IsCaughtUp old steps sels.old sels.new }
{
    catch_all::<Brand>(sels, shifts, Blank::new(1));
}

/// The same for shifts that rise, in one walk with a count of its turns: each finishes one end of a selection or passes one
/// shift. There are two for each selection that moves at least, and two for each selection and one for each shift at most.
/// The searches by halves for the next selection that moves, and the settling afterwards, are no turns.
pub fn catch_up_forward<L: Ledger>(sels: &mut Sels, shifts: &[Shift], steps: &mut Steps<L>)
    requires can { IsCatchable shifts.now sels.old }
    requires rise { AreRising shifts.now }
    ensures caught { (old : List ℕ) (by : List Step) → CanCatchUp old by shifts.now sels.old
        → IsCaughtUp old by sels.old sels.new }
    ensures ends { steps.old + 2 * count_moved shifts.now sels.old.list ≤ steps.new }
    ensures turns { steps.new ≤ steps.old + (2 * length sels.old.list + length shifts.now) }
{
    walk_sels(ShiftWay::Rising, sels, shifts, 0, steps);
    sels.settle();
}
