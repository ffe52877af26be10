//! Lists of selections that go through many changes at once.

ghost use Rattle.std.specs.Prelude.{◌≡◌, ◌+◌, ◌<◌, ◌≤◌, length};
ghost use Rattle.selection_map.specs.Behind.{AreRising};
ghost use Rattle.selection_map.specs.Catching.{IsCatchable};
ghost use Rattle.text_trials.specs.Trials.{IsTrialOfList};

use crate::rows::{at, erased, straight, turned, typed};
use selection_map::{catch_up, catch_up_forward, map_sels};
use selection_set::{Sel, Sels};
use std::alloc::Global;
use std::marker::Brand;
use std::process::Abort;
use std::sync::ledger::{Blank, Ledger};
use std::test::Fail;
use step_count::Steps;
use text_model::{Coord, Shift};

// Carries and settles a list at each of some changes.
fn one_by_one(sels: &mut Sels, shifts: &[Shift])
    requires { IsCatchable shifts.now sels.old }
{
    for shift in shifts {
        map_sels(sels, shift);
    }
}

// A list goes through the shifts at once as it does one by one, and is then as expected.
fn assert_caught_up<R: Abort>(
    rt: &R,
    alloc: Global,
    given: &[Sel],
    main: usize,
    shifts: &[Shift],
    expected: (&[Sel], usize),
) -> Result<(), Fail>
    requires main { main < length given.now }
    requires trial { IsTrialOfList given.now shifts.now }
{
    let mut list = Sels::of_sels(alloc, given, main)?;
    catch_up(&mut list, shifts);
    let mut other = Sels::of_sels(alloc, given, main)?;
    one_by_one(&mut other, shifts);
    assert_eq!(rt; list.as_slice(), other.as_slice());
    assert_eq!(rt; list.main(), other.main());
    assert_eq!(rt; list.as_slice(), expected.0);
    assert_eq!(rt; list.main(), expected.1);
    Ok(())
}

#[test]
fn letters_are_typed_at_many_cursors(rt: HostRuntime) -> Result<(), Fail> {
    let given = [
        straight!(at!(0, 1), at!(0, 1)),
        turned!(at!(0, 3), at!(0, 4)),
        straight!(at!(0, 6), at!(0, 6)),
        straight!(at!(1, 2), at!(1, 2)),
    ];
    let shifts = [
        typed!(at!(0, 1), at!(0, 2), at!(1, 4)),
        typed!(at!(0, 4), at!(0, 5), at!(1, 4)),
        typed!(at!(0, 8), at!(0, 9), at!(1, 4)),
        typed!(at!(1, 2), at!(1, 3), at!(1, 5)),
    ];
    let expected = [
        straight!(at!(0, 2), at!(0, 2)),
        turned!(at!(0, 5), at!(0, 6)),
        straight!(at!(0, 9), at!(0, 9)),
        straight!(at!(1, 3), at!(1, 3)),
    ];
    assert_caught_up(
        &rt,
        rt.alloc(),
        given.as_slice(),
        2,
        shifts.as_slice(),
        (expected.as_slice(), 2),
    )
}

#[test]
fn what_is_taken_out_joins_selections(rt: HostRuntime) -> Result<(), Fail> {
    let given = [
        turned!(at!(0, 1), at!(0, 2)),
        straight!(at!(0, 3), at!(0, 4)),
        straight!(at!(0, 6), at!(0, 8)),
        straight!(at!(1, 1), at!(1, 1)),
    ];
    let shifts = [
        erased!(at!(0, 1), at!(0, 3), at!(1, 2)),
        erased!(at!(0, 2), at!(0, 5), at!(1, 2)),
        erased!(at!(0, 3), at!(1, 0), at!(0, 5)),
    ];
    let expected = [
        turned!(at!(0, 1), at!(0, 3)),
        straight!(at!(0, 4), at!(0, 4)),
    ];
    assert_caught_up(
        &rt,
        rt.alloc(),
        given.as_slice(),
        3,
        shifts.as_slice(),
        (expected.as_slice(), 1),
    )
}

#[test]
fn typing_is_taken_back_from_the_last_to_the_first(rt: HostRuntime) -> Result<(), Fail> {
    let given = [
        straight!(at!(0, 2), at!(0, 2)),
        turned!(at!(0, 5), at!(0, 6)),
        straight!(at!(0, 9), at!(0, 9)),
        straight!(at!(1, 3), at!(1, 3)),
    ];
    let shifts = [
        erased!(at!(1, 2), at!(1, 3), at!(1, 4)),
        erased!(at!(0, 8), at!(0, 9), at!(1, 4)),
        erased!(at!(0, 4), at!(0, 5), at!(1, 4)),
        erased!(at!(0, 1), at!(0, 2), at!(1, 4)),
    ];
    let expected = [
        straight!(at!(0, 1), at!(0, 1)),
        turned!(at!(0, 3), at!(0, 4)),
        straight!(at!(0, 6), at!(0, 6)),
        straight!(at!(1, 2), at!(1, 2)),
    ];
    assert_caught_up(
        &rt,
        rt.alloc(),
        given.as_slice(),
        1,
        shifts.as_slice(),
        (expected.as_slice(), 1),
    )
}

#[test]
fn the_end_of_the_text_is_taken_out_first(rt: HostRuntime) -> Result<(), Fail> {
    let given = [
        straight!(at!(0, 1), at!(1, 0)),
        straight!(at!(1, 1), at!(1, 2)),
    ];
    let shifts = [
        erased!(at!(1, 0), at!(2, 0), at!(0, 2)),
        erased!(at!(0, 1), at!(0, 2), at!(0, 1)),
    ];
    let expected = [straight!(at!(0, 1), at!(0, 1))];
    assert_caught_up(
        &rt,
        rt.alloc(),
        given.as_slice(),
        1,
        shifts.as_slice(),
        (expected.as_slice(), 0),
    )
}

#[test]
fn shifts_that_go_to_and_fro_are_cut_into_runs(rt: HostRuntime) -> Result<(), Fail> {
    let given = [
        straight!(at!(0, 0), at!(0, 1)),
        turned!(at!(0, 3), at!(0, 4)),
        straight!(at!(1, 2), at!(1, 4)),
    ];
    let shifts = [
        typed!(at!(0, 1), at!(0, 2), at!(1, 4)),
        typed!(at!(0, 4), at!(0, 5), at!(1, 4)),
        erased!(at!(0, 4), at!(0, 5), at!(1, 4)),
        erased!(at!(0, 1), at!(0, 2), at!(1, 4)),
        typed!(at!(1, 3), at!(1, 4), at!(1, 5)),
        erased!(at!(0, 4), at!(1, 0), at!(0, 9)),
    ];
    let expected = [
        straight!(at!(0, 0), at!(0, 1)),
        turned!(at!(0, 3), at!(0, 4)),
        straight!(at!(0, 6), at!(0, 9)),
    ];
    assert_caught_up(
        &rt,
        rt.alloc(),
        given.as_slice(),
        2,
        shifts.as_slice(),
        (expected.as_slice(), 2),
    )
}

// One selection goes through two shifts that rise, in at most four turns.
fn go_in_four_turns<L: Ledger>(sels: &mut Sels, shifts: &[Shift], steps: &mut Steps<L>)
    requires can { IsCatchable shifts.now sels.old }
    requires rise { AreRising shifts.now }
    requires one { length sels.old.list ≡ 1 }
    requires two { length shifts.now ≡ 2 }
    ensures { steps.new ≤ steps.old + 4 }
{
    catch_up_forward(sels, shifts, steps);
}

// The selection from column 1 to column 3 and two insertions there.
fn assert_goes_forward<L: Ledger, R: Abort>(rt: &R, alloc: Global, blank: Blank) -> Result<(), Fail>
    requires name { blank.name ≡ L.name }
    requires parts { blank.parts ≡ L.parts }
    requires some { 0 < blank.parts }
{
    let shifts = [
        typed!(at!(0, 1), at!(0, 2), at!(0, 7)),
        typed!(at!(0, 4), at!(0, 5), at!(0, 8)),
    ];
    let mut list = Sels::one(alloc, turned!(at!(0, 1), at!(0, 3)));
    let mut steps = Steps::<L>::new(blank);
    go_in_four_turns(&mut list, shifts.as_slice(), &mut steps);
    let expected = [turned!(at!(0, 2), at!(0, 5))];
    assert_eq!(rt; list.as_slice(), expected.as_slice());
    Ok(())
}

#[test]
fn one_selection_and_two_insertions_take_four_turns(rt: HostRuntime) -> Result<(), Fail> {
    assert_goes_forward::<Brand, _>(&rt, rt.alloc(), Blank::new(1))
}

#[test]
fn a_letter_on_one_line_leaves_the_other_lines(rt: HostRuntime) -> Result<(), Fail> {
    let given = [
        straight!(at!(0, 0), at!(0, 1)),
        turned!(at!(1, 0), at!(1, 1)),
        straight!(at!(1, 3), at!(1, 4)),
        turned!(at!(2, 1), at!(2, 2)),
        straight!(at!(3, 0), at!(3, 1)),
    ];
    let shifts = [
        typed!(at!(1, 2), at!(1, 3), at!(3, 2)),
        typed!(at!(1, 3), at!(1, 4), at!(3, 2)),
    ];
    let expected = [
        straight!(at!(0, 0), at!(0, 1)),
        turned!(at!(1, 0), at!(1, 1)),
        straight!(at!(1, 5), at!(1, 6)),
        turned!(at!(2, 1), at!(2, 2)),
        straight!(at!(3, 0), at!(3, 1)),
    ];
    assert_caught_up(
        &rt,
        rt.alloc(),
        given.as_slice(),
        3,
        shifts.as_slice(),
        (expected.as_slice(), 3),
    )
}

#[test]
fn what_moves_joins_what_stays_in_front(rt: HostRuntime) -> Result<(), Fail> {
    let given = [
        straight!(at!(0, 0), at!(0, 0)),
        turned!(at!(0, 1), at!(0, 2)),
        straight!(at!(1, 1), at!(1, 1)),
    ];
    let shifts = [erased!(at!(1, 0), at!(2, 0), at!(0, 2))];
    let expected = [
        straight!(at!(0, 0), at!(0, 0)),
        turned!(at!(0, 1), at!(0, 2)),
    ];
    assert_caught_up(
        &rt,
        rt.alloc(),
        given.as_slice(),
        2,
        shifts.as_slice(),
        (expected.as_slice(), 1),
    )
}

#[test]
fn what_is_between_two_shifts_stays(rt: HostRuntime) -> Result<(), Fail> {
    let given = [
        straight!(at!(0, 1), at!(0, 1)),
        turned!(at!(1, 0), at!(1, 1)),
        straight!(at!(2, 1), at!(2, 1)),
        straight!(at!(3, 0), at!(3, 2)),
        turned!(at!(4, 0), at!(4, 1)),
    ];
    let shifts = [
        typed!(at!(0, 1), at!(0, 2), at!(4, 2)),
        typed!(at!(4, 1), at!(4, 2), at!(4, 3)),
    ];
    let expected = [
        straight!(at!(0, 2), at!(0, 2)),
        turned!(at!(1, 0), at!(1, 1)),
        straight!(at!(2, 1), at!(2, 1)),
        straight!(at!(3, 0), at!(3, 2)),
        turned!(at!(4, 0), at!(4, 2)),
    ];
    assert_caught_up(
        &rt,
        rt.alloc(),
        given.as_slice(),
        4,
        shifts.as_slice(),
        (expected.as_slice(), 4),
    )
}
