//! The lists of selections that changes leave.

ghost use Rattle.std.specs.Prelude.{◌<◌, length};
ghost use Rattle.text_trials.specs.Trials.{IsTrialOfMarks};

use crate::rows::{at, erased, straight, typed};
use move_marks::list_left;
use selection_set::Sel;
use std::alloc::Global;
use std::process::Abort;
use std::test::Fail;
use text_model::{Coord, Shift};

// The list that changes leave is as expected.
fn assert_left<R: Abort>(
    rt: &R,
    alloc: Global,
    marks: &[Sel],
    shifts: &[Shift],
    expected: &[Sel],
    main: usize,
) -> Result<(), Fail>
    requires some { 0 < length marks.now }
    requires trial { IsTrialOfMarks marks.now shifts.now }
{
    let list = list_left(alloc, marks, shifts)?;
    assert_eq!(rt; list.as_slice(), expected);
    assert_eq!(rt; list.main(), main);
    Ok(())
}

#[test]
fn one_change_leaves_its_mark(rt: HostRuntime) -> Result<(), Fail> {
    let marks = [straight!(at!(0, 1), at!(0, 2))];
    let shifts = [typed!(at!(0, 1), at!(0, 3), at!(0, 4))];
    let expected = [straight!(at!(0, 1), at!(0, 2))];
    assert_left(
        &rt,
        rt.alloc(),
        marks.as_slice(),
        shifts.as_slice(),
        expected.as_slice(),
        0,
    )
}

#[test]
fn letters_typed_on_each_line(rt: HostRuntime) -> Result<(), Fail> {
    let marks = [
        straight!(at!(0, 0), at!(0, 0)),
        straight!(at!(1, 0), at!(1, 0)),
        straight!(at!(2, 0), at!(2, 0)),
    ];
    let shifts = [
        typed!(at!(0, 0), at!(0, 1), at!(2, 2)),
        typed!(at!(1, 0), at!(1, 1), at!(2, 2)),
        typed!(at!(2, 0), at!(2, 1), at!(2, 3)),
    ];
    let expected = [
        straight!(at!(0, 0), at!(0, 0)),
        straight!(at!(1, 0), at!(1, 0)),
        straight!(at!(2, 0), at!(2, 0)),
    ];
    assert_left(
        &rt,
        rt.alloc(),
        marks.as_slice(),
        shifts.as_slice(),
        expected.as_slice(),
        2,
    )
}

#[test]
fn typing_taken_back(rt: HostRuntime) -> Result<(), Fail> {
    let marks = [
        straight!(at!(2, 0), at!(2, 0)),
        straight!(at!(1, 0), at!(1, 0)),
        straight!(at!(0, 0), at!(0, 0)),
    ];
    let shifts = [
        erased!(at!(2, 0), at!(2, 1), at!(2, 2)),
        erased!(at!(1, 0), at!(1, 1), at!(2, 2)),
        erased!(at!(0, 0), at!(0, 1), at!(2, 2)),
    ];
    let expected = [
        straight!(at!(0, 0), at!(0, 0)),
        straight!(at!(1, 0), at!(1, 0)),
        straight!(at!(2, 0), at!(2, 0)),
    ];
    assert_left(
        &rt,
        rt.alloc(),
        marks.as_slice(),
        shifts.as_slice(),
        expected.as_slice(),
        0,
    )
}

#[test]
fn each_word_exchanged(rt: HostRuntime) -> Result<(), Fail> {
    let marks = [
        straight!(at!(0, 0), at!(0, 0)),
        straight!(at!(0, 0), at!(0, 0)),
        straight!(at!(0, 2), at!(0, 2)),
        straight!(at!(0, 2), at!(0, 3)),
        straight!(at!(0, 5), at!(0, 5)),
        straight!(at!(0, 5), at!(0, 5)),
    ];
    let shifts = [
        erased!(at!(0, 0), at!(0, 3), at!(0, 8)),
        typed!(at!(0, 0), at!(0, 1), at!(0, 9)),
        erased!(at!(0, 2), at!(0, 5), at!(0, 6)),
        typed!(at!(0, 2), at!(0, 4), at!(0, 8)),
        erased!(at!(0, 5), at!(0, 8), at!(0, 5)),
        typed!(at!(0, 5), at!(0, 6), at!(0, 6)),
    ];
    let expected = [
        straight!(at!(0, 0), at!(0, 0)),
        straight!(at!(0, 1), at!(0, 1)),
        straight!(at!(0, 2), at!(0, 3)),
        straight!(at!(0, 4), at!(0, 4)),
        straight!(at!(0, 5), at!(0, 5)),
        straight!(at!(0, 6), at!(0, 6)),
    ];
    assert_left(
        &rt,
        rt.alloc(),
        marks.as_slice(),
        shifts.as_slice(),
        expected.as_slice(),
        4,
    )
}

#[test]
fn exchange_taken_back(rt: HostRuntime) -> Result<(), Fail> {
    let marks = [
        straight!(at!(0, 5), at!(0, 5)),
        straight!(at!(0, 5), at!(0, 7)),
        straight!(at!(0, 2), at!(0, 2)),
        straight!(at!(0, 2), at!(0, 4)),
        straight!(at!(0, 0), at!(0, 0)),
        straight!(at!(0, 0), at!(0, 2)),
    ];
    let shifts = [
        erased!(at!(0, 5), at!(0, 6), at!(0, 5)),
        typed!(at!(0, 5), at!(0, 8), at!(0, 8)),
        erased!(at!(0, 2), at!(0, 4), at!(0, 6)),
        typed!(at!(0, 2), at!(0, 5), at!(0, 9)),
        erased!(at!(0, 0), at!(0, 1), at!(0, 8)),
        typed!(at!(0, 0), at!(0, 3), at!(0, 11)),
    ];
    let expected = [
        straight!(at!(0, 0), at!(0, 2)),
        straight!(at!(0, 3), at!(0, 3)),
        straight!(at!(0, 4), at!(0, 6)),
        straight!(at!(0, 7), at!(0, 7)),
        straight!(at!(0, 8), at!(0, 10)),
        straight!(at!(0, 11), at!(0, 11)),
    ];
    assert_left(
        &rt,
        rt.alloc(),
        marks.as_slice(),
        shifts.as_slice(),
        expected.as_slice(),
        0,
    )
}

#[test]
fn letters_side_by_side_exchanged(rt: HostRuntime) -> Result<(), Fail> {
    let marks = [
        straight!(at!(0, 0), at!(0, 0)),
        straight!(at!(0, 0), at!(0, 0)),
        straight!(at!(0, 1), at!(0, 1)),
        straight!(at!(0, 1), at!(0, 1)),
        straight!(at!(0, 2), at!(0, 2)),
        straight!(at!(0, 2), at!(0, 2)),
    ];
    let shifts = [
        erased!(at!(0, 0), at!(0, 1), at!(0, 3)),
        typed!(at!(0, 0), at!(0, 1), at!(0, 4)),
        erased!(at!(0, 1), at!(0, 2), at!(0, 3)),
        typed!(at!(0, 1), at!(0, 2), at!(0, 4)),
        erased!(at!(0, 2), at!(0, 3), at!(0, 3)),
        typed!(at!(0, 2), at!(0, 3), at!(0, 4)),
    ];
    let expected = [
        straight!(at!(0, 0), at!(0, 0)),
        straight!(at!(0, 1), at!(0, 1)),
        straight!(at!(0, 2), at!(0, 2)),
        straight!(at!(0, 3), at!(0, 3)),
    ];
    assert_left(
        &rt,
        rt.alloc(),
        marks.as_slice(),
        shifts.as_slice(),
        expected.as_slice(),
        2,
    )
}

#[test]
fn lines_taken_back_leave_fewer(rt: HostRuntime) -> Result<(), Fail> {
    let marks = [
        straight!(at!(1, 2), at!(1, 2)),
        straight!(at!(1, 0), at!(2, 0)),
        straight!(at!(0, 1), at!(0, 1)),
    ];
    let shifts = [
        erased!(at!(2, 0), at!(3, 0), at!(1, 2)),
        typed!(at!(1, 0), at!(2, 1), at!(2, 3)),
        erased!(at!(0, 1), at!(1, 0), at!(1, 3)),
    ];
    let expected = [
        straight!(at!(0, 1), at!(1, 0)),
        straight!(at!(1, 3), at!(1, 3)),
    ];
    assert_left(
        &rt,
        rt.alloc(),
        marks.as_slice(),
        shifts.as_slice(),
        expected.as_slice(),
        0,
    )
}

#[test]
fn changes_to_and_fro_leave_fewer(rt: HostRuntime) -> Result<(), Fail> {
    let marks = [
        straight!(at!(0, 1), at!(0, 3)),
        straight!(at!(0, 5), at!(0, 5)),
        straight!(at!(0, 2), at!(0, 2)),
        straight!(at!(0, 0), at!(0, 0)),
        straight!(at!(0, 4), at!(0, 4)),
    ];
    let shifts = [
        typed!(at!(0, 1), at!(0, 4), at!(1, 3)),
        erased!(at!(0, 5), at!(1, 1), at!(0, 7)),
        typed!(at!(0, 2), at!(0, 3), at!(0, 8)),
        erased!(at!(0, 0), at!(0, 4), at!(0, 4)),
        typed!(at!(0, 4), at!(1, 0), at!(1, 0)),
    ];
    let expected = [
        straight!(at!(0, 0), at!(0, 0)),
        straight!(at!(0, 2), at!(0, 2)),
        straight!(at!(0, 4), at!(0, 4)),
    ];
    assert_left(
        &rt,
        rt.alloc(),
        marks.as_slice(),
        shifts.as_slice(),
        expected.as_slice(),
        2,
    )
}
