//! How far places go through several changes at once.

ghost use Rattle.std.specs.Prelude.{◌≡◌, if◌then◌else◌};
ghost use Rattle.text_model.specs.Coords.{is_at_most};
ghost use Rattle.selection_map.specs.Carrying.{IsSmall};
ghost use Rattle.selection_map.specs.Rebasing.{rebased, earlier};
ghost use Rattle.selection_map.specs.Reaching.{goes, at_rest, reach_of, then_on};
ghost use Rattle.selection_map.specs.Bounds.{IsSmallReach};

use crate::carrying::{earlier_of, rebase};
use text_model::{Coord, Shift};

/// A way through changes: behind `from` in the text before them and behind `onto` in the text after them the texts are
/// the same, and what isn't behind `from` has gone to `put`, which is `onto` cut to the last place.
#[derive(Clone, Copy, Debug)]
pub(crate) struct ShiftReach {
    pub(crate) from: Coord,
    pub(crate) onto: Coord,
    pub(crate) put: Coord,
}

/// No way at all.
pub(crate) fn at_rest() -> ShiftReach
    ensures { result ≡ at_rest }
{
    let origin = Coord { line: 0, column: 0 };
    ShiftReach {
        from: origin,
        onto: origin,
        put: origin,
    }
}

/// Where a coordinate goes.
pub(crate) fn goes(way: ShiftReach, at: Coord) -> Coord
    requires at_small { IsSmall at }
    requires onto_small { IsSmall way.onto }
    ensures { result ≡ goes way at }
{
    if at.is_at_most(way.from) {
        return way.put;
    }
    rebase(at, way.from, way.onto)
}

/// The way of one shift.
pub(crate) fn reach_of(shift: &Shift) -> ShiftReach
    ensures { result ≡ reach_of shift.now }
{
    if shift.insert {
        return ShiftReach {
            from: shift.begin,
            onto: shift.end,
            put: earlier_of(shift.end, shift.last),
        };
    }
    ShiftReach {
        from: shift.end,
        onto: shift.begin,
        put: earlier_of(shift.begin, shift.last),
    }
}

/// One way, and then another.
pub(crate) fn then_on(a: ShiftReach, b: ShiftReach) -> ShiftReach
    requires a_small { IsSmallReach a }
    requires b_small { IsSmallReach b }
    ensures { result ≡ then_on a b }
{
    let put = goes(b, a.put);
    if b.from.is_at_most(a.onto) {
        return ShiftReach {
            from: a.from,
            onto: rebase(a.onto, b.from, b.onto),
            put,
        };
    }
    ShiftReach {
        from: rebase(b.from, a.onto, a.from),
        onto: b.onto,
        put,
    }
}
