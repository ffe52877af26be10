//! Selections that stay where they are, of which a list may have many: they are found by the two ends of the part that moves,
//! and such a list is settled by looking at that part.

ghost use Rattle.std.specs.Prelude.{◌≡◌, ℕ, ◌<◌, ◌≤◌, ◌-◌, true, false, List, length, take, drop, slice_index_or, min, max};
ghost use Rattle.text_model.specs.Coords.{is_at_most};
ghost use Rattle.selection_set.specs.Listing.{IsList, AreInside, ranges_of, LowsDontFall, IsSettledIn};
ghost use Rattle.selection_set.specs.declared.sel.Sel.{Sel};
ghost use Rattle.selection_map.specs.Staying.{EndBeforeNext};

use selection_set::Sels;
use text_model::Coord;

/// The place of the first selection from a place on that doesn't end before a coordinate, in a list whose ends rise; how many
/// selections there are where all do. The first one is looked at, and then the others are searched by halves.
pub(crate) fn first_from(sels: &Sels, at: Coord, from: usize) -> usize
    requires { from ≤ length sels.now.list }
    ensures behind { from ≤ result }
    ensures within { result ≤ length sels.now.list }
    ensures before { from < result → (d : Sel) → is_at_most at (slice_index_or sels.now.list (result - 1) d).high ≡ false }
{
    let mut low = from;
    let mut high = sels.len();
    if low < high && at.is_at_most(sels.at(low).high) {
        return low;
    }
    while low < high {
        let middle = low + (high - low) / 2;
        let sel = sels.at(middle);
        if at.is_at_most(sel.high) {
            high = middle;
            continue;
        }
        low = middle + 1;
    }
    low
}

/// The lesser of two places.
pub(crate) fn lesser(a: usize, b: usize) -> usize
    ensures { result ≡ min a b }
{
    if a <= b { a } else { b }
}

/// The greater of two places.
pub(crate) fn greater(a: usize, b: usize) -> usize
    ensures { result ≡ max a b }
{
    if a <= b { b } else { a }
}

// Whether each selection of a list ends before the next one begins, where the first ones before one place do, and those from
// another one on: only what is between is looked at.
fn end_before_next(sels: &Sels, low: usize, high: usize) -> bool
    requires front { EndBeforeNext (take low sels.now.list) }
    requires others { EndBeforeNext (drop high sels.now.list) }
    ensures apart { result ≡ true → EndBeforeNext sels.now.list }
    ensures valid { IsList sels.now.list sels.now.main }
{
    let count = sels.len();
    let mut n = greater(low, 1);
    while n < count {
        if n > high {
            return true;
        }
        let sel = sels.at(n);
        let former = sels.at(n - 1);
        if sel.low.is_at_most(former.high) {
            return false;
        }
        n += 1;
    }
    true
}

/// Settles a list of which the first selections before one place, and those from another one on, are settled already. Where
/// none between has come to share a character with its neighbour, only what is between is looked at. Takes no memory.
pub(crate) fn settle_between(sels: &mut Sels, low: usize, high: usize)
    requires front { EndBeforeNext (take low sels.old.list) }
    requires others { EndBeforeNext (drop high sels.old.list) }
    ensures settles { (text : List ℕ) → AreInside text sels.old.list → LowsDontFall (ranges_of text sels.old.list)
        → IsSettledIn text (ranges_of text sels.old.list) sels.old.main sels.new }
{
    if end_before_next(sels, low, high) {
        return;
    }
    sels.settle();
}
