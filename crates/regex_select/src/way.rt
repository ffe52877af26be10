//! The way of a search over a text, and what is ahead on it.

ghost use Rattle.std.specs.Prelude.{◌≡◌, ◌<◌, ◌≤◌, ◌++◌, true, length, take, drop, slice_index_or};
ghost use Rattle.selection_set.specs.declared.sel.Sel.{Sel};
ghost use Rattle.regex_select.specs.Searching.{on_the_way, first_or};
ghost use Rattle.regex_select.specs.Ways.{is_ahead_at, ArePassed};

use directions::Direction;
use selection_set::Sel;

/// How each selection of a list is searched from.
#[derive(Clone, Copy, PartialEq, Eq, Debug)]
pub struct Search {
    /// Where the match lies that is sought: the first one that begins behind the selection, or, backward, the last one that
    /// begins before it.
    pub direction: Direction,
    /// Whether the selection is stretched from its anchor to the match's last character; else it becomes the match.
    pub extend: bool,
}

/// Puts selections that are in the order of the text into that in which a search comes to them, and back.
pub(crate) fn order(list: &mut [Sel], direction: Direction)
    ensures { list.new ≡ on_the_way direction list.old }
{
    match direction {
        Direction::Forward => {}
        Direction::Backward => list.reverse(),
    }
}

// Whether a match is ahead of a selection.
fn is_ahead(direction: Direction, sel: Sel, found: Sel) -> bool
    ensures { result ≡ is_ahead_at direction sel found }
{
    match direction {
        Direction::Forward => !found.low.is_at_most(sel.high),
        Direction::Backward => !sel.low.is_at_most(found.low),
    }
}

/// The place of the first match that is ahead of a selection, or how many matches there are. It is sought from a place on
/// before which none is ahead, and costs the matches from there to the one that is found.
pub(crate) fn first_ahead(direction: Direction, sel: Sel, matches: &[Sel], from: usize) -> usize
    requires few { from ≤ length matches.now }
    requires passed { ArePassed direction sel (take from matches.now) }
    ensures few { result ≤ length matches.now }
    ensures passed { ArePassed direction sel (take result matches.now) }
    ensures ahead { (d : Sel) → result < length matches.now → is_ahead_at direction sel (slice_index_or matches.now result d) ≡ true }
{
    for n in from..matches.len() {
        if is_ahead(direction, sel, matches[n]) {
            return n;
        }
    }
    matches.len()
}

/// The match at a place, or the first one where none is there.
pub(crate) fn match_at(matches: &[Sel], n: usize) -> Sel
    requires { 0 < length matches.now }
    ensures { (d : Sel) → result ≡ first_or d (drop n matches.now ++ matches.now) }
{
    if n < matches.len() {
        return matches[n];
    }
    matches[0]
}
