//! The match that is found from a selection, by halves among all matches of a text.

ghost use Rattle.std.specs.Prelude.{◌≡◌, ◌<◌, ◌≤◌, ◌-◌, ℕ, List, true, false, length, slice_index_or};
ghost use Rattle.selection_set.specs.declared.sel.Sel.{Sel};
ghost use Rattle.selection_set.specs.Inside.{range_of, IsInside};
ghost use Rattle.regex_select.specs.Known.{stands_before, AreAllMatches};
ghost use Rattle.regex_select.specs.Searching.{all_matches, sought};

use crate::way::match_at;
use directions::Direction;
use selection_set::Sel;

// Whether a match stands before the place at which a search from a selection parts the matches.
fn stands_before(direction: Direction, sel: Sel, found: Sel) -> bool
    ensures { result ≡ stands_before direction sel found }
{
    match direction {
        Direction::Forward => found.low.is_at_most(sel.high),
        Direction::Backward => !sel.low.is_at_most(found.low),
    }
}

// A place that parts some matches: the one before it stands before, and the one at it doesn't. It is sought by halves.
fn parting(direction: Direction, sel: Sel, matches: &[Sel]) -> usize
    ensures few { result ≤ length matches.now }
    ensures before { 0 < result → (d : Sel) → stands_before direction sel (slice_index_or matches.now (result - 1) d) ≡ true }
    ensures behind { result < length matches.now → (d : Sel) → stands_before direction sel (slice_index_or matches.now result d) ≡ false }
{
    let mut low = 0;
    let mut high = matches.len();
    while low < high {
        let middle = low + (high - low) / 2;
        if stands_before(direction, sel, matches[middle]) {
            low = middle + 1;
            continue;
        }
        high = middle;
    }
    low
}

// The match before a place, or the last one where none is there.
fn match_before(matches: &[Sel], n: usize) -> Sel
    requires some { 0 < length matches.now }
    requires few { n ≤ length matches.now }
    ensures before { 0 < n → (d : Sel) → result ≡ slice_index_or matches.now (n - 1) d }
    ensures last { n ≡ 0 → (d : Sel) → result ≡ slice_index_or matches.now (length matches.now - 1) d }
{
    if n == 0 {
        return matches[matches.len() - 1];
    }
    matches[n - 1]
}

/// The match that is found from a selection, where these are all matches of a pattern in a text. It looks at as many of them
/// as they can be halved.
pub(crate) fn sought_among(direction: Direction, sel: Sel, matches: &[Sel]) -> Sel
    requires { 0 < length matches.now }
    ensures inside { (source text : List ℕ) → IsInside text sel → AreAllMatches source text matches.now → IsInside text result }
    ensures seeks { (source text : List ℕ) → IsInside text sel → AreAllMatches source text matches.now
        → range_of text result ≡ sought direction (all_matches source text) (range_of text sel) }
{
    let n = parting(direction, sel, matches);
    match direction {
        Direction::Forward => match_at(matches, n),
        Direction::Backward => match_before(matches, n),
    }
}
