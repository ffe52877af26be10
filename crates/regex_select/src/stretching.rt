//! Selections taken to the matches that are sought from them.

ghost use Rattle.std.specs.Prelude.{◌≡◌, ◌<◌, length, map};
ghost use Rattle.regex_select.specs.Searching.{on_the_way};
ghost use Rattle.regex_select.specs.Ways.{GoesAhead, reached_at, searched_at};

use crate::way::{Search, first_ahead, match_at, order};
use selection_set::{Pair, Sel};

/// The match that was found from a selection, or the selection stretched to its last character.
pub(crate) fn reached(sel: Sel, found: Sel, extend: bool) -> Sel
    ensures { result ≡ reached_at extend sel found }
{
    if extend {
        return Sel::of_pair(Pair {
            anchor: sel.anchor(),
            cursor: found.high,
        });
    }
    found
}

// Makes of each selection what a search makes of it, where the selections too are in the order of its way.
fn search_on(list: &mut [Sel], matches: &[Sel], search: Search)
    requires some { 0 < length matches.now }
    requires order { GoesAhead search.direction list.old }
    ensures { list.new ≡ map (searched_at search matches.now) list.old }
{
    let mut passed = 0;
    for n in 0..list.len() {
        let sel = list[n];
        passed = first_ahead(search.direction, sel, matches, passed);
        list[n] = reached(sel, match_at(matches, passed), search.extend);
    }
}

/// Makes of each selection what a search makes of it, where the matches are in the order of its way. It goes over the
/// selections and over the matches once.
pub(crate) fn search_each(list: &mut [Sel], matches: &[Sel], search: Search)
    requires some { 0 < length matches.now }
    requires order { GoesAhead search.direction (on_the_way search.direction list.old) }
    ensures { list.new ≡ map (searched_at search matches.now) list.old }
{
    order(list, search.direction);
    search_on(list, matches, search);
    order(list, search.direction);
}
