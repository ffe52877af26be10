//! Lists of which the main selection alone is kept.

ghost use Rattle.std.specs.Prelude.{◌≡◌, ◌≢◌, ℕ, ◌<◌, true, false, List, Some, IsNone, IfSome};
ghost use Rattle.text_model.specs.Texts.{offset, line_count, IsPlace};
ghost use Rattle.list_model.specs.Ranges.{anchor};
ghost use Rattle.selection_set.specs.Inside.{range_of, IsInside};
ghost use Rattle.selection_set.specs.Listing.{range_between};
ghost use Rattle.selection_set.specs.Held.{selected, IsHeld, main_of};
ghost use Rattle.window_view.specs.Views.{window_seen};
ghost use Rattle.motion_keys.specs.Motions.{line_by};
ghost use Rattle.pointer_rows.specs.Windows.{shows_line};
ghost use Rattle.pointer_rows.specs.Lists.{main_line, brought_in};

use crate::windows::{nearest_shown, shows_line};
use kak_text::Coord;
use line_buffer::Lines;
use motion_keys::vertical;
use selection_set::{Pair, Sel, Sels};
use std::alloc::Global;
use window_view::{Tabstop, Window};

/// The main selection, which goes from its anchor to a character from now on.
pub(crate) fn extended(sels: &Sels, place: Coord) -> Sel
    ensures inside { (text : List ℕ) → IsHeld text sels.now → IsPlace text place → IsInside text result }
    ensures extends { (text : List ℕ) → IsHeld text sels.now → IsPlace text place → range_of text result ≡ range_between (anchor (main_of (selected text sels.now))) (offset text place) }
{
    Sel::of_pair(Pair {
        anchor: sels.at(sels.main()).anchor(),
        cursor: place,
    })
}

// How many lines down, or up, one line lies from another.
fn lines_to(from: u32, to: u32) -> i64
    ensures { (count : ℕ) → from < count → to < count → from ≢ to → line_by count from result ≡ Some to }
{
    if from < to {
        return i64::from(to - from);
    }
    -i64::from(from - to)
}

/// The list of a client whose window doesn't show its main cursor's line: where a vertical move of the main selection arrives
/// on the nearest line that the window shows. None where the window shows it.
pub(crate) fn brought_in(
    alloc: Global,
    lines: &Lines,
    window: &Window,
    tabstop: Tabstop,
    sels: &Sels,
) -> Option<Sels>
    requires held { IsHeld lines.now sels.now }
    requires top { window.now.top < line_count lines.now }
    ensures held { IfSome result (λ s. IsHeld lines.now s) }
    ensures stays { IsNone result → shows_line (window_seen window.now) (main_line lines.now (selected lines.now sels.now)) ≡ true }
    ensures leaves { IfSome result (λ s. shows_line (window_seen window.now) (main_line lines.now (selected lines.now sels.now)) ≡ false) }
    ensures brings { IfSome result (λ s. selected lines.now s ≡ brought_in lines.now (window_seen window.now) tabstop.columns (selected lines.now sels.now)) }
{
    let main = sels.at(sels.main());
    let line = main.cursor().line;
    if shows_line(window, line) {
        return None;
    }
    let to = nearest_shown(lines.line_count(), window, line);
    match vertical(lines, &main, lines_to(line, to), tabstop) {
        Some(sel) => Some(Sels::one(alloc, sel)),
        None => unreachable!(),
    }
}
