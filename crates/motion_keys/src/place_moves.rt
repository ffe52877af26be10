//! Moves to places that have a name.

ghost use Rattle.std.specs.Prelude.{◌≡◌, ◌<◌, None, Some, IfSome, option_map};
ghost use Rattle.text_model.specs.Texts.{offset, line_count, IsPlace};
ghost use Rattle.list_model.specs.Ranges.{cursor};
ghost use Rattle.selection_set.specs.Inside.{range_of, IsInside};
ghost use Rattle.window_view.specs.Views.{window_seen};
ghost use Rattle.motion_keys.specs.Places.{OffsetsAre};
ghost use Rattle.motion_keys.specs.Jumps.{RangesAre};
ghost use Rattle.motion_keys.specs.Landmarks.{line_start, line_last, first_no_blank, landmark, line_part};

use crate::landmarks::{LinePart, Place};
use kak_text::{Class, Coord, class};
use line_buffer::Lines;
use selection_set::{Pair, Sel};
use window_view::Window;

// The first character of a line, or of the last line where there is no such line.
fn find_start(lines: &Lines, n: usize) -> Coord
    ensures place { IsPlace lines.now result }
    ensures value { offset lines.now result ≡ line_start lines.now n }
{
    let last = lines.line_count() - 1;
    let line = n.min(last);
    Coord {
        line: line as u32,
        column: 0,
    }
}

// The last character of a line before its newline, or the newline of an empty line.
fn find_end(lines: &Lines, n: u32) -> Coord
    requires { n < line_count lines.now }
    ensures place { IsPlace lines.now result }
    ensures value { offset lines.now result ≡ line_last lines.now n }
{
    let size = lines.line(n as usize).len();
    Coord {
        line: n,
        column: size.saturating_sub(2) as u32,
    }
}

// The first character of a line that is no blank.
fn find_text(lines: &Lines, n: u32) -> Option<Coord>
    requires { n < line_count lines.now }
    ensures gives { OffsetsAre lines.now result (first_no_blank lines.now n) }
{
    let line = lines.line(n as usize);
    for column in 0..line.len() {
        if !class(line.at(column)).is(Class::Blank) {
            return Some(Coord {
                line: n,
                column: column as u32,
            });
        }
    }
    None
}

/// The place with a name, for a cursor and a window.
pub(crate) fn find_place(lines: &Lines, at: Coord, window: &Window, target: Place) -> Option<Coord>
    requires { IsPlace lines.now at }
    ensures gives { OffsetsAre lines.now result (landmark lines.now (offset lines.now at) (window_seen window.now) target) }
{
    let top = window.top as usize;
    let rows = window.rows as usize;
    match target {
        Place::First => Some(find_start(lines, 0)),
        Place::LastLine => Some(find_start(lines, lines.line_count() - 1)),
        Place::Last => Some(lines.last_place()),
        Place::LineStart => Some(find_start(lines, at.line as usize)),
        Place::LineEnd => Some(find_end(lines, at.line)),
        Place::NonBlank => find_text(lines, at.line),
        Place::WindowTop => Some(find_start(lines, top)),
        Place::WindowMiddle => Some(find_start(lines, top + rows / 2)),
        Place::WindowBottom => Some(find_start(lines, (top + rows).saturating_sub(1))),
        Place::Line(n) => Some(find_start(lines, n as usize)),
    }
}

/// The character at a place that has a name.
pub fn place(lines: &Lines, sel: &Sel, window: &Window, target: Place) -> Option<Pair>
    requires { IsInside lines.now sel.now }
    ensures gives { OffsetsAre lines.now (option_map (λ pair. pair.cursor) result)
        (landmark lines.now (cursor (range_of lines.now sel.now)) (window_seen window.now) target) }
    ensures one { IfSome result (λ pair. pair.anchor ≡ pair.cursor) }
{
    match find_place(lines, sel.cursor(), window, target) {
        None => None,
        Some(found) => Some(Pair {
            anchor: found,
            cursor: found,
        }),
    }
}

/// From the cursor to its line's first character, or to the last one before the newline, where the line has one. The
/// cursor moves even back to it, from the newline.
pub(crate) fn part_between(lines: &Lines, sel: Sel, part: LinePart) -> Pair
    requires { IsInside lines.now sel }
    ensures { RangesAre lines.now (Some result) (Some (line_part lines.now (range_of lines.now sel) part)) }
{
    let anchor = sel.cursor();
    let cursor = match part {
        LinePart::ToStart => find_start(lines, anchor.line as usize),
        LinePart::ToEnd => find_end(lines, anchor.line),
    };
    Pair { anchor, cursor }
}
