//! Moves by one character and by lines.

ghost use Rattle.std.specs.Prelude.{◌≡◌, ◌<◌, ◌≤◌, None, Some, IsNone, IfSome, option_map, length};
ghost use Rattle.text_model.specs.Texts.{line_count, offset, IsPlace};
ghost use Rattle.selection_set.specs.Inside.{range_of, IsInside};
ghost use Rattle.compact_chars.specs.Rows.{chars_of};
ghost use Rattle.directions.specs.Directions.{direction_of};
ghost use Rattle.motion_keys.specs.Motions.{line_by, landing, aim, landed, vertical, stepped};
ghost use Rattle.motion_keys.specs.Places.{OffsetsAre};

use crate::searching::beside_place;
use compact_chars::CharsRef;
use directions::Direction;
use kak_text::{Coord, MAX_CHARS};
use line_buffer::Lines;
use selection_set::{Pair, Sel};
use window_view::{Tabstop, cell_of, offset_at};

/// The character after the cursor, or before it. None at the end of the text, or at its start.
pub fn step(lines: &Lines, sel: &Sel, forward: bool) -> Option<Pair>
    requires { IsInside lines.now sel.now }
    ensures gives { OffsetsAre lines.now (option_map (λ pair. pair.cursor) result) (stepped lines.now (range_of lines.now sel.now) (direction_of forward)) }
    ensures one { IfSome result (λ pair. pair.anchor ≡ pair.cursor) }
{
    match beside_place(lines, sel.cursor(), Direction::of(forward)) {
        None => None,
        Some(place) => Some(Pair {
            anchor: place,
            cursor: place,
        }),
    }
}

// The line some lines below a line, or above it, among so many.
fn line_by(count: usize, line: u32, by: i64) -> Option<u32>
    requires there { line < count }
    requires few { count ≤ MAX_CHARS }
    ensures gives { result ≡ line_by count line by }
    ensures there { IfSome result (λ n. n < count) }
{
    if by == 0 {
        return Some(line);
    }
    let line = u64::from(line);
    let steps = by.unsigned_abs();
    if by < 0 {
        if line == 0 {
            return None;
        }
        return Some(line.saturating_sub(steps) as u32);
    }
    let last = count as u64 - 1;
    if line == last {
        return None;
    }
    Some(line.saturating_add(steps).min(last) as u32)
}

// The display column that a vertical move aims at.
fn aim(lines: &Lines, sel: &Sel, tabstop: Tabstop) -> u32
    requires inside { IsInside lines.now sel.now }
    ensures { result ≡ aim lines.now (range_of lines.now sel.now) tabstop.columns }
{
    match sel.target {
        Some(target) => target,
        None => {
            let at = sel.cursor();
            cell_of(lines.line(at.line as usize), at.column as usize, tabstop)
        }
    }
}

// The column of a line at which a vertical move arrives.
fn landing_column(line: CharsRef<'_>, target: u32, tabstop: Tabstop) -> usize
    requires line { 0 < length (chars_of line) }
    requires short { length (chars_of line) ≤ MAX_CHARS }
    ensures gives { result ≡ landing (chars_of line.entry) target tabstop.columns }
    ensures inside { result < length (chars_of line.entry) }
{
    match offset_at(line, target, tabstop) {
        Some(column) => column,
        None => line.len().saturating_sub(2),
    }
}

// The character of a line at which a vertical move arrives, with the target.
fn land(lines: &Lines, target: u32, line: u32, tabstop: Tabstop) -> Sel
    requires there { line < line_count lines.now }
    ensures inside { IsInside lines.now result }
    ensures lands { range_of lines.now result ≡ landed lines.now target tabstop.columns line }
{
    let column = landing_column(lines.line(line as usize), target, tabstop) as u32;
    let place = Coord { line, column };
    Sel {
        low: place,
        high: place,
        turned: false,
        target: Some(target),
    }
}

/// The selection `by` lines below the cursor, or above it for a number below 0; at most on the last or the first line,
/// and for 0 on the cursor's own. It is the character that holds the target's cell, which is the selection's target or
/// else the display column of the cursor, with a tab stop at each `tabstop` columns. Beyond the line, it is the last
/// character before the newline, or the newline of an empty line. None from the last line down, and from the first line
/// up.
pub fn vertical(lines: &Lines, sel: &Sel, by: i64, tabstop: Tabstop) -> Option<Sel>
    requires inside { IsInside lines.now sel.now }
    ensures none { IsNone result → vertical lines.now (range_of lines.now sel.now) by tabstop.columns ≡ None }
    ensures some { IfSome result (λ s. vertical lines.now (range_of lines.now sel.now) by tabstop.columns ≡ Some (range_of lines.now s)) }
    ensures inside { IfSome result (λ s. IsInside lines.now s) }
{
    let target = aim(lines, sel, tabstop);
    match line_by(lines.line_count(), sel.cursor().line, by) {
        None => None,
        Some(line) => Some(land(lines, target, line, tabstop)),
    }
}
