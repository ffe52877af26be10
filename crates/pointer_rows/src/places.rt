//! Which character of a text a place of a window means.

ghost use Rattle.std.specs.Prelude.{◌≡◌, ◌+◌, ◌-◌, ◌<◌, ◌≤◌, min, length};
ghost use Rattle.text_model.specs.Texts.{offset, line_count, IsPlace};
ghost use Rattle.compact_chars.specs.Rows.{chars_of};
ghost use Rattle.window_view.specs.Views.{window_seen};
ghost use Rattle.pointer_rows.specs.Places.{cell_shown, column_holding, offset_shown};

use compact_chars::CharsRef;
use kak_text::{Coord, MAX_CHARS};
use line_buffer::Lines;
use window_view::{Tabstop, Window, cell_of, offset_at};

// The line that lies so many below another one, or the last one of so many.
fn line_below(count: usize, top: u32, line: u32) -> u32
    requires some { 0 < count }
    requires few { count ≤ MAX_CHARS }
    ensures value { result ≡ min (top + line) (count - 1) }
    ensures there { result < count }
{
    let last = count as u64 - 1;
    (u64::from(top) + u64::from(line)).min(last) as u32
}

// The cell of a line that a column of a window shows, where so many cells stand before the text.
fn cell_shown(window: &Window, gutter: u32, column: u32) -> u64
    ensures { result ≡ cell_shown (window_seen window.now) gutter column }
{
    let left = u64::from(window.left);
    if column < gutter {
        return left;
    }
    left + u64::from(column - gutter)
}

// The column of the newline of a line, which ends before any cell whose number has more than 32 bits.
fn newline_behind(line: CharsRef<'_>, cell: u64, tabstop: Tabstop) -> usize
    requires line { 0 < length (chars_of line) }
    requires short { length (chars_of line) ≤ MAX_CHARS }
    requires far { 4294967296 ≤ cell }
    ensures gives { result ≡ column_holding (chars_of line.entry) cell tabstop.columns }
    ensures inside { result < length (chars_of line.entry) }
{
    let _end = cell_of(line, line.len(), tabstop);
    line.len() - 1
}

// The column of the character of a line that holds a cell, or of its newline where none holds it.
fn column_holding(line: CharsRef<'_>, cell: u64, tabstop: Tabstop) -> usize
    requires line { 0 < length (chars_of line) }
    requires short { length (chars_of line) ≤ MAX_CHARS }
    ensures gives { result ≡ column_holding (chars_of line.entry) cell tabstop.columns }
    ensures inside { result < length (chars_of line.entry) }
{
    if cell > u64::from(u32::MAX) {
        return newline_behind(line, cell, tabstop);
    }
    match offset_at(line, cell as u32, tabstop) {
        Some(column) => column,
        None => line.len() - 1,
    }
}

/// The character of a text at a place of a window, where so many cells stand before the text. A line below the text means its
/// last one, a column of the cells before the text the first one behind them, and a column behind a line its newline. It costs
/// the line up to that cell.
pub(crate) fn coord_shown(
    lines: &Lines,
    window: &Window,
    gutter: u32,
    tabstop: Tabstop,
    at: Coord,
) -> Coord
    ensures place { IsPlace lines.now result }
    ensures value { offset lines.now result ≡ offset_shown lines.now (window_seen window.now) gutter tabstop.columns at }
{
    let line = line_below(lines.line_count(), window.top, at.line);
    let cell = cell_shown(window, gutter, at.column);
    let column = column_holding(lines.line(line as usize), cell, tabstop) as u32;
    Coord { line, column }
}
