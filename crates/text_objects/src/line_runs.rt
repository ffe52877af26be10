//! Going over the lines of a run.

ghost use Rattle.std.specs.Prelude.{◌≡◌, ◌<◌, ◌≤◌, length, Some};
ghost use Rattle.text_model.specs.Texts.{IsStored, line_count};
ghost use Rattle.compact_chars.specs.Rows.{chars_of};
ghost use Rattle.motion_keys.specs.Words.{EndsAre};
ghost use Rattle.text_objects.specs.Runs.{run_begin, run_end, chars_end};
ghost use Rattle.text_objects.specs.RunObjects.{is_blank};
ghost use Rattle.text_objects.specs.LineObjects.{is_full, indentation, lines_between};
ghost use Rattle.text_objects.specs.LineKinds.{is_line_of};

use crate::runs::{CharKind, is_char_of};
use compact_chars::CharsRef;
use kak_text::{Coord, MAX_CHARS};
use line_buffer::Lines;
use selection_set::Pair;
use window_view::{Tabstop, cell_of};

/// What a run is made of.
#[derive(Clone, Copy, PartialEq, Eq, Debug)]
pub(crate) enum LineKind {
    /// Lines that aren't empty.
    Full,
    /// Empty lines.
    Empty,
    /// Lines that are empty or indented at least so many columns.
    Indented(u32, Tabstop),
}

// How many blanks a line begins with.
fn leading_blanks(line: CharsRef<'_>) -> usize
    ensures value { result ≡ chars_end is_blank (chars_of line.entry) 0 }
    ensures inside { result ≤ length (chars_of line.entry) }
{
    for column in 0..line.len() {
        if !is_char_of(line.at(column), CharKind::Blank) {
            return column;
        }
    }
    line.len()
}

/// The display column of the first character of a line that is no blank.
pub(crate) fn indentation(line: CharsRef<'_>, tabstop: Tabstop) -> u32
    requires short { length (chars_of line) ≤ MAX_CHARS }
    ensures { result ≡ indentation (chars_of line.entry) tabstop.columns }
{
    cell_of(line, leading_blanks(line), tabstop)
}

/// Whether a line has a character before its newline.
pub(crate) fn is_full(lines: &Lines, n: usize) -> bool
    requires { n < line_count lines.now }
    ensures { result ≡ is_full lines.now n }
{
    1 < lines.line(n).len()
}

// Whether a line is of a kind.
fn is_line_of(lines: &Lines, n: usize, kind: LineKind) -> bool
    requires there { n < line_count lines.now }
    ensures { result ≡ is_line_of kind lines.now n }
{
    match kind {
        LineKind::Full => is_full(lines, n),
        LineKind::Empty => !is_full(lines, n),
        LineKind::Indented(least, tabstop) => {
            !is_full(lines, n) || least <= indentation(lines.line(n), tabstop)
        }
    }
}

/// The first of the lines of a kind that stand right before a line; that line itself where there are none.
pub(crate) fn first_line(lines: &Lines, from: usize, kind: LineKind) -> usize
    requires there { from ≤ line_count lines.now }
    ensures value { result ≡ run_begin (is_line_of kind lines.now) from }
    ensures before { result ≤ from }
{
    let mut n = from;
    while n > 0 {
        if !is_line_of(lines, n - 1, kind) {
            return n;
        }
        n -= 1;
    }
    n
}

/// The line behind those of a kind that begin at a line; that line itself where there are none.
pub(crate) fn line_behind(lines: &Lines, from: usize, kind: LineKind) -> usize
    requires there { from ≤ line_count lines.now }
    ensures value { result ≡ run_end (is_line_of kind lines.now) from (line_count lines.now) }
    ensures behind { from ≤ result }
    ensures there { result ≤ line_count lines.now }
    ensures few { result ≤ MAX_CHARS }
    ensures stored { IsStored lines.now }
{
    let count = lines.line_count();
    let mut n = from;
    while n < count {
        if !is_line_of(lines, n, kind) {
            return n;
        }
        n += 1;
    }
    n
}

/// The lines from one on to before another.
pub(crate) fn whole_lines(lines: &Lines, from: usize, to: usize) -> Pair
    requires ordered { from < to }
    requires there { to ≤ line_count lines.now }
    requires few { to ≤ MAX_CHARS }
    requires stored { IsStored lines.now }
    ensures { EndsAre lines.now (Some result) (Some (lines_between lines.now from to)) }
{
    let anchor = Coord {
        line: from as u32,
        column: 0,
    };
    let cursor = lines.line_end((to - 1) as u32);
    Pair { anchor, cursor }
}
