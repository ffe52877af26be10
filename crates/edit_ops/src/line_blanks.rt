//! Blank characters at the start of lines.

ghost use Rattle.std.specs.Prelude.{◌≡◌, ◌^◌, ◌≤◌};
ghost use Rattle.kak_text.specs.Cells.{cells_of};
ghost use Rattle.compact_chars.specs.Rows.{chars_of};
ghost use Rattle.edit_ops.specs.Blanks.{is_blank, blanks, blanks_within};

use compact_chars::CharsRef;
use kak_text::{Class, cells, class};
use window_view::Tabstop;

/// How many blanks a line begins with.
pub(crate) fn blanks(line: CharsRef<'_>) -> usize
    ensures { result ≡ blanks (chars_of line.entry) }
{
    for i in 0..line.len() {
        if !is_blank(line.at(i)) {
            return i;
        }
    }
    line.len()
}

/// How many of the blanks that a line begins with end at a display column or before.
pub(crate) fn blanks_within(line: CharsRef<'_>, tabstop: Tabstop, most: u32) -> usize
    ensures { result ≡ blanks_within tabstop.columns most 0 (chars_of line.entry) }
{
    let mut column = 0;
    for i in 0..line.len() {
        let c = line.at(i);
        if !is_blank(c) {
            return i;
        }
        column += cells_at(c, column, tabstop);
        if u64::from(most) < column {
            return i;
        }
    }
    line.len()
}

// Whether a character is a tab or a space of any kind.
fn is_blank(c: char) -> bool
    ensures { result ≡ is_blank c }
{
    class(c).is(Class::Blank)
}

// How many cells a character takes that begins at a display column.
fn cells_at(c: char, column: u64, tabstop: Tabstop) -> u64
    ensures value { result ≡ cells_of c column tabstop.columns }
    ensures small { result ≤ 2 ^ 32 }
{
    if c != '\t' {
        return u64::from(cells(c, 0, 1));
    }
    let stop = u64::from(tabstop.columns);
    stop - column % stop
}
