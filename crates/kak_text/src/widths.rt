//! How many cells a character takes on the screen.

ghost use Rattle.std.specs.Prelude.{◌≡◌, ◌^◌, ◌<◌, ◌≤◌};
ghost use Rattle.kak_text.specs.Cells.{width_of, cells_of};

use unicode_width::UnicodeWidthChar;

/// The greatest distance of tab stops, in cells.
pub const MAX_TABSTOP: u32 = 64;

/// How many cells a character takes that begins at a display column, from 0, where a tab stop is at each multiple of
/// `tabstop`. A combining character takes none.
pub fn cells(c: char, column: u32, tabstop: u32) -> u32
    requires some { 1 ≤ tabstop }
    requires few { tabstop ≤ MAX_TABSTOP }
    requires column { column < 2 ^ 31 }
    ensures value { result ≡ cells_of c column tabstop }
    ensures small { result ≤ MAX_TABSTOP }
{
    if c == '\t' {
        return tabstop - column % tabstop;
    }
    width(c)
}

// The width of a character that is no tab. Printable ASCII, which most text is, needs no table.
fn width(c: char) -> u32
    ensures value { result ≡ width_of c }
    ensures small { result ≤ 3 }
{
    if matches!(c, ' '..='~') {
        return 1;
    }
    match c.width() {
        Some(width) => width as u32,
        None => 1,
    }
}
