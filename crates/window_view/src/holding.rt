//! The cells of the characters of a line.

ghost use Rattle.std.specs.Prelude.{◌≡◌, ◌*◌, ◌≤◌, ℕ, length, IfSome, IsNone};
ghost use Rattle.kak_text.specs.Cells.{display_column};
ghost use Rattle.compact_chars.specs.Rows.{chars_of};
ghost use Rattle.window_view.specs.Holding.{HoldsCell};

use crate::tabstop::Tabstop;
use compact_chars::CharsRef;
use kak_text::{MAX_CHARS, MAX_TABSTOP, cells};

/// The display column at which a character of a line begins, from 0; for the length of the line, where it ends.
pub fn cell_of(line: CharsRef<'_>, column: usize, tabstop: Tabstop) -> u32
    requires short { length (chars_of line) ≤ MAX_CHARS }
    requires inside { column ≤ length (chars_of line) }
    ensures value { result ≡ display_column (chars_of line.entry) column tabstop.columns }
    ensures small { result ≤ MAX_TABSTOP * column }
{
    let mut at = 0;
    for i in 0..column {
        at += cells(line.at(i), at, tabstop.columns);
    }
    at
}

/// The column of the character that holds a cell of a line, from 0. None where no character holds it: the line ends
/// before.
pub fn offset_at(line: CharsRef<'_>, cell: u32, tabstop: Tabstop) -> Option<usize>
    requires short { length (chars_of line) ≤ MAX_CHARS }
    ensures holds { IfSome result (λ n. HoldsCell (chars_of line.entry) tabstop.columns n cell) }
    ensures none { IsNone result → (n : ℕ) → ¬ HoldsCell (chars_of line.entry) tabstop.columns n cell }
{
    let mut at = 0;
    for i in 0..line.len() {
        let end = at + cells(line.at(i), at, tabstop.columns);
        if cell < end {
            return Some(i);
        }
        at = end;
    }
    None
}
