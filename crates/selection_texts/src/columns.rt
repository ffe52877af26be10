//! Columns of a line, by characters and by what commands count.

ghost use Rattle.std.specs.Prelude.{◌≡◌, ◌+◌, ◌*◌, ◌<◌, ◌≤◌, length};
ghost use Rattle.compact_chars.specs.Rows.{chars_of};
ghost use Rattle.selection_texts.specs.Telling.{column_told};
ghost use Rattle.selection_texts.specs.Meaning.{column_meant};

use crate::bytes::{byte_column, char_column};
use command_forms::Columns;
use compact_chars::CharsRef;
use kak_text::MAX_CHARS;

/// The column, from 0, of the character at a column of a line, which is given by characters.
pub(crate) fn column_told(line: CharsRef<'_>, columns: Columns, column: u32) -> u32
    requires short { length (chars_of line) ≤ MAX_CHARS }
    requires inside { column < length (chars_of line) }
    ensures value { result ≡ column_told columns (chars_of line.entry) column }
    ensures small { result ≤ 4 * MAX_CHARS }
{
    match columns {
        Columns::Bytes => byte_column(line, column as usize) as u32,
        Columns::Characters => column,
    }
}

/// The column by characters of what a column, from 0, means in a line.
pub(crate) fn column_meant(line: CharsRef<'_>, columns: Columns, column: u32) -> u32
    requires short { length (chars_of line) ≤ MAX_CHARS }
    requires some { 0 < length (chars_of line) }
    ensures value { result ≡ column_meant columns (chars_of line.entry) column }
    ensures inside { result < length (chars_of line.entry) }
{
    match columns {
        Columns::Bytes => char_column(line, u64::from(column)) as u32,
        Columns::Characters => column.min((line.len() - 1) as u32),
    }
}
