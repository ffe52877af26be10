//! The places of a line by characters, and by the bytes of its UTF-8 form.

ghost use Rattle.std.specs.Prelude.{◌≡◌, ◌+◌, ◌*◌, ◌<◌, ◌≤◌, length};
ghost use Rattle.kak_text.specs.Bytes.{bytes_before};
ghost use Rattle.compact_chars.specs.Rows.{chars_of};

use compact_chars::CharsRef;
use text_model::MAX_CHARS;

/// How many bytes of UTF-8 the characters take that stand before a column, from 0 to the length.
pub(crate) fn byte_column(line: CharsRef<'_>, column: usize) -> u64
    requires short { length (chars_of line) ≤ MAX_CHARS }
    requires inside { column ≤ length (chars_of line) }
    ensures { result ≡ bytes_before (chars_of line.entry) column }
{
    let mut bytes = 0;
    for i in 0..column {
        bytes += line.at(i).len_utf8() as u64;
    }
    bytes
}

/// The column of the character that holds a byte of UTF-8, from 0; where the line has no such byte, its last character.
pub(crate) fn char_column(line: CharsRef<'_>, byte: u64) -> usize
    requires short { length (chars_of line) ≤ MAX_CHARS }
    requires some { 0 < length (chars_of line) }
    ensures there { result < length (chars_of line.entry) }
    ensures begins { bytes_before (chars_of line.entry) result ≤ byte }
    ensures ends { result + 1 < length (chars_of line.entry) → byte < bytes_before (chars_of line.entry) (result + 1) }
{
    let mut end = 0;
    for i in 0..line.len() {
        end += line.at(i).len_utf8() as u64;
        if byte < end {
            return i;
        }
    }
    line.len() - 1
}
