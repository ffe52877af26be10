//! Stretches of a line, each in one face.

ghost use Rattle.std.specs.Prelude.{◌≡◌, ℕ, ◌+◌, ◌*◌, ◌^◌, ◌<◌, ◌≤◌, true, false, length, take, OnOk, IfOk};
ghost use Rattle.std.specs.List.{AllByRecursion};
ghost use Rattle.kak_text.specs.Cells.{cells_of};
ghost use Rattle.compact_chars.specs.Rows.{chars_of};
ghost use Rattle.window_view.specs.Views.{window_seen};
ghost use Rattle.line_painting.specs.Cells.{right_of, char_drawn};
ghost use Rattle.line_painting.specs.Laws.{IsPlainChar};
ghost use Rattle.line_painting.specs.Painting.{grown_by, with_stretch, IsColumnBehind};

use crate::cells::{char_drawn, right};
use crate::growing::Growing;
use crate::scene::WindowFrame;
use compact_chars::CharsRef;
use kak_faces::Face;
use kak_text::{MAX_TABSTOP, cells};
use std::alloc::AllocError;

// Whether a character is graphic ASCII, which has one cell and is drawn as itself also where signs are drawn.
fn is_graphic(c: char) -> bool
    ensures { result ≡ true → IsPlainChar true c }
{
    matches!(c, '!'..='~')
}

// Whether a character is graphic ASCII, a space or a newline, which are drawn as themselves where no signs are.
fn is_plain(c: char) -> bool
    ensures { result ≡ true → IsPlainChar false c }
{
    if matches!(c, ' '..='~') {
        return true;
    }
    c == '\n'
}

// Whether so far all were plain characters, where no signs are drawn, and a further one is too. No way branches by what was
// found, so that many can be looked at at once.
#[inline]
fn is_plain_too(plain: bool, c: char) -> bool
    ensures { result ≡ true → (plain ≡ true) × IsPlainChar false c }
{
    plain & is_plain(c)
}

// Whether all bytes are plain characters, where no signs are drawn. All of them are looked at, and many at once.
fn are_plain(bytes: &[u8]) -> bool
    ensures { result ≡ true → AllByRecursion (IsPlainChar false) bytes.now }
{
    let mut plain = true;
    for i in 0..bytes.len() {
        plain = is_plain_too(plain, bytes[i] as char);
    }
    plain
}

// How many of the first bytes are plain characters, where no signs are drawn.
fn plain_bytes(bytes: &[u8]) -> usize
    ensures few { result ≤ length bytes.now }
    ensures plain { AllByRecursion (IsPlainChar false) (take result bytes.now) }
{
    if are_plain(bytes) {
        return bytes.len();
    }
    for i in 0..bytes.len() {
        if !is_plain(bytes[i] as char) {
            return i;
        }
    }
    bytes.len()
}

// How many of the first characters are plain, where no signs are drawn.
fn plain_chars(chars: CharsRef<'_>) -> usize
    ensures few { result ≤ length (chars_of chars.entry) }
    ensures plain { AllByRecursion (IsPlainChar false) (take result (chars_of chars.entry)) }
{
    if let CharsRef::Narrow(bytes) = chars {
        return plain_bytes(bytes);
    }
    for i in 0..chars.len() {
        if !is_plain(chars.at(i)) {
            return i;
        }
    }
    chars.len()
}

// How many of the first characters are plain, where signs are drawn.
fn graphic_chars(chars: CharsRef<'_>) -> usize
    ensures few { result ≤ length (chars_of chars.entry) }
    ensures plain { AllByRecursion (IsPlainChar true) (take result (chars_of chars.entry)) }
{
    for i in 0..chars.len() {
        if !is_graphic(chars.at(i)) {
            return i;
        }
    }
    chars.len()
}

// How many of the first characters are plain.
fn plain_among(chars: CharsRef<'_>, signs: bool) -> usize
    ensures few { result ≤ length (chars_of chars.entry) }
    ensures plain { AllByRecursion (IsPlainChar signs) (take result (chars_of chars.entry)) }
{
    if signs {
        return graphic_chars(chars);
    }
    plain_chars(chars)
}

// How many of the first characters are plain ones inside the window, if the first begins at a display column.
fn plain_ahead(chars: CharsRef<'_>, frame: WindowFrame, column: u32) -> usize
    ensures few { result ≤ length (chars_of chars.entry) }
    ensures plain { AllByRecursion (IsPlainChar frame.signs) (take result (chars_of chars.entry)) }
    ensures left { 0 < result → frame.window.left ≤ column }
    ensures right { 0 < result → column + result ≤ right_of (window_seen frame.window) }
{
    if column < frame.window.left {
        return 0;
    }
    let room = u32::from(frame.window.columns).saturating_sub(column - frame.window.left);
    let end = chars.len().min(room as usize);
    plain_among(chars.between(0, end), frame.signs)
}

// Adds what a window shows of a character that begins at a display column: the column behind it.
fn push_one(
    atoms: &mut Growing,
    c: char,
    frame: WindowFrame,
    column: u32,
) -> Result<u32, AllocError>
    requires { column < 2 ^ 31 }
    ensures drawn { OnOk result (atoms.new
        ≡ grown_by atoms.old (char_drawn frame.signs (window_seen frame.window) column (cells_of c column frame.tabstop.columns) c)) }
    ensures column { IfOk result (λ behind. behind ≡ column + cells_of c column frame.tabstop.columns) }
    ensures small { IfOk result (λ behind. behind ≤ column + MAX_TABSTOP) }
{
    let width = cells(c, column, frame.tabstop.columns);
    atoms.push_drawn(char_drawn(frame.window, frame.signs, column, width, c))?;
    Ok(column + width)
}

/// Adds what a window shows of characters in one face, of which the first begins at a display column: the column behind
/// them. What stands right of the window isn't looked at, and then the column is one right of it too. An `Err` leaves
/// some of the atoms.
pub fn push_stretch(
    atoms: &mut Growing,
    chars: CharsRef<'_>,
    frame: WindowFrame,
    column: u32,
    face: Face,
) -> Result<u32, AllocError>
    requires { column + MAX_TABSTOP * length (chars_of chars) < 2 ^ 31 }
    ensures drawn { OnOk result (atoms.new.atoms
        ≡ with_stretch frame.tabstop.columns frame.signs (window_seen frame.window) atoms.old.atoms face column (chars_of chars.entry)) }
    ensures column { IfOk result (IsColumnBehind frame.tabstop.columns (window_seen frame.window) column (chars_of chars.entry)) }
    ensures small { IfOk result (λ behind. behind ≤ column + MAX_TABSTOP * length (chars_of chars.entry)) }
{
    if chars.is_empty() {
        return Ok(column);
    }
    atoms.set_face(face)?;
    let mut behind = column;
    let mut done = 0;
    while done < chars.len() {
        let to = done + plain_ahead(chars.behind(done), frame, behind);
        let next = behind + (to - done) as u32;
        atoms.push_chars(chars.between(done, to))?;
        if to >= chars.len() {
            return Ok(next);
        }
        if u64::from(next) >= right(frame.window) {
            return Ok(next);
        }
        behind = push_one(atoms, chars.at(to), frame, next)?;
        done = to + 1;
    }
    Ok(behind)
}
