//! Strings that are put at each selection.

ghost use Rattle.std.specs.Prelude.{◌≡◌, ◌+◌, ◌<◌, ◌↔◌, map, chars, if◌then◌else◌, IfOk, IsErrOf};
ghost use Rattle.text_model.specs.declared.TheConstants.{MAX_CHARS};
ghost use Rattle.text_model.specs.Texts.{IsPlace, IsPlaceOrEnd, offset, line_count, ends_in_newline};
ghost use Rattle.selection_set.specs.Inside.{IsInside, range_of};
ghost use Rattle.selection_set.specs.Listing.{ranges_of};
ghost use Rattle.selection_set.specs.Held.{IsHeld};
ghost use Rattle.buffer_store.specs.Buffers.{flat_splice, flat_splices, IsSpliceOf, AreSplicesOf};
ghost use Rattle.edit_ops.specs.Putting.{nth_string, some_is_line, line_begin_of, line_behind, put_over, put_at, puts};
ghost use Rattle.edit_ops.specs.Crowding.{put_together};

use crate::crowding::{PutError, are_crowded};
use crate::kinds::Put;
use crate::places::{behind, line_start, next_line};
use buffer_store::Splice;
use byte_texts::Words;
use kak_text::{Chars, Coord};
use line_buffer::Lines;
use selection_set::{Sel, Sels};
use std::alloc::{AllocError, Global};

/// The replacements that put the n-th string at the n-th selection, from the first to the last; selections beyond the
/// strings get the last one, and no characters where there are none. Before and behind selections, whole lines are put
/// where any of the strings ends in a newline. Where they would put in more than `MAX_CHARS` characters together, it is
/// found before any string is copied.
pub fn put(
    alloc: Global,
    lines: &Lines,
    sels: &Sels,
    strings: &Words,
    how: Put,
) -> Result<Vec<Splice>, PutError>
    requires { IsHeld lines.now sels.now }
    ensures puts { IfOk result (λ s. flat_splices lines.now s.items ≡ puts lines.now how (map (λ w. chars w) strings.now) (ranges_of lines.now sels.now.list)) }
    ensures splices { IfOk result (λ s. AreSplicesOf lines.now s.items) }
    ensures long { IsErrOf result PutError.TooLong ↔ (MAX_CHARS < put_together (puts lines.now how (map (λ w. chars w) strings.now) (ranges_of lines.now sels.now.list))) }
{
    if are_crowded(strings, sels.len()) {
        return Err(PutError::TooLong);
    }
    let strings = strings_of(alloc, strings)?;
    Ok(put_chars(alloc, lines, sels, strings.as_slice(), how)?)
}

// The strings as characters.
fn strings_of(alloc: Global, words: &Words) -> Result<Vec<Chars>, AllocError>
    ensures { IfOk result (λ s. s.items ≡ map (λ w. chars w) words.now) }
{
    let mut strings = Vec::with_capacity(alloc, words.len())?;
    for n in 0..words.len() {
        strings.push_reserved(Chars::from_str(alloc, words.get(n))?);
    }
    Ok(strings)
}

// The same for strings that are characters already.
fn put_chars(
    alloc: Global,
    lines: &Lines,
    sels: &Sels,
    strings: &[Chars],
    how: Put,
) -> Result<Vec<Splice>, AllocError>
    requires { IsHeld lines.now sels.now }
    ensures puts { IfOk result (λ s. flat_splices lines.now s.items ≡ puts lines.now how strings.now (ranges_of lines.now sels.now.list)) }
    ensures splices { IfOk result (λ s. AreSplicesOf lines.now s.items) }
{
    let whole = some_is_line(strings);
    let mut splices = Vec::with_capacity(alloc, sels.len())?;
    for n in 0..sels.len() {
        let text = nth_string(alloc, strings, n)?;
        splices.push_reserved(put_at(lines, whole, how, text, sels.at(n)));
    }
    Ok(splices)
}

// Whether some string ends in a newline.
fn some_is_line(strings: &[Chars]) -> bool
    ensures { result ≡ some_is_line strings.now }
{
    for string in strings {
        if is_line(string.as_slice()) {
            return true;
        }
    }
    false
}

/// Whether the last character is a newline.
pub(crate) fn is_line(chars: &[char]) -> bool
    ensures { result ≡ ends_in_newline chars.now }
{
    let count = chars.len();
    count > 0 && chars[count - 1] == '\n'
}

// A copy of the n-th string, or of the last one beyond them; no characters where there is none.
fn nth_string(alloc: Global, strings: &[Chars], n: usize) -> Result<Chars, AllocError>
    ensures { IfOk result (λ s. s ≡ nth_string strings.now n) }
{
    if strings.is_empty() {
        return Ok(Chars::new(alloc));
    }
    let last = strings.len() - 1;
    if n < last {
        return strings[n].copy(alloc);
    }
    strings[last].copy(alloc)
}

// Characters put at one selection.
fn put_at(lines: &Lines, whole: bool, how: Put, text: Chars, sel: Sel) -> Splice
    requires { IsInside lines.now sel }
    ensures puts { flat_splice lines.now result ≡ put_at lines.now whole how text (range_of lines.now sel) }
    ensures ends { IsSpliceOf lines.now result }
{
    match how {
        Put::Before => put_in_at(place_before(lines, whole, sel.low), text),
        Put::After => put_in_at(place_behind(lines, whole, sel.high), text),
        Put::Over => put_over(lines, text, sel),
        Put::BeforeCursor => put_in_at(sel.cursor(), text),
    }
}

/// Characters put in the place of a selection's.
pub(crate) fn put_over(lines: &Lines, text: Chars, sel: Sel) -> Splice
    requires { IsInside lines.now sel }
    ensures puts { flat_splice lines.now result ≡ put_over text (range_of lines.now sel) }
    ensures ends { IsSpliceOf lines.now result }
{
    Splice {
        from: sel.low,
        to: behind(lines, sel.high),
        text,
    }
}

/// Characters put in at a place.
pub(crate) fn put_in_at(at: Coord, text: Chars) -> Splice
    ensures { result ≡ record { from = at; «to» = at; text = text } }
{
    Splice {
        from: at,
        to: at,
        text,
    }
}

// A place, or where its line begins.
fn place_before(lines: &Lines, whole: bool, at: Coord) -> Coord
    requires { IsPlace lines.now at }
    ensures place { IsPlaceOrEnd lines.now result }
    ensures value { offset lines.now result ≡ (if whole then line_begin_of lines.now (offset lines.now at) else offset lines.now at) }
{
    if !whole {
        return at;
    }
    line_start(lines, at.line)
}

// What is behind a place, or where the line behind its line begins.
fn place_behind(lines: &Lines, whole: bool, at: Coord) -> Coord
    requires { IsPlace lines.now at }
    ensures place { IsPlaceOrEnd lines.now result }
    ensures value { offset lines.now result ≡ (if whole then line_behind lines.now (offset lines.now at) else offset lines.now at + 1) }
{
    if !whole {
        return behind(lines, at);
    }
    next_line(lines, at.line)
}
