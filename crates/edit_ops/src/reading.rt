//! The texts of selections.

ghost use Rattle.std.specs.Prelude.{◌≡◌, map, string_bytes, encode_utf8_all, IfOk};
ghost use Rattle.selection_set.specs.Inside.{IsInside, range_of};
ghost use Rattle.selection_set.specs.Listing.{ranges_of};
ghost use Rattle.selection_set.specs.Held.{IsHeld};
ghost use Rattle.edit_ops.specs.Reading.{text_of_range, texts_of};

use crate::places::behind;
use byte_texts::Words;
use kak_text::Chars;
use line_buffer::Lines;
use selection_set::{Sel, Sels};
use std::alloc::{AllocError, Global};

/// The texts of selections, from the first to the last. It costs what it gives.
pub fn texts(alloc: Global, lines: &Lines, sels: &Sels) -> Result<Vec<Chars>, AllocError>
    requires { IsHeld lines.now sels.now }
    ensures { IfOk result (λ t. t.items ≡ texts_of lines.now (ranges_of lines.now sels.now.list)) }
{
    let mut texts = Vec::with_capacity(alloc, sels.len())?;
    for sel in sels.as_slice() {
        texts.push_reserved(text_of(alloc, lines, *sel)?);
    }
    Ok(texts)
}

/// The texts of selections as strings, from the first to the last. It costs what it gives.
pub fn strings(alloc: Global, lines: &Lines, sels: &Sels) -> Result<Words, AllocError>
    requires { IsHeld lines.now sels.now }
    ensures { IfOk result (λ w. w ≡ map (λ s. encode_utf8_all s) (texts_of lines.now (ranges_of lines.now sels.now.list))) }
{
    let mut strings = Vec::with_capacity(alloc, sels.len())?;
    for sel in sels.as_slice() {
        strings.push_reserved(string_of(alloc, lines, *sel)?);
    }
    Ok(Words::of_vec(strings))
}

/// The text of one selection.
pub fn text_of(alloc: Global, lines: &Lines, sel: Sel) -> Result<Chars, AllocError>
    requires { IsInside lines.now sel }
    ensures { IfOk result (λ t. t ≡ text_of_range lines.now (range_of lines.now sel)) }
{
    let end = behind(lines, sel.high);
    Ok(Chars::of_vec(lines.chars(alloc, sel.low, end)?))
}

// The same as a string.
fn string_of(alloc: Global, lines: &Lines, sel: Sel) -> Result<String, AllocError>
    requires { IsInside lines.now sel }
    ensures { IfOk result (λ s. string_bytes s ≡ encode_utf8_all (text_of_range lines.now (range_of lines.now sel))) }
{
    let end = behind(lines, sel.high);
    lines.slice(alloc, sel.low, end)
}
