//! Texts of selections that change places.

ghost use Rattle.std.specs.Prelude.{◌≡◌, ◌<◌, length, IfOk};
ghost use Rattle.selection_set.specs.Listing.{ranges_of};
ghost use Rattle.selection_set.specs.Held.{IsHeld};
ghost use Rattle.buffer_store.specs.Buffers.{flat_splices, AreSplicesOf};
ghost use Rattle.edit_ops.specs.Rotating.{rotated, put_over_each, rotations};

use crate::putting::put_over;
use crate::reading::texts;
use buffer_store::Splice;
use directions::Direction;
use kak_text::Chars;
use line_buffer::Lines;
use selection_set::Sels;
use std::alloc::{AllocError, Global};

/// The replacements by which each text goes to the selection behind its own, and the last one to the first, or, backward, to
/// the selection before its own, and the first one to the last; one for each, from the first to the last. Each text is
/// copied once.
pub fn rotate(
    alloc: Global,
    lines: &Lines,
    sels: &Sels,
    direction: Direction,
) -> Result<Vec<Splice>, AllocError>
    requires { IsHeld lines.now sels.now }
    ensures rotations { IfOk result (λ s. flat_splices lines.now s.items ≡ rotations lines.now direction (ranges_of lines.now sels.now.list)) }
    ensures splices { IfOk result (λ s. AreSplicesOf lines.now s.items) }
{
    let texts = rotated(texts(alloc, lines, sels)?, direction);
    put_over_each(alloc, lines, sels, texts)
}

// Texts that each went one place, round the ends.
fn rotated(texts: Vec<Chars>, direction: Direction) -> Vec<Chars>
    requires { 0 < length texts.items }
    ensures { result.items ≡ rotated direction texts.items }
{
    let mut texts = texts;
    match direction {
        Direction::Forward => texts.rotate_right(1),
        Direction::Backward => texts.rotate_left(1),
    }
    texts
}

// The n-th text put in the place of the n-th selection's.
fn put_over_each(
    alloc: Global,
    lines: &Lines,
    sels: &Sels,
    texts: Vec<Chars>,
) -> Result<Vec<Splice>, AllocError>
    requires held { IsHeld lines.now sels.now }
    requires one_each { length texts.items ≡ length sels.now.list }
    ensures puts { IfOk result (λ s. flat_splices lines.now s.items ≡ put_over_each texts.items (ranges_of lines.now sels.now.list)) }
    ensures splices { IfOk result (λ s. AreSplicesOf lines.now s.items) }
{
    let mut splices = Vec::with_capacity(alloc, sels.len())?;
    for text in texts {
        let sel = sels.at(splices.len());
        splices.push_reserved(put_over(lines, text, sel));
    }
    Ok(splices)
}
