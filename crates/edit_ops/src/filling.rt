//! Selections that are filled with one character.

ghost use Rattle.std.specs.Prelude.{◌≡◌, length, replicate, IfOk};
ghost use Rattle.selection_set.specs.Inside.{IsInside, range_of};
ghost use Rattle.selection_set.specs.Listing.{ranges_of};
ghost use Rattle.selection_set.specs.Held.{IsHeld};
ghost use Rattle.buffer_store.specs.Buffers.{flat_splice, flat_splices, IsSpliceOf, AreSplicesOf};
ghost use Rattle.edit_ops.specs.Filling.{filling_at, fillings};

use crate::putting::put_over;
use crate::reading::text_of;
use buffer_store::Splice;
use kak_text::Chars;
use line_buffer::Lines;
use selection_set::{Sel, Sels};
use std::alloc::{AllocError, Global};

/// The replacements that put a character in the place of each character of the selections, one for each selection, from the
/// first to the last.
pub fn fill(alloc: Global, lines: &Lines, sels: &Sels, c: char) -> Result<Vec<Splice>, AllocError>
    requires { IsHeld lines.now sels.now }
    ensures fills { IfOk result (λ s. flat_splices lines.now s.items ≡ fillings c (ranges_of lines.now sels.now.list)) }
    ensures splices { IfOk result (λ s. AreSplicesOf lines.now s.items) }
{
    let mut splices = Vec::with_capacity(alloc, sels.len())?;
    for sel in sels.as_slice() {
        let text = text_of(alloc, lines, *sel)?;
        let filled = Chars::repeated(alloc, c, text.len())?;
        splices.push_reserved(put_over(lines, filled, *sel));
    }
    Ok(splices)
}
