//! Characters that are erased at each selection.

ghost use Rattle.std.specs.Prelude.{◌≡◌, [], IfOk};
ghost use Rattle.selection_set.specs.Inside.{IsInside, range_of};
ghost use Rattle.selection_set.specs.Listing.{ranges_of};
ghost use Rattle.selection_set.specs.Held.{IsHeld};
ghost use Rattle.buffer_store.specs.Buffers.{flat_splice, flat_splices, IsSpliceOf, AreSplicesOf};
ghost use Rattle.edit_ops.specs.Erasing.{erasure_at, erasures};

use crate::kinds::Erase;
use crate::places::{before, behind};
use buffer_store::Splice;
use kak_text::{Chars, Coord};
use line_buffer::Lines;
use selection_set::{Sel, Sels};
use std::alloc::{AllocError, Global};

/// The replacements that erase characters at each selection, one for each, from the first to the last.
pub fn erase(
    alloc: Global,
    lines: &Lines,
    sels: &Sels,
    what: Erase,
) -> Result<Vec<Splice>, AllocError>
    requires { IsHeld lines.now sels.now }
    ensures erases { IfOk result (λ s. flat_splices lines.now s.items ≡ erasures what (ranges_of lines.now sels.now.list)) }
    ensures splices { IfOk result (λ s. AreSplicesOf lines.now s.items) }
{
    let mut splices = Vec::with_capacity(alloc, sels.len())?;
    for sel in sels.as_slice() {
        splices.push_reserved(erasure_at(alloc, lines, *sel, what));
    }
    Ok(splices)
}

// What is erased at one selection.
fn erasure_at(alloc: Global, lines: &Lines, sel: Sel, what: Erase) -> Splice
    requires { IsInside lines.now sel }
    ensures erases { flat_splice lines.now result ≡ erasure_at what (range_of lines.now sel) }
    ensures ends { IsSpliceOf lines.now result }
{
    let cursor = sel.cursor();
    match what {
        Erase::Selection => taken_out(alloc, sel.low, behind(lines, sel.high)),
        Erase::BeforeCursor => taken_out(alloc, before(lines, cursor), cursor),
        Erase::AtCursor => taken_out(alloc, cursor, behind(lines, cursor)),
    }
}

// The characters from a place to before another, taken out.
fn taken_out(alloc: Global, from: Coord, to: Coord) -> Splice
    ensures { result ≡ record { from = from; «to» = to; text = [] } }
{
    Splice {
        from,
        to,
        text: Chars::new(alloc),
    }
}
