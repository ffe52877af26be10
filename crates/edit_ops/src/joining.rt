//! Lines that are joined to the next ones.

ghost use Rattle.std.specs.Prelude.{◌≡◌, ◌+◌, ◌<◌, IfOk};
ghost use Rattle.text_model.specs.Texts.{line_count};
ghost use Rattle.selection_set.specs.Listing.{ranges_of};
ghost use Rattle.selection_set.specs.Held.{IsHeld};
ghost use Rattle.buffer_store.specs.Buffers.{flat_splice, flat_splices, IsSpliceOf, AreSplicesOf};
ghost use Rattle.edit_ops.specs.Joining.{join_at, joins};

use crate::line_blanks::blanks;
use crate::places::next_line;
use crate::spans::{LineReach, lines_reached};
use buffer_store::Splice;
use kak_text::{Chars, Coord};
use line_buffer::Lines;
use selection_set::Sels;
use std::alloc::{AllocError, Global};

/// The replacements that join lines to the next ones, from the first to the last: the newline of each line that a selection
/// touches but of its last one, or of its only one, becomes a space, together with the blanks that the next line begins with.
/// The text's last newline stays, and a newline that several selections take is replaced once. It costs the list, and
/// for each line that is joined the blanks behind its newline.
pub fn join(alloc: Global, lines: &Lines, sels: &Sels) -> Result<Vec<Splice>, AllocError>
    requires { IsHeld lines.now sels.now }
    ensures joins { IfOk result (λ s. flat_splices lines.now s.items ≡ joins lines.now (ranges_of lines.now sels.now.list)) }
    ensures splices { IfOk result (λ s. AreSplicesOf lines.now s.items) }
{
    let numbers = lines_reached(alloc, lines, sels, LineReach::Joined)?;
    let mut splices = Vec::with_capacity(alloc, numbers.len())?;
    for n in numbers.as_slice() {
        splices.push_reserved(join_at(alloc, lines, *n)?);
    }
    Ok(splices)
}

// A line joined to the next one.
fn join_at(alloc: Global, lines: &Lines, n: u32) -> Result<Splice, AllocError>
    requires { n + 1 < line_count lines.now }
    ensures joins { IfOk result (λ s. flat_splice lines.now s ≡ join_at lines.now n) }
    ensures ends { IfOk result (λ s. IsSpliceOf lines.now s) }
{
    let next = next_line(lines, n).line;
    let newline = lines.line(n as usize).len() - 1;
    let behind = blanks(lines.line(next as usize));
    Ok(Splice {
        from: Coord {
            line: n,
            column: newline as u32,
        },
        to: Coord {
            line: next,
            column: behind as u32,
        },
        text: Chars::from_slice(alloc, &[' '])?,
    })
}
