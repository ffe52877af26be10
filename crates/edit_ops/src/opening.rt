//! Lines that are opened at each selection.

ghost use Rattle.std.specs.Prelude.{◌≡◌, [], ◌∷◌, IfOk};
ghost use Rattle.text_model.specs.Texts.{offset, IsPlaceOrEnd};
ghost use Rattle.selection_set.specs.Inside.{IsInside, range_of};
ghost use Rattle.selection_set.specs.Listing.{ranges_of};
ghost use Rattle.selection_set.specs.Held.{IsHeld};
ghost use Rattle.buffer_store.specs.Buffers.{flat_splices, AreSplicesOf};
ghost use Rattle.edit_ops.specs.Opening.{opened_from, opens};

use crate::places::{line_start, next_line};
use crate::putting::put_in_at;
use buffer_store::Splice;
use directions::Direction;
use kak_text::{Chars, Coord};
use line_buffer::Lines;
use selection_set::{Sel, Sels};
use std::alloc::{AllocError, Global};

/// The replacements that put a newline in below the line of each selection's last character, or, backward, above that of its
/// first one; one for each, from the first to the last.
pub fn open(
    alloc: Global,
    lines: &Lines,
    sels: &Sels,
    direction: Direction,
) -> Result<Vec<Splice>, AllocError>
    requires { IsHeld lines.now sels.now }
    ensures opens { IfOk result (λ s. flat_splices lines.now s.items ≡ opens lines.now direction (ranges_of lines.now sels.now.list)) }
    ensures splices { IfOk result (λ s. AreSplicesOf lines.now s.items) }
{
    let mut splices = Vec::with_capacity(alloc, sels.len())?;
    for sel in sels.as_slice() {
        let newline = newline(alloc)?;
        splices.push_reserved(put_in_at(opened_from(lines, *sel, direction), newline));
    }
    Ok(splices)
}

// A newline alone.
fn newline(alloc: Global) -> Result<Chars, AllocError>
    ensures { IfOk result (λ c. c ≡ 10 ∷ []) }
{
    Chars::from_slice(alloc, &['\n'])
}

// Where a line is opened at one selection.
fn opened_from(lines: &Lines, sel: Sel, direction: Direction) -> Coord
    requires { IsInside lines.now sel }
    ensures value { offset lines.now result ≡ opened_from lines.now direction (range_of lines.now sel) }
    ensures place { IsPlaceOrEnd lines.now result }
{
    match direction {
        Direction::Forward => next_line(lines, sel.high.line),
        Direction::Backward => line_start(lines, sel.low.line),
    }
}
