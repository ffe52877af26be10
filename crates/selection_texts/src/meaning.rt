//! What descriptions of selections mean in a text.

ghost use Rattle.std.specs.Prelude.{◌≡◌, ◌<◌, ◌≤◌, ◌↔◌, length, map, IfOk, IsErrOf};
ghost use Rattle.std.specs.List.{AllByRecursion};
ghost use Rattle.text_model.specs.declared.TheConstants.{MAX_SELECTIONS};
ghost use Rattle.text_model.specs.Texts.{IsPlace, offset};
ghost use Rattle.selection_set.specs.Listing.{IsPairInside, range_of_pair};
ghost use Rattle.selection_set.specs.Held.{IsHeld, selected};
ghost use Rattle.selection_texts.specs.Meaning.{offset_meant, meant, list_meant};

use crate::columns::column_meant;
use command_forms::{ArgumentPlace, Columns, Described};
use kak_text::Coord;
use line_buffer::Lines;
use selection_set::{Pair, Sels, SelsError};
use std::alloc::{AllocError, Global};
use text_model::MAX_SELECTIONS;

// The coordinate of what a place, from 1, means: lines and columns that are too great mean the last.
fn place_meant(lines: &Lines, columns: Columns, place: ArgumentPlace) -> Coord
    ensures place { IsPlace lines.now result }
    ensures value { offset lines.now result ≡ offset_meant columns lines.now place }
{
    let last = (lines.line_count() - 1) as u32;
    let line = place.line.saturating_sub(1).min(last);
    let chars = lines.line(line as usize);
    let column = column_meant(chars, columns, place.column.saturating_sub(1));
    Coord { line, column }
}

/// The anchor and the cursor that a description means. Lines and columns that are too great mean the last, and a byte
/// inside of a character means it.
pub fn pair_meant(lines: &Lines, columns: Columns, described: Described) -> Pair
    ensures inside { IsPairInside lines.now result }
    ensures value { range_of_pair lines.now result ≡ meant columns lines.now described }
{
    Pair {
        anchor: place_meant(lines, columns, described.anchor),
        cursor: place_meant(lines, columns, described.cursor),
    }
}

// The same for each of some descriptions.
fn pairs_meant(
    alloc: Global,
    lines: &Lines,
    columns: Columns,
    described: &[Described],
) -> Result<Vec<Pair>, AllocError>
    ensures inside { IfOk result (λ pairs. AllByRecursion (IsPairInside lines.now) pairs.items) }
    ensures value { IfOk result (λ pairs. map (range_of_pair lines.now) pairs.items ≡ map (meant columns lines.now) described.now) }
    ensures count { IfOk result (λ pairs. length pairs.items ≡ length described.now) }
{
    let mut pairs = Vec::with_capacity(alloc, described.len())?;
    for d in described {
        pairs.push(pair_meant(lines, columns, *d))?;
    }
    Ok(pairs)
}

/// The settled list of the selections that descriptions mean, of which the first is the main one. `TooMany` comes
/// exactly where more than `MAX_SELECTIONS` are given; the other error is `NoMemory`.
pub fn list_meant(
    alloc: Global,
    lines: &Lines,
    columns: Columns,
    described: &[Described],
) -> Result<Sels, SelsError>
    requires { 0 < length described.now }
    ensures held { IfOk result (λ s. IsHeld lines.now s) }
    ensures list { IfOk result (λ s. selected lines.now s ≡ list_meant columns lines.now described.now) }
    ensures too_many { IsErrOf result SelsError.TooMany ↔ (MAX_SELECTIONS < length described.now) }
{
    if described.len() > MAX_SELECTIONS {
        return Err(SelsError::TooMany);
    }
    let pairs = pairs_meant(alloc, lines, columns, described)?;
    Sels::of_pairs(alloc, pairs.as_slice(), 0)
}
