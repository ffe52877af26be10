//! The keys that cut each selection up into parts.

ghost use Rattle.std.specs.Prelude.{◌≡◌, ◌<◌, ◌≤◌, ◌↔◌, Some, length, flat_map, IfOk, IfSome, IsOk, IsErrOf, MatchOption, option_map};
ghost use Rattle.text_model.specs.declared.TheConstants.{MAX_SELECTIONS};
ghost use Rattle.selection_set.specs.Listing.{AreInside, ranges_of};
ghost use Rattle.selection_set.specs.Held.{selected, IsHeld};
ghost use Rattle.list_keys.specs.Cuts.{split_by};
ghost use Rattle.list_keys.specs.Rows.{parts_of_each, Selects};

use crate::parts::{Split, part_count, push_parts};
use line_buffer::Lines;
use selection_set::{Sel, Sels, SelsError};
use smallvec::SmallVec;
use std::alloc::{AllocError, Global};
use text_model::MAX_SELECTIONS;

// How many parts some selections are cut into; none where these are more than `MAX_SELECTIONS`.
fn all_count(lines: &Lines, sels: &[Sel], how: Split) -> Option<usize>
    requires { AreInside lines.now sels.now }
    ensures value { MatchOption result (MAX_SELECTIONS < length (flat_map (split_by how lines.now) (ranges_of lines.now sels.now)))
        (λ count. count ≡ length (flat_map (split_by how lines.now) (ranges_of lines.now sels.now))) }
    ensures some { IfSome result (λ count. length sels.now ≤ count) }
    ensures few { IfSome result (λ count. count ≤ MAX_SELECTIONS) }
{
    // its contract says that the lines are a text's
    let _stored = lines.len();
    let mut count = 0;
    for sel in sels {
        count += part_count(*sel, how);
        if count > MAX_SELECTIONS {
            return None;
        }
    }
    Some(count)
}

// The parts of some selections, so many together. Takes no memory for at most four.
fn part_list(
    alloc: Global,
    lines: &Lines,
    sels: &[Sel],
    how: Split,
    count: usize,
) -> Result<SmallVec<Sel, 4>, AllocError>
    requires inside { AreInside lines.now sels.now }
    requires all { count ≡ length (flat_map (split_by how lines.now) (ranges_of lines.now sels.now)) }
    ensures inside { IfOk result (λ list. AreInside lines.now list.items) }
    ensures ranges { IfOk result (λ list. ranges_of lines.now list.items ≡ flat_map (split_by how lines.now) (ranges_of lines.now sels.now)) }
    ensures few { count ≤ 4 → IsOk result }
{
    let mut list = SmallVec::with_capacity(alloc, count)?;
    for sel in sels {
        push_parts(lines, *sel, how, &mut list);
    }
    Ok(list)
}

/// Each selection cut up. Split at line ends, a part ends with a newline, or with the selection's last character; where
/// the first and the last character are one, they become one selection. The last part is the main one.
pub(crate) fn split_each(
    alloc: Global,
    lines: &Lines,
    sels: &Sels,
    how: Split,
) -> Result<Option<Sels>, SelsError>
    requires { IsHeld lines.now sels.now }
    ensures held { IfOk result (λ found. IfSome found (λ s. IsHeld lines.now s)) }
    ensures divides { IfOk result (Selects lines.now (parts_of_each (split_by how lines.now) (selected lines.now sels.now))) }
    ensures too_many { IsErrOf result SelsError.TooMany ↔ (MAX_SELECTIONS < length (flat_map (split_by how lines.now) (selected lines.now sels.now).list)) }
    ensures few { length (flat_map (split_by how lines.now) (selected lines.now sels.now).list) ≤ 4 → IsOk result }
{
    match all_count(lines, sels.as_slice(), how) {
        None => Err(SelsError::TooMany),
        Some(count) => {
            let list = part_list(alloc, lines, sels.as_slice(), how, count)?;
            let parts = Sels::of_vec(alloc, list, count - 1)?;
            Ok(Some(parts))
        }
    }
}
