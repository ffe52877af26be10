//! The keys that leave something of each selection.

ghost use Rattle.std.specs.Prelude.{◌≡◌, ◌+◌, ◌<◌, ◌≤◌, ◌↔◌, ◌++◌, length, filter_map, IfOk, IfSome, IsOk, IsErrOf, option_map, option_to_list};
ghost use Rattle.text_model.specs.declared.TheConstants.{MAX_SELECTIONS};
ghost use Rattle.selection_set.specs.Listing.{AreInside, ranges_of};
ghost use Rattle.selection_set.specs.Held.{selected, IsHeld};
ghost use Rattle.list_keys.specs.Cuts.{cut_by, ranges_cut};
ghost use Rattle.list_keys.specs.Rows.{left_of_each, main_left};

use crate::cuts::{Cut, cut_sel};
use line_buffer::Lines;
use selection_set::{Sel, Sels, SelsError};
use smallvec::SmallVec;
use std::alloc::{AllocError, Global};

// Puts a selection behind a list, if there is one.
fn push_found(found: Option<Sel>, list: &mut SmallVec<Sel, 4>)
    requires { length list.old.items + length (option_to_list found) ≤ list.old.capacity }
    ensures items { list.new.items ≡ list.old.items ++ option_to_list found }
    ensures capacity { list.new.capacity ≡ list.old.capacity }
{
    if let Some(sel) = found {
        list.push_reserved(sel);
    }
}

// Puts what is left of some selections behind a list.
fn push_cuts(lines: &Lines, sels: &[Sel], how: Cut, list: &mut SmallVec<Sel, 4>)
    requires inside { AreInside lines.now sels.now }
    requires listed { AreInside lines.now list.old.items }
    requires room { length list.old.items + length sels.now ≤ list.old.capacity }
    ensures inside { AreInside lines.now list.new.items }
    ensures ranges { ranges_of lines.now list.new.items ≡ ranges_of lines.now list.old.items ++ ranges_cut how lines.now sels.now }
    ensures count { length list.new.items ≤ length list.old.items + length sels.now }
    ensures capacity { list.new.capacity ≡ list.old.capacity }
{
    for sel in sels {
        push_found(cut_sel(lines, *sel, how), list);
    }
}

// What is left of all selections, and the place there of what is left of the main one, or of the last one. Takes no
// memory for at most four.
fn left_list(
    alloc: Global,
    lines: &Lines,
    sels: &Sels,
    how: Cut,
) -> Result<(SmallVec<Sel, 4>, usize), AllocError>
    requires { IsHeld lines.now sels.now }
    ensures inside { IfOk result (λ made. AreInside lines.now made.0.items) }
    ensures ranges { IfOk result (λ made. ranges_of lines.now made.0.items ≡ filter_map (cut_by how lines.now) (ranges_of lines.now sels.now.list)) }
    ensures main { IfOk result (λ made. made.1 ≡ main_left (cut_by how lines.now) (selected lines.now sels.now)) }
    ensures allowed { length sels.now.list ≤ MAX_SELECTIONS }
    ensures few { length sels.now.list ≤ 4 → IsOk result }
{
    let all = sels.as_slice();
    let main = sels.main();
    let mut list = SmallVec::with_capacity(alloc, all.len())?;
    push_cuts(lines, &all[..main], how, &mut list);
    let place = list.len();
    let own = cut_sel(lines, all[main], how);
    push_found(own, &mut list);
    push_cuts(lines, &all[main + 1..], how, &mut list);
    if own.is_some() {
        return Ok((list, place));
    }
    let last = list.len().saturating_sub(1);
    Ok((list, last))
}

/// Each selection cut at its ends, without those of which nothing is left; None where nothing is left of any. The main one
/// stays the main one; where it is dropped, the last one is.
pub(crate) fn cut_each(
    alloc: Global,
    lines: &Lines,
    sels: &Sels,
    how: Cut,
) -> Result<Option<Sels>, SelsError>
    requires { IsHeld lines.now sels.now }
    ensures held { IfOk result (λ found. IfSome found (λ s. IsHeld lines.now s)) }
    ensures leaves { IfOk result (λ found. option_map (selected lines.now) found ≡ left_of_each (cut_by how lines.now) (selected lines.now sels.now)) }
    ensures too_many { IsErrOf result SelsError.TooMany ↔ (MAX_SELECTIONS < length (filter_map (cut_by how lines.now) (selected lines.now sels.now).list)) }
    ensures few { length sels.now.list ≤ 4 → IsOk result }
{
    let (list, main) = left_list(alloc, lines, sels, how)?;
    if list.is_empty() {
        return Ok(None);
    }
    let left = Sels::of_vec(alloc, list, main)?;
    Ok(Some(left))
}
