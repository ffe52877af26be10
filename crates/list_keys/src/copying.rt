//! The keys that copy selections.

ghost use Rattle.std.specs.Prelude.{◌≡◌, ◌+◌, ◌<◌, ◌≤◌, ◌↔◌, ◌++◌, Some, length, filter_map, IfOk, IfSome, IsOk, IsErrOf, OnOk, option_map, option_to_list, nat_lt, if◌then◌else◌};
ghost use Rattle.text_model.specs.declared.TheConstants.{MAX_SELECTIONS};
ghost use Rattle.selection_set.specs.Listing.{AreInside, ranges_of};
ghost use Rattle.selection_set.specs.Held.{selected, IsHeld};
ghost use Rattle.list_keys.specs.Copies.{copy_of};
ghost use Rattle.list_keys.specs.Rows.{with_copies, main_copied, copied_each, Selects};

use crate::copies::copy;
use directions::Direction;
use line_buffer::Lines;
use selection_set::{Sel, Sels, SelsError};
use smallvec::SmallVec;
use std::alloc::{AllocError, Global};
use text_model::MAX_SELECTIONS;

// Puts a copy behind a list, if there is one. Takes memory only where the list has no room.
fn push_copy(found: Option<Sel>, list: &mut SmallVec<Sel, 4>) -> Result<(), AllocError>
    ensures items { OnOk result (list.new.items ≡ list.old.items ++ option_to_list found) }
    ensures capacity { list.old.capacity ≤ list.new.capacity }
    ensures few { length list.old.items + length (option_to_list found) ≤ list.old.capacity → IsOk result }
{
    if let Some(sel) = found {
        list.reserve(1)?;
        list.push_reserved(sel);
    }
    Ok(())
}

// Puts the copies of some selections behind a list.
fn push_copies(
    lines: &Lines,
    sels: &[Sel],
    direction: Direction,
    list: &mut SmallVec<Sel, 4>,
) -> Result<(), AllocError>
    requires inside { AreInside lines.now sels.now }
    requires listed { AreInside lines.now list.old.items }
    ensures inside { OnOk result (AreInside lines.now list.new.items) }
    ensures ranges { OnOk result (ranges_of lines.now list.new.items
        ≡ ranges_of lines.now list.old.items ++ filter_map (copy_of direction lines.now) (ranges_of lines.now sels.now)) }
    ensures capacity { list.old.capacity ≤ list.new.capacity }
    ensures few { length list.old.items + length (filter_map (copy_of direction lines.now) (ranges_of lines.now sels.now)) ≤ list.old.capacity → IsOk result }
{
    for sel in sels {
        push_copy(copy(lines, *sel, direction), list)?;
    }
    Ok(())
}

// The selections, and behind them the copies of those that have one, with the place of the main one's copy, or of the main
// one itself where it has none. Each copy is looked for once.
fn copies_list(
    alloc: Global,
    lines: &Lines,
    sels: &Sels,
    direction: Direction,
) -> Result<(SmallVec<Sel, 4>, usize), AllocError>
    requires { IsHeld lines.now sels.now }
    ensures inside { IfOk result (λ made. AreInside lines.now made.0.items) }
    ensures ranges { IfOk result (λ made. ranges_of lines.now made.0.items ≡ with_copies (copy_of direction lines.now) (selected lines.now sels.now)) }
    ensures main { IfOk result (λ made. made.1 ≡ main_copied (copy_of direction lines.now) (selected lines.now sels.now)) }
    ensures few { length (with_copies (copy_of direction lines.now) (selected lines.now sels.now)) ≤ 4 → IsOk result }
{
    let all = sels.as_slice();
    let main = sels.main();
    let mut list = SmallVec::from_slice(alloc, all)?;
    push_copies(lines, &all[..main], direction, &mut list)?;
    let place = list.len();
    let own = copy(lines, all[main], direction);
    push_copy(own, &mut list)?;
    push_copies(lines, &all[main + 1..], direction, &mut list)?;
    if own.is_some() {
        return Ok((list, place));
    }
    Ok((list, main))
}

// How many of some selections have a copy.
fn copy_count(lines: &Lines, sels: &[Sel], direction: Direction) -> usize
    requires { AreInside lines.now sels.now }
    ensures value { result ≡ length (filter_map (copy_of direction lines.now) (ranges_of lines.now sels.now)) }
    ensures few { result ≤ length sels.now }
{
    let mut count = 0;
    for sel in sels {
        if copy(lines, *sel, direction).is_some() {
            count += 1;
        }
    }
    count
}

// Why there was no memory for the copies: because they would be too many, or for no other reason.
fn refusal(lines: &Lines, sels: &Sels, direction: Direction) -> SelsError
    requires { IsHeld lines.now sels.now }
    ensures { result
        ≡ (if nat_lt MAX_SELECTIONS (length (with_copies (copy_of direction lines.now) (selected lines.now sels.now))) then SelsError.TooMany else SelsError.NoMemory) }
{
    let all = sels.as_slice();
    let count = all.len() + copy_count(lines, all, direction);
    if count > MAX_SELECTIONS {
        return SelsError::TooMany;
    }
    SelsError::NoMemory
}

/// The selections and a copy of each, in the same columns on the nearest lines below all its own lines, or above them,
/// that have these columns; one without such lines has no copy. The copy of the main one, if it has one, is the main
/// one.
pub(crate) fn copied(
    alloc: Global,
    lines: &Lines,
    sels: &Sels,
    direction: Direction,
) -> Result<Option<Sels>, SelsError>
    requires { IsHeld lines.now sels.now }
    ensures held { IfOk result (λ found. IfSome found (λ s. IsHeld lines.now s)) }
    ensures copies { IfOk result (Selects lines.now (copied_each (copy_of direction lines.now) (selected lines.now sels.now))) }
    ensures too_many { IsErrOf result SelsError.TooMany ↔ (MAX_SELECTIONS < length (with_copies (copy_of direction lines.now) (selected lines.now sels.now))) }
    ensures few { length (with_copies (copy_of direction lines.now) (selected lines.now sels.now)) ≤ 4 → IsOk result }
{
    match copies_list(alloc, lines, sels, direction) {
        Ok((list, main)) => {
            let copied = Sels::of_vec(alloc, list, main)?;
            Ok(Some(copied))
        }
        Err(_) => Err(refusal(lines, sels, direction)),
    }
}
