//! The keys that go by the main selection, and the one that selects the whole text.

ghost use Rattle.std.specs.Prelude.{◌≡◌, ℕ, ◌+◌, ◌-◌, ◌==◌, if◌then◌else◌, ◌<◌, ◌≤◌, ◌++◌, List, length, take, drop, IfOk, IfSome, IsOk, IsErrOf, ◌↔◌, option_map};
ghost use Rattle.text_model.specs.declared.TheConstants.{MAX_SELECTIONS};
ghost use Rattle.selection_set.specs.Held.{selected, IsHeld};
ghost use Rattle.list_keys.specs.Rows.{main_alone, without_main, place_beside, whole_text};

use directions::Direction;
use line_buffer::Lines;
use selection_set::{Sel, Sels, SelsError};
use smallvec::SmallVec;
use std::alloc::{AllocError, Global};
use text_model::Coord;

/// The main selection alone, as it is. Takes no memory.
pub(crate) fn main_alone(alloc: Global, sels: &Sels) -> Sels
    ensures held { (text : List ℕ) → IsHeld text sels.now → IsHeld text result }
    ensures alone { (text : List ℕ) → IsHeld text sels.now → selected text result ≡ main_alone (selected text sels.now) }
{
    Sels::one(alloc, sels.at(sels.main()))
}

// The selections but the main one. Takes no memory for at most four selections.
fn others(alloc: Global, sels: &Sels) -> Result<SmallVec<Sel, 4>, AllocError>
    ensures items { IfOk result (λ list. list.items ≡ take sels.now.main sels.now.list ++ drop (sels.now.main + 1) sels.now.list) }
    ensures few { length sels.now.list ≤ 4 → IsOk result }
{
    let all = sels.as_slice();
    let main = sels.main();
    let mut list = SmallVec::with_capacity(alloc, all.len() - 1)?;
    for sel in &all[..main] {
        list.push_reserved(*sel);
    }
    for sel in &all[main + 1..] {
        list.push_reserved(*sel);
    }
    Ok(list)
}

// The place before a place among so many without it; the last one where it was the first.
fn place_left(count: usize, place: usize) -> usize
    requires there { place < count }
    requires others { 1 < count }
    ensures value { result ≡ (if place == 0 then count - 2 else place - 1) }
    ensures below { result + 1 < count }
{
    if place == 0 { count - 2 } else { place - 1 }
}

/// The selections but the main one; None where it is the only one. The one before it becomes the main one, or the last
/// one where it was the first.
pub(crate) fn without_main(
    alloc: Global,
    lines: &Lines,
    sels: &Sels,
) -> Result<Option<Sels>, SelsError>
    requires { IsHeld lines.now sels.now }
    ensures held { IfOk result (λ found. IfSome found (λ s. IsHeld lines.now s)) }
    ensures drops { IfOk result (λ found. option_map (selected lines.now) found ≡ without_main (selected lines.now sels.now)) }
    ensures too_many { IsErrOf result SelsError.TooMany ↔ (MAX_SELECTIONS < length (selected lines.now sels.now).list - 1) }
    ensures few { length sels.now.list ≤ 4 → IsOk result }
{
    let count = sels.len();
    let list = others(alloc, sels)?;
    if list.is_empty() {
        return Ok(None);
    }
    let place = place_left(count, sels.main());
    let others = Sels::of_vec(alloc, list, place)?;
    Ok(Some(others))
}

// The place behind a place among so many, or before it, round the ends.
fn place_beside(count: usize, place: usize, direction: Direction) -> usize
    requires { place < count }
    ensures value { result ≡ place_beside direction count place }
    ensures below { result < count }
{
    match direction {
        Direction::Forward => if place + 1 == count { 0 } else { place + 1 },
        Direction::Backward => if place == 0 { count - 1 } else { place - 1 },
    }
}

/// The place of the selection behind the main one, or before it, round the ends.
pub fn main_beside(sels: &Sels, direction: Direction) -> usize
    ensures value { result ≡ place_beside direction (length sels.now.list) sels.now.main }
    ensures below { result < length sels.now.list }
{
    place_beside(sels.len(), sels.main(), direction)
}

/// One straight selection of the whole text. Takes no memory.
pub(crate) fn whole_text(alloc: Global, lines: &Lines) -> Sels
    ensures held { IsHeld lines.now result }
    ensures whole { selected lines.now result ≡ whole_text lines.now }
{
    let whole = Sel {
        low: Coord { line: 0, column: 0 },
        high: lines.last_place(),
        turned: false,
        target: None,
    };
    Sels::one(alloc, whole)
}
