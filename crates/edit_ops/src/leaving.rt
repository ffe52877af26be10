//! The list of selections that an edit leaves to the client who makes it.

ghost use Rattle.std.specs.Prelude.{◌≡◌, ℕ, ◌+◌, ◌-◌, ◌<◌, ◌≤◌, List, length, drop, IfOk};
ghost use Rattle.text_model.specs.declared.TheConstants.{MAX_CHARS, MAX_SELECTIONS};
ghost use Rattle.selection_set.specs.Listing.{AreInside, ranges_of, IsSettledIn};
ghost use Rattle.selection_map.specs.Carrying.{IsSmall};
ghost use Rattle.edit_ops.specs.Left.{IsOfEdit, IsOfSomeEdit, IsLeftByEdit, HasHome};
ghost use Rattle.edit_ops.specs.Passing.{ended, homes, last_shift_of, none_passed, mark_at, passed_marks, AreSmallShifts};
ghost use Rattle.selection_map.specs.Rebasing.{earlier};

use crate::passing::{PassedShifts, is_same, last_put, passed_at, place};
use buffer_store::Splice;
use kak_text::{Coord, Shift};
use selection_map::map_one;
use selection_set::{Sel, Sels, SelsError};
use smallvec::SmallVec;
use std::alloc::{AllocError, Global};

/// The list that an edit leaves to the client who makes it, by the number of its main selection, the replacements of the edit,
/// one for each of its selections, the shifts of its changes, and the last place of the text before it. For each selection
/// it has the text that was put in for it, or the one character at its place where nothing was put in; each is straight, without
/// a target, and has gone through the later changes of the edit. The main one stays. It costs the shifts and the characters that
/// were put in once; where what was put in went before the place of an earlier selection, the list is sorted.
pub fn left_list(
    alloc: Global,
    last: Coord,
    main: usize,
    splices: &[Splice],
    shifts: &[Shift],
) -> Result<Sels, AllocError>
    requires edit { IsOfSomeEdit last splices.now shifts.now }
    requires main { main < length splices.now }
    requires few { length splices.now ≤ MAX_SELECTIONS }
    ensures { IfOk result (λ s. (text : List ℕ) → IsOfEdit text last splices.now shifts.now → IsLeftByEdit text splices.now main s) }
{
    let homes = homes_of(alloc, shifts)?;
    let list = marks_of(alloc, last, splices, shifts, homes.as_slice())?;
    settled(alloc, list, main)
}

/// The same, by the client's selections before the edit, of which there is one for each replacement.
pub fn after(
    alloc: Global,
    last: Coord,
    sels: &Sels,
    splices: &[Splice],
    shifts: &[Shift],
) -> Result<Sels, AllocError>
    requires edit { IsOfSomeEdit last splices.now shifts.now }
    requires one_each { length splices.now ≡ length sels.now.list }
    ensures { IfOk result (λ s. (text : List ℕ) → IsOfEdit text last splices.now shifts.now → IsLeftByEdit text splices.now sels.now.main s) }
{
    left_list(alloc, last, sels.main(), splices, shifts)
}

// Where the begin of each shift ends, that of the last one first.
fn homes_of(alloc: Global, shifts: &[Shift]) -> Result<Vec<Coord>, AllocError>
    requires { AreSmallShifts shifts.now }
    ensures { IfOk result (λ h. h.items ≡ homes shifts.now) }
{
    let mut homes = Vec::with_capacity(alloc, shifts.len())?;
    for n in 0..shifts.len() {
        let left = shifts.len() - 1 - n;
        let at = map_one(shifts[left].begin, &shifts[left]);
        let home = ended(shifts, homes.as_slice(), left + 1, at);
        homes.push_reserved(home);
    }
    Ok(homes)
}

// Where a coordinate ends through the shifts from one on, none of which begins before it.
fn ended(shifts: &[Shift], ends: &[Coord], next: usize, at: Coord) -> Coord
    requires { HasHome shifts.now ends.now next }
    ensures { result ≡ ended (drop next shifts.now) at }
{
    if next < shifts.len() && is_same(shifts[next].begin, at) {
        return ends[shifts.len() - 1 - next];
    }
    at
}

// What each replacement leaves.
fn marks_of(
    alloc: Global,
    last: Coord,
    splices: &[Splice],
    shifts: &[Shift],
    ends: &[Coord],
) -> Result<SmallVec<Sel, 4>, AllocError>
    requires edit { IsOfSomeEdit last splices.now shifts.now }
    requires homes { ends.now ≡ homes shifts.now }
    ensures { IfOk result (λ list. list.items ≡ passed_marks last shifts.now (none_passed last) splices.now) }
{
    let mut list = SmallVec::with_capacity(alloc, splices.len())?;
    let mut walk = none_passed(last);
    for splice in splices {
        let at = place(walk, splice);
        walk = passed_at(last, shifts, walk, splice, at);
        list.push_reserved(mark_at(shifts, ends, walk, splice, at));
    }
    Ok(list)
}

// Nothing was passed yet in a text with this last place.
fn none_passed(last: Coord) -> PassedShifts
    ensures { result ≡ none_passed last }
{
    let origin = Coord { line: 0, column: 0 };
    PassedShifts {
        old: origin,
        now: origin,
        last,
        next: 0,
    }
}

// What a replacement leaves that began at a coordinate of the text of that moment, and behind which so much was passed.
fn mark_at(shifts: &[Shift], ends: &[Coord], walk: PassedShifts, splice: &Splice, at: Coord) -> Sel
    requires home { HasHome shifts.now ends.now walk.next }
    requires few { length splice.now.text ≤ MAX_CHARS }
    requires at_small { IsSmall at }
    ensures { result ≡ mark_at shifts.now walk splice.now at }
{
    if splice.text.is_empty() {
        let cut = earlier(at, walk.last);
        return Sel::only(ended(shifts, ends, walk.next, cut));
    }
    let end = end_of(shifts, walk.next);
    Sel {
        low: at,
        high: last_put(at, splice.text.as_slice(), end),
        turned: false,
        target: None,
    }
}

// The earlier of two coordinates.
fn earlier(a: Coord, b: Coord) -> Coord
    ensures { result ≡ earlier a b }
{
    if a.is_at_most(b) { a } else { b }
}

// Where the last of the first n shifts ends.
fn end_of(shifts: &[Shift], n: usize) -> Coord
    ensures { result ≡ (last_shift_of shifts.now n).end }
{
    let at = if n == 0 { 0 } else { n - 1 };
    match shifts.get(at) {
        Some(shift) => shift.end,
        None => Coord { line: 0, column: 0 },
    }
}

// The settled list of some selections that are few enough.
fn settled(alloc: Global, list: SmallVec<Sel, 4>, main: usize) -> Result<Sels, AllocError>
    requires main { main < length list.items }
    requires few { length list.items ≤ MAX_SELECTIONS }
    ensures { IfOk result (λ s. (text : List ℕ) → AreInside text list.items → IsSettledIn text (ranges_of text list.items) main s) }
{
    match Sels::of_vec(alloc, list, main) {
        Ok(sels) => Ok(sels),
        Err(SelsError::NoMemory) => Err(AllocError),
        Err(SelsError::TooMany) => unreachable!(),
    }
}
