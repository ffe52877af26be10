//! Marks of changes, carried through the changes behind them.

ghost use Rattle.std.specs.Prelude.{◌≡◌, ℕ, ◌-◌, ◌<◌, ◌≤◌, true, List, [], length, IfOk, IsOk, IfSome, IsSome};
ghost use Rattle.text_model.specs.declared.TheConstants.{MAX_SELECTIONS};
ghost use Rattle.text_model.specs.Changes.{Change, all_changed};
ghost use Rattle.undo_model.specs.Marks.{marks as ranges_left};
ghost use Rattle.selection_set.specs.Listing.{IsSettledIn};
ghost use Rattle.selection_map.specs.Behind.{AreFalling, AreRising, all_meet_few};
ghost use Rattle.move_marks.specs.Marking.{AreMarked, AreOfChanges, IsLeftBy};

use crate::joining::{both, settled};
use selection_map::{carry_back, carry_on, catch_up, falls, rises};
use selection_set::{Sel, Sels};
use smallvec::SmallVec;
use std::alloc::{AllocError, Global};
use text_model::{MAX_SELECTIONS, Shift};

/// The list that changes of a text leave, by the mark of each in the text right behind it, and its shift: the last
/// 262,144 marks, each carried through the changes behind it, as a settled list whose main one is that of the last change.
/// Where the changes fall, as those of an undo do, and where they rise and no mark meets more than two of those behind its
/// own, as with letters typed in many places, the marks are carried in one pass. Else they are carried by halves, so that n
/// marks cost n times the logarithm of n, where the changes go one way.
/// At most four marks never take memory.
pub fn list_left(alloc: Global, marks: &[Sel], shifts: &[Shift]) -> Result<Sels, AllocError>
    requires some { 0 < length marks.now }
    requires marked { AreOfChanges marks.now shifts.now }
    ensures left { IfOk result (λ s. (text : List ℕ) (cs : List Change) → AreMarked text cs marks.now shifts.now → IsLeftBy text cs s) }
    ensures few { length marks.now ≤ 4 → IsOk result }
{
    let skipped = marks.len().saturating_sub(MAX_SELECTIONS);
    let (_, last) = marks.split_at(skipped);
    let (_, their_shifts) = shifts.split_at(skipped);
    list_of(alloc, last, their_shifts)
}

// The same for no more marks than a list may have: those of the first half of the changes are settled behind that half,
// and then go through the other half as one list.
fn list_of(alloc: Global, marks: &[Sel], shifts: &[Shift]) -> Result<Sels, AllocError>
    requires some { 0 < length marks.now }
    requires few { length marks.now ≤ MAX_SELECTIONS }
    requires marked { AreOfChanges marks.now shifts.now }
    ensures settles { IfOk result (λ s. (text : List ℕ) (cs : List Change) → AreMarked text cs marks.now shifts.now
        → IsSettledIn (all_changed text cs) (ranges_left text [] cs) (length cs - 1) s) }
    ensures few { length marks.now ≤ 4 → IsOk result }
{
    if marks.len() == 1 {
        return Ok(Sels::one(alloc, marks[0]));
    }
    if falls(shifts) {
        return list_of_falling(alloc, marks, shifts);
    }
    if let Some(list) = list_of_rising(alloc, marks, shifts)? {
        return Ok(list);
    }
    let half = marks.len() / 2;
    let (front, back) = marks.split_at(half);
    let (front_shifts, back_shifts) = shifts.split_at(half);
    let mut first = list_of(alloc, front, front_shifts)?;
    catch_up(&mut first, back_shifts);
    let second = list_of(alloc, back, back_shifts)?;
    both(alloc, &first, &second)
}

// The same for changes that fall: each mark goes through the changes behind it, and those of the last changes come first.
fn list_of_falling(alloc: Global, marks: &[Sel], shifts: &[Shift]) -> Result<Sels, AllocError>
    requires some { 0 < length marks.now }
    requires few { length marks.now ≤ MAX_SELECTIONS }
    requires marked { AreOfChanges marks.now shifts.now }
    requires fall { AreFalling shifts.now }
    ensures settles { IfOk result (λ s. (text : List ℕ) (cs : List Change) → AreMarked text cs marks.now shifts.now
        → IsSettledIn (all_changed text cs) (ranges_left text [] cs) (length cs - 1) s) }
    ensures few { length marks.now ≤ 4 → IsOk result }
{
    let mut list = SmallVec::from_slice(alloc, marks)?;
    carry_back(list.as_mut_slice(), shifts);
    list.as_mut_slice().reverse();
    settled(alloc, list, 0)
}

// The same for changes that rise, where no mark meets more than two of the changes behind its own; else none.
fn list_of_rising(
    alloc: Global,
    marks: &[Sel],
    shifts: &[Shift],
) -> Result<Option<Sels>, AllocError>
    requires some { 0 < length marks.now }
    requires few { length marks.now ≤ MAX_SELECTIONS }
    requires marked { AreOfChanges marks.now shifts.now }
    ensures settles { IfOk result (λ o. IfSome o (λ s. (text : List ℕ) (cs : List Change) → AreMarked text cs marks.now shifts.now
        → IsSettledIn (all_changed text cs) (ranges_left text [] cs) (length cs - 1) s)) }
    ensures few { length marks.now ≤ 4 → IsOk result }
    ensures made { AreRising shifts.now → all_meet_few shifts.now marks.now ≡ true → IfOk result (λ o. IsSome o) }
{
    if !rises(shifts) {
        return Ok(None);
    }
    let mut list = SmallVec::from_slice(alloc, marks)?;
    if !carry_on(list.as_mut_slice(), shifts) {
        return Ok(None);
    }
    let sels = settled(alloc, list, marks.len() - 1)?;
    Ok(Some(sels))
}
