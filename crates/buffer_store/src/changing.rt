//! One change more in a history: the calls that reach the fields.

ghost use Rattle.std.specs.Prelude.{◌≡◌, ℕ, ◌+◌, ◌<◌, ◌≤◌, ◌^◌, false, length, None, Some, IfOk, OnOk, OnErr, OnSome, option_to_list, vec_len, vec_capacity};
ghost use Rattle.text_model.specs.declared.TheConstants.{MAX_CHARS};
ghost use Rattle.text_model.specs.Texts.{IsPlaceOrEnd, offset};
ghost use Rattle.text_model.specs.Changes.{inserted, insertion, erasure};
ghost use Rattle.undo_model.specs.Stories.{edited, is_undo_full};
ghost use Rattle.buffer_store.specs.Stored.{change_shifts};
ghost use Rattle.buffer_store.specs.Histories.{erasure_between, seen_pending, committed_branches, committed_current, own_group, other_group, HasRoom};
ghost use Rattle.buffer_store.specs.Laws.{one_pending};

use crate::history::{Branch, History, Pending};
use crate::keeping::{erase, insert};
use change_list::Change;
use kak_text::{Coord, Shift};
use line_buffer::LinesError;
use std::alloc::{AllocError, Global};

impl History {
    /// Puts characters in at a place or at the end, as a change of a client, where the text and the tree have room for it, and
    /// gives its shift; none where there are no characters. After an error the history is as it was.
    pub(crate) fn insert(
        &mut self,
        alloc: Global,
        who: u32,
        at: Coord,
        chars: &[char],
    ) -> Result<Option<Shift>, AllocError>
        requires at { IsPlaceOrEnd self.old.text at }
        requires room { length (inserted self.old.text (offset self.old.text at) chars.now) ≤ MAX_CHARS }
        requires nodes { is_undo_full who (insertion self.old.text (offset self.old.text at) chars.now) self.old ≡ false }
        ensures story { OnOk result (self.new ≡ edited who (insertion self.old.text (offset self.old.text at) chars.now) self.old) }
        ensures shift { IfOk result (λ s. option_to_list s ≡ change_shifts self.old.text (insertion self.old.text (offset self.old.text at) chars.now)) }
        ensures err { OnErr result (self.new ≡ self.old) }
    {
        if chars.is_empty() {
            return Ok(None);
        }
        let fresh = reserve(alloc, &mut self.branches, &mut self.pending, who)?;
        match insert(&mut self.lines, alloc, at, chars) {
            Ok(Some(change)) => {
                let shift = change.shift;
                add(
                    &mut self.branches,
                    &mut self.current,
                    &mut self.pending,
                    fresh,
                    who,
                    change,
                );
                Ok(Some(shift))
            }
            Ok(None) => Ok(None),
            Err(LinesError::NoMemory) => Err(AllocError),
            Err(LinesError::TextFull) => unreachable!(),
        }
    }

    /// Takes the characters from a place to before another, or to the end, out, as a change of a client, where the tree has
    /// room for it, and gives its shift; none where nothing is taken. After an error the history is as it was.
    pub(crate) fn erase(
        &mut self,
        alloc: Global,
        who: u32,
        from: Coord,
        to: Coord,
    ) -> Result<Option<Shift>, AllocError>
        requires from { IsPlaceOrEnd self.old.text from }
        requires to { IsPlaceOrEnd self.old.text to }
        requires ordered { offset self.old.text from ≤ offset self.old.text to }
        requires nodes { is_undo_full who (erasure_between self.old.text from to) self.old ≡ false }
        ensures story { OnOk result (self.new ≡ edited who (erasure_between self.old.text from to) self.old) }
        ensures shift { IfOk result (λ s. option_to_list s ≡ change_shifts self.old.text (erasure_between self.old.text from to)) }
        ensures err { OnErr result (self.new ≡ self.old) }
    {
        if from == to {
            return Ok(None);
        }
        let fresh = reserve(alloc, &mut self.branches, &mut self.pending, who)?;
        match erase(&mut self.lines, alloc, from, to)? {
            Some(change) => {
                let shift = change.shift;
                add(
                    &mut self.branches,
                    &mut self.current,
                    &mut self.pending,
                    fresh,
                    who,
                    change,
                );
                Ok(Some(shift))
            }
            None => Ok(None),
        }
    }
}

// Finds room for one change more of a client: in its pending group, or else in a list for a group that begins, with places
// for its branch and for that of the group that is pending.
fn reserve(
    alloc: Global,
    branches: &mut Vec<Branch>,
    pending: &mut Option<Pending>,
    who: u32,
) -> Result<Vec<Change>, AllocError>
    ensures room { IfOk result (λ fresh. HasRoom who pending.new (vec_len branches.new) (vec_capacity branches.new) fresh) }
    ensures branches { branches.new.items ≡ branches.old.items }
    ensures taken { vec_len branches.new ≡ vec_len branches.old }
    ensures places { vec_capacity branches.old ≤ vec_capacity branches.new }
    ensures group { seen_pending pending.new ≡ seen_pending pending.old }
{
    if let Some(group) = pending {
        if group.owner == who {
            group.changes.reserve(1)?;
            return Ok(Vec::new(alloc));
        }
    }
    branches.reserve(2)?;
    Vec::with_capacity(alloc, 1)
}

// Adds a change to the pending group of a client, or commits what is pending and begins a group with it, where there is room.
fn add(
    branches: &mut Vec<Branch>,
    current: &mut u32,
    pending: &mut Option<Pending>,
    mut fresh: Vec<Change>,
    who: u32,
    change: Change,
)
    requires few { vec_len branches.old < 2 ^ 32 }
    requires room { HasRoom who pending.old (vec_len branches.old) (vec_capacity branches.old) fresh }
    requires place { OnSome (seen_pending pending.old) (vec_len branches.old < vec_capacity branches.old) }
    ensures branches { branches.new.items ≡ committed_branches current.old (other_group who (seen_pending pending.old)) branches.old.items }
    ensures current { current.new ≡ committed_current current.old (other_group who (seen_pending pending.old)) (length branches.old.items) }
    ensures group { seen_pending pending.new ≡ Some (one_pending who (own_group who (seen_pending pending.old)) change) }
    ensures room { vec_len branches.new < vec_capacity branches.new }
{
    if let Some(group) = pending {
        if group.owner == who {
            group.changes.push_reserved(change);
            return;
        }
    }
    commit(branches, current, pending);
    fresh.push_reserved(change);
    *pending = Some(Pending {
        owner: who,
        changes: fresh,
    });
}

// Makes the pending group a branch, for which there is a place.
pub(crate) fn commit(branches: &mut Vec<Branch>, current: &mut u32, pending: &mut Option<Pending>)
    requires few { vec_len branches.old < 2 ^ 32 }
    requires place { OnSome (seen_pending pending.old) (vec_len branches.old < vec_capacity branches.old) }
    ensures branches { branches.new.items ≡ committed_branches current.old (seen_pending pending.old) branches.old.items }
    ensures current { current.new ≡ committed_current current.old (seen_pending pending.old) (length branches.old.items) }
    ensures group { pending.new ≡ None }
    ensures taken { vec_len branches.new ≤ vec_len branches.old + 1 }
    ensures places { vec_capacity branches.new ≡ vec_capacity branches.old }
{
    let node = branches.len() as u32;
    if let Some(group) = pending.take() {
        branches.push_reserved(Branch {
            parent: *current,
            heir: None,
            changes: group.changes,
        });
        *current = node;
    }
}
