//! Edits of the text that a client sees, and moves in its history.

ghost use Rattle.std.specs.Prelude.{◌≡◌, ◌≤◌, true, false, map, option_map, IfOk, OnOk, IsErrOf};
ghost use Rattle.std.specs.List.{AllByRecursion};
ghost use Rattle.buffer_store.specs.Stored.{change_shifts};
ghost use Rattle.buffer_store.specs.Buffers.{AreSplicesOf, flat_splices, changes_of};
ghost use Rattle.undo_model.specs.declared.TheConstants.{MAX_NODES};
ghost use Rattle.undo_model.specs.Steps.{AreSteps};
ghost use Rattle.kak_world.specs.declared.ask.EditError.TheVariants.{NoMemory};
ghost use Rattle.kak_world.specs.Flat.{is_joined, acts, text_of, node_number_of, committed_for};
ghost use Rattle.kak_world.specs.Changing.{edited_by, commits, IsAfterSomeChanges, IsMoveCutIn};
ghost use Rattle.kak_world.specs.Editing.{edit_row, long_refusal, travel_row};
ghost use Rattle.kak_world.specs.Rows.{Answers};
ghost use Rattle.kak_world.specs.Seen.{with_seen, KeptIsQuiet};
ghost use Rattle.kak_world.specs.Stored.{nothing_since};

use crate::ask::EditError;
use crate::buffer::WorldBuffer;
use crate::turn::Turn;
use crate::world::World;
use buffer_store::Splice;
use kak_text::Shift;
use list_shelf::Holder;
use regex_ports::Pattern;
use std::alloc::Global;
use undo_model::Travel;

// Commits a client's pending group in a buffer, where there is one.
fn commit_in(slot: &mut Option<WorldBuffer>, who: u32)
    ensures { slot.new ≡ option_map (with_seen (committed_for who)) slot.old }
{
    match slot {
        None => {}
        Some(buffer) => buffer.commit(who),
    }
}

// Commits a client's pending group in each buffer.
fn commit_all(buffers: &mut Vec<Option<WorldBuffer>>, who: u32)
    ensures { buffers.new.items ≡ map (option_map (with_seen (committed_for who))) buffers.old.items }
{
    for n in 0..buffers.len() {
        commit_in(&mut buffers[n], who);
    }
}

// Whether a client's changes are pending in a buffer, where there is one.
fn is_pending(slot: &Option<WorldBuffer>) -> bool
    ensures { result ≡ false → KeptIsQuiet slot.now }
{
    match slot {
        None => false,
        Some(buffer) => buffer.is_pending(),
    }
}

// Whether a client's changes are pending in a buffer.
fn any_pending(buffers: &[Option<WorldBuffer>]) -> bool
    ensures { result ≡ false → AllByRecursion KeptIsQuiet buffers.now }
{
    for slot in buffers {
        if is_pending(slot) {
            return true;
        }
    }
    false
}

// Whether something may have become of a buffer since the step began, behind a change of one of them.
fn differs_behind(may_differ: bool, buffer: &WorldBuffer) -> bool
    ensures { result ≡ false → (may_differ ≡ false) × (buffer.now.since ≡ nothing_since) }
{
    if may_differ {
        return true;
    }
    !buffer.is_calm()
}

impl<P: Pattern, T: Turn> World<P, T> {
    /// Makes the replacements of a client whose turn it is in the text that it sees, from the first to the last, and gives the
    /// shifts of the single changes. Each single change moves every list on that text, whoever holds it. `UndoFull` and `TextFull` leave the world;
    /// after want of memory it is as it is behind some of the single changes, from the first on.
    pub fn edit(
        &mut self,
        alloc: Global,
        who: u32,
        splices: &[Splice],
    ) -> Result<Vec<Shift>, EditError>
        requires acts { acts who self.old.flat ≡ true }
        requires splices { AreSplicesOf (text_of who self.old.flat) splices.now }
        ensures row { Answers result self.new.flat (edit_row (flat_splices (text_of who self.old.flat) splices.now) who self.old.flat) }
        ensures edits { OnOk result (self.new.flat ≡ edited_by (flat_splices (text_of who self.old.flat) splices.now) who self.old.flat) }
        ensures shifts { IfOk result (λ shifts. shifts.items ≡ change_shifts (text_of who self.old.flat) (changes_of (text_of who self.old.flat) splices.now)) }
        ensures steps { OnOk result (AreSteps (text_of who self.old.flat) (changes_of (text_of who self.old.flat) splices.now)) }
        ensures wanting { IsErrOf result NoMemory → IsAfterSomeChanges who (changes_of (text_of who self.old.flat) splices.now) self.old.flat self.new.flat }
    {
        self.may_pend = true;
        let n = self.clients.client(who).shown as usize;
        match &mut self.buffers[n] {
            None => unreachable!(),
            Some(buffer) => {
                let done = buffer.edit(alloc, who, splices);
                self.may_differ = differs_behind(self.may_differ, buffer);
                match done {
                    Ok(shifts) => Ok(shifts),
                    Err(error) => Err(EditError::from(error)),
                }
            }
        }
    }

    /// Why an edit of a client is refused that makes a change and gives a text that is too long.
    #[tactic(auto, unfolding(crate::specs::Editing::long_refusal, crate::specs::Flat::story_of))]
    pub fn long_refusal(&self, who: u32) -> EditError
        requires { is_joined who self.now.flat ≡ true }
        ensures { result ≡ long_refusal who self.now.flat }
    {
        if self.shown(who).is_full_for(who) {
            EditError::UndoFull
        } else {
            EditError::TextFull
        }
    }

    /// Commits what is pending in the text that a client sees whose turn it is, and goes to another node of its undo tree. Each single change
    /// moves every list on that text, and the client's list is then the one that the changes leave. It is refused where there is no
    /// such node, by the name for that. After want of memory the text is as it is behind some of the single changes, from the first
    /// on: it counts as modified then, and its history is lost; where none was made, what was pending is committed. Or the whole
    /// move was made.
    pub fn travel(&mut self, alloc: Global, who: u32, travel: Travel) -> Result<(), EditError>
        requires { acts who self.old.flat ≡ true }
        ensures row { Answers result self.new.flat (travel_row travel who self.old.flat) }
        ensures wanting { IsErrOf result NoMemory → IsMoveCutIn who travel self.old.flat self.new.flat }
    {
        self.may_pend = true;
        let n = self.clients.client(who).shown as usize;
        match &mut self.buffers[n] {
            None => unreachable!(),
            Some(buffer) => {
                let done = buffer.travel(alloc, Holder::Of(who), travel);
                self.may_differ = differs_behind(self.may_differ, buffer);
                match done {
                    Ok(()) => Ok(()),
                    Err(error) => Err(EditError::from(error)),
                }
            }
        }
    }

    /// The number of the node that the text is at which a client sees, or will be at when what is pending is committed.
    pub fn node(&self, who: u32) -> u32
        requires { is_joined who self.now.flat ≡ true }
        ensures value { result ≡ node_number_of who self.now.flat }
        ensures few { result ≤ MAX_NODES }
    {
        self.shown(who).node()
    }

    /// Commits all pending groups of a client. Takes no memory, and looks at no buffer where none was changed since
    /// nothing was pending.
    pub fn commit(&mut self, who: u32)
        ensures { self.new.flat ≡ commits who self.old.flat }
    {
        if !self.may_pend {
            return;
        }
        commit_all(&mut self.buffers, who);
        self.may_pend = any_pending(self.buffers.as_slice());
    }
}
