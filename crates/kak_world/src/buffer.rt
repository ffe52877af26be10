//! A buffer: a text under a name, with the selection lists on it.

ghost use Rattle.std.specs.Prelude.{◌≡◌, ◌<◌, ◌≤◌, ◌+◌, ◌^◌, ◌↔◌, ◌⊎◌, true, false, is_some, length, None, Ok, Err, [], IfOk, IfErr, OnOk, OnErr, IsOk, IsErrOf, IsTrue};
ghost use Rattle.list_model.specs.Ranges.{Selected};
ghost use Rattle.selection_set.specs.Held.{selected, IsHeld};
ghost use Rattle.undo_model.specs.Steps.{AreSteps};
ghost use Rattle.undo_model.specs.declared.TheConstants.{MAX_NODES};
ghost use Rattle.undo_model.specs.Stories.{committed, is_undo_full, is_modified};
ghost use Rattle.kak_world.specs.Saving.{marked_as_saved, is_unsaved};
ghost use Rattle.undo_model.specs.Moves.{target_of, move_changes};
ghost use Rattle.undo_model.specs.Edits.{is_too_long};
ghost use Rattle.list_shelf.specs.declared.holder.Holder.TheVariants.{Of};
ghost use Rattle.list_shelf.specs.Shelves.{same_holder, has_room, row_of, entered, all_noted, all_moved, CanFollow, IsUp, KeepsUp, LeavesRows};
ghost use Rattle.buffer_store.specs.declared.errors.BufferError.TheVariants.{UndoFull, TextFull};
ghost use Rattle.buffer_store.specs.declared.errors.BufferError.TheVariants as edit;
ghost use Rattle.buffer_store.specs.declared.errors.MoveError.TheVariants as move;
ghost use Rattle.buffer_store.specs.Stored.{change_shifts};
ghost use Rattle.buffer_store.specs.Buffers.{AreSplicesOf, flat_splices, changes_of, refusal_of};
ghost use Rattle.kak_world.specs.Editing.{is_full_for};
ghost use Rattle.kak_world.specs.Flat.{has_list, list_on, with_list, listed_for, unlisted_for, committed_for};
ghost use Rattle.kak_world.specs.Settled.{ListsAreSettled};
ghost use Rattle.kak_world.specs.Dropping.{listed_for_viewers};
ghost use Rattle.kak_world.specs.Seen.{buffer_made, begun_in, with_seen, stored_of, and_then, CarriesValue};
ghost use Rattle.kak_world.specs.Stored.{nothing_since, since_behind, is_nobody, LeavesBut, Leaves};
ghost use Rattle.kak_world.specs.Changing.{buffer_edited, buffer_traveled, IsSomeEdited, IsCutMove};
ghost use Rattle.regex_select.specs.Known.{AreMatchesIn};

use crate::clients::Client;
use crate::lists::{add_first, add_for_viewers};
use crate::searched::SearchedText;
use crate::since::Since;
use buffer_store::{BufferError, MoveError, Splice};
use kak_text::{Chars, Shift};
use line_buffer::Lines;
use list_shelf::{Holder, Shelf, SliceLog};
use regex_select::KnownMatches;
use selection_set::Sels;
use std::alloc::{AllocError, Global};
use std::marker::Model;
use undo_model::Travel;
use window_view::Corner;

/// A text under a name, with its undo tree and the selection lists on it. A list goes through the changes of the text that it missed
/// when it is asked for. Contracts see each as if it had been moved at every change, settled and inside the text, and beside
/// that the lists as they are stored.
#[derive(Drop, Debug)]
pub struct WorldBuffer {
    name: Chars,
    is_file: bool,
    store: SearchedText,
    shelf: Shelf,
    since: Since,
}

impl Model for WorldBuffer {
    ghost use Rattle.kak_world.specs.Seen.{KeptBuffer, buffer_kept, IsShelfOf};

    ghost Value = { KeptBuffer };

    ghost view = { λ b. buffer_kept b.name b.is_file b.store b.shelf b.since };

    ghost invariant = { λ b. IsShelfOf b.store.text b.shelf };
}

// The first answer, but want of memory where that is well and the second isn't.
fn both(done: Result<(), BufferError>, noted: Result<(), AllocError>) -> Result<(), BufferError>
    ensures { result ≡ and_then edit.NoMemory done noted }
{
    match done {
        Ok(()) => match noted {
            Ok(()) => Ok(()),
            Err(_) => Err(BufferError::NoMemory),
        },
        Err(error) => Err(error),
    }
}

// These shifts where the answer is well, or else its error.
fn carrying(done: Result<(), BufferError>, shifts: Vec<Shift>) -> Result<Vec<Shift>, BufferError>
    ensures { CarriesValue done shifts result }
{
    match done {
        Ok(()) => Ok(shifts),
        Err(error) => Err(error),
    }
}

// A move that was made, but want of memory where that isn't well.
fn moved(noted: Result<(), AllocError>) -> Result<(), MoveError>
    ensures { result ≡ and_then move.NoMemory (Ok tt) noted }
{
    match noted {
        Ok(()) => Ok(()),
        Err(_) => Err(MoveError::NoMemory),
    }
}

// Notes the shifts of changes that a holder made, and brings its list up to date, as the shelf does; no memory is wanting where there
// are none.
fn note_for(shelf: &mut Shelf, holder: Holder, shifts: &[Shift]) -> Result<(), AllocError>
    requires { CanFollow shelf.old shifts.now }
    ensures ok { OnOk result (shelf.new ≡ entered holder (all_noted shifts.now shelf.old)) }
    ensures err { OnErr result (shelf.new ≡ entered holder (all_moved shifts.now shelf.old)) }
    ensures none { shifts.now ≡ [] → IsOk result }
{
    if shifts.is_empty() {
        shelf.enter(holder);
        return Ok(());
    }
    shelf.note_for(holder, shifts)
}

impl WorldBuffer {
    /// A buffer with a text that counts as saved, and nobody's list on it.
    pub fn new(
        alloc: Global,
        name: Chars,
        is_file: bool,
        lines: Lines,
    ) -> Result<WorldBuffer, AllocError>
        ensures { IfOk result (λ b. b ≡ buffer_made name is_file lines) }
    {
        Ok(WorldBuffer {
            name,
            is_file,
            store: SearchedText::new(alloc, lines)?,
            shelf: Shelf::new(alloc),
            since: Since::just_opened(),
        })
    }

    /// Its name.
    pub fn name(&self) -> &[char]
        ensures { result.now ≡ self.now.seen.name }
    {
        self.name.as_slice()
    }

    /// Whether its name is a file's.
    pub fn is_file(&self) -> bool
        ensures { result ≡ self.now.seen.is_file }
    {
        self.is_file
    }

    /// Whether its text may differ from what was saved.
    pub fn is_modified(&self) -> bool
        ensures { result ≡ is_modified self.now.seen.story }
    {
        self.store.modified()
    }

    /// Whether what was changed would be lost: its name is a file's, and its text may differ from what was saved.
    pub fn is_unsaved(&self) -> bool
        ensures { result ≡ is_unsaved self.now.seen }
    {
        self.is_file && self.store.modified()
    }

    /// Commits what is pending, whoever's it is; its text counts as saved then, and its name is a file's. Takes no memory.
    pub fn mark_saved(&mut self)
        ensures { self.new ≡ with_seen marked_as_saved self.old }
    {
        self.store.set_saved();
        self.is_file = true;
    }

    /// Its text.
    pub fn lines(&self) -> &Lines
        ensures { result.now ≡ self.now.seen.story.text }
    {
        self.store.lines()
    }

    /// What is known of the matches in its text of the pattern that was searched for last.
    pub fn known_matches(&self) -> &KnownMatches
        ensures { AreMatchesIn self.now.seen.story.text result.now }
    {
        self.store.known_matches()
    }

    /// Lets something else be known of matches in its text, of which contracts see nothing.
    pub fn know_matches(&mut self, known: KnownMatches)
        requires { AreMatchesIn self.old.seen.story.text known }
        ensures { self.new ≡ self.old }
    {
        self.store.know_matches(known);
    }

    /// A law: each list on it is settled, and lies inside its text.
    pub fn lists_are_settled(&self)
        ensures { ListsAreSettled self.now.seen }
    {
        let _shelf = &self.shelf;
    }

    /// Whether a holder has a list on it.
    pub fn has_list(&self, holder: Holder) -> bool
        ensures { result ≡ has_list holder self.now.seen }
    {
        self.shelf.has_list(holder)
    }

    /// The stamp at which a holder's list stands: that of the first change that it has yet to go through.
    pub fn stamp(&self, holder: Holder) -> u64
        requires { has_list holder self.now.seen ≡ true }
        ensures { result ≡ (row_of holder self.now.shelf).lag.stamp }
    {
        self.shelf.stamp(holder)
    }

    /// The shifts of the changes that some list has yet to go through.
    pub fn log(&self) -> &SliceLog
        ensures { result.now ≡ self.now.shelf.log }
    {
        self.shelf.log()
    }

    /// A holder's selections, which are up to date: a settled list inside the text.
    pub fn sels(&self, holder: Holder) -> &Sels
        requires list { has_list holder self.now.seen ≡ true }
        requires up { IsUp holder self.now.shelf }
        ensures sels { (list_on holder self.now.seen).sels ≡ selected self.now.seen.story.text result.now }
        ensures held { IsHeld self.now.seen.story.text result.now }
    {
        self.shelf.sels(holder)
    }

    /// How many selections a holder has. Its list is left as it is stored. An `Err` is want of memory.
    pub fn sel_count(&self, alloc: Global, holder: Holder) -> Result<usize, AllocError>
        requires { has_list holder self.now.seen ≡ true }
        ensures { IfOk result (λ count. count ≡ length (list_on holder self.now.seen).sels.list) }
    {
        let sels = self.shelf.copy_of(alloc, holder)?;
        Ok(sels.len())
    }

    /// Where a holder's window on it stands.
    pub fn corner(&self, holder: Holder) -> Corner
        requires { has_list holder self.now.seen ≡ true }
        ensures { result ≡ (list_on holder self.now.seen).corner }
    {
        self.shelf.corner(holder)
    }

    /// Whether nothing became of it since the step began.
    pub(crate) fn is_calm(&self) -> bool
        ensures { IsTrue result → self.now.since ≡ nothing_since }
    {
        self.since.is_nothing()
    }

    /// A step begins: nothing became of it since.
    pub fn begin_step(&mut self)
        ensures { self.new ≡ begun_in self.old }
    {
        self.since = Since::nothing();
    }

    /// Brings a holder's list up to date, where it has one, and drops what no list has yet to go through then. All other lists
    /// are left as they are stored. Takes no memory.
    pub fn enter(&mut self, holder: Holder)
        ensures seen { self.new.seen ≡ self.old.seen }
        ensures shelf { self.new.shelf ≡ entered holder self.old.shelf }
        ensures up { IsUp holder self.new.shelf }
        ensures stays { LeavesBut (same_holder holder) (stored_of self.old) (stored_of self.new) }
    {
        self.shelf.enter(holder);
    }

    /// Gives a holder other selections: a settled list inside the text.
    pub fn set_sels(&mut self, holder: Holder, sels: Sels)
        requires list { has_list holder self.old.seen ≡ true }
        requires held { IsHeld self.old.seen.story.text sels }
        ensures seen { self.new.seen ≡ with_list holder (λ held. record held { sels = selected self.old.seen.story.text sels }) self.old.seen }
        ensures up { KeepsUp self.old.shelf self.new.shelf }
        ensures stays { LeavesBut (same_holder holder) (stored_of self.old) (stored_of self.new) }
    {
        self.shelf.set_sels(holder, sels);
        self.shelf.trim();
    }

    /// Makes the n-th selection of a holder, whose list is up to date, its main one.
    pub fn set_main(&mut self, holder: Holder, n: usize)
        requires list { has_list holder self.old.seen ≡ true }
        requires up { IsUp holder self.old.shelf }
        requires there { n < length (list_on holder self.old.seen).sels.list }
        ensures seen { self.new.seen ≡ with_list holder (λ held. record held { sels = record { list = (list_on holder self.old.seen).sels.list; main = n } }) self.old.seen }
        ensures up { KeepsUp self.old.shelf self.new.shelf }
        ensures stays { LeavesBut (same_holder holder) (stored_of self.old) (stored_of self.new) }
    {
        self.shelf.set_main(holder, n);
    }

    /// Lets a holder's window on it stand elsewhere.
    pub fn set_corner(&mut self, holder: Holder, corner: Corner)
        requires { has_list holder self.old.seen ≡ true }
        ensures seen { self.new.seen ≡ with_list holder (λ held. record held { corner = corner }) self.old.seen }
        ensures up { KeepsUp self.old.shelf self.new.shelf }
        ensures stays { LeavesBut (same_holder holder) (stored_of self.old) (stored_of self.new) }
    {
        self.shelf.set_corner(holder, corner);
    }

    /// Gives a holder that has no list on it the one to begin with. An `Err` leaves the buffer.
    pub fn add_list(&mut self, alloc: Global, holder: Holder) -> Result<(), AllocError>
        ensures ok { OnOk result (self.new.seen ≡ listed_for holder self.old.seen) }
        ensures up { OnOk result (KeepsUp self.old.shelf self.new.shelf) }
        ensures stays { OnOk result (LeavesBut is_nobody (stored_of self.old) (stored_of self.new)) }
        ensures err { OnErr result (self.new ≡ self.old) }
    {
        add_first(&mut self.shelf, alloc, self.store.lines(), holder)
    }

    /// Gives each client that sees the buffer of a number, and has no list on this one, the one to begin with. An `Err`
    /// leaves the buffer.
    pub fn list_viewers(
        &mut self,
        alloc: Global,
        n: u32,
        clients: &[Client],
    ) -> Result<(), AllocError>
        ensures ok { OnOk result (self.new.seen ≡ listed_for_viewers n clients.now self.old.seen) }
        ensures up { OnOk result (KeepsUp self.old.shelf self.new.shelf) }
        ensures stays { OnOk result (LeavesBut is_nobody (stored_of self.old) (stored_of self.new)) }
        ensures err { OnErr result (self.new ≡ self.old) }
    {
        add_for_viewers(&mut self.shelf, alloc, self.store.lines(), n, clients)
    }

    /// Takes a holder's lists off it. Takes no memory.
    pub fn drop_lists(&mut self, holder: Holder)
        ensures seen { self.new.seen ≡ unlisted_for holder self.old.seen }
        ensures up { KeepsUp self.old.shelf self.new.shelf }
        ensures stays { LeavesBut (same_holder holder) (stored_of self.old) (stored_of self.new) }
    {
        self.shelf.drop_lists(holder);
        self.shelf.trim();
    }

    /// Commits a client's pending group, if there is one. Takes no memory.
    pub fn commit(&mut self, who: u32)
        ensures { self.new ≡ with_seen (committed_for who) self.old }
    {
        self.store.commit(who);
    }

    /// Whether a client's changes are pending.
    pub fn is_pending(&self) -> bool
        ensures { result ≡ is_some self.now.seen.story.group }
    {
        self.store.owner().is_some()
    }

    /// Whether the undo tree has no place for a group that a client would begin.
    pub fn is_full_for(&self, who: u32) -> bool
        ensures { result ≡ is_full_for who self.now.seen.story }
    {
        self.store.is_full_for(who)
    }

    /// The number of the node that the text is at, or will be at when what is pending is committed.
    pub fn node(&self) -> u32
        ensures value { result ≡ (committed self.now.seen.story).current }
        ensures few { result ≤ MAX_NODES }
    {
        self.store.is_story();
        match self.store.owner() {
            None => self.store.node(),
            Some(_) => self.store.nodes(),
        }
    }

    /// Makes a client's replacements, from the first to the last, and gives the shifts of the single changes, each of
    /// which moves every list. The client's own is up to date then; others are left as they are stored, while the log has room.
    /// `UndoFull` and `TextFull` leave the text and what each list is; after want of memory it is as it is behind
    /// some of the single changes, from the first on.
    pub fn edit(
        &mut self,
        alloc: Global,
        who: u32,
        splices: &[Splice],
    ) -> Result<Vec<Shift>, BufferError>
        requires { AreSplicesOf self.old.seen.story.text splices.now }
        ensures ok { OnOk result (self.new.seen ≡ buffer_edited who (changes_of self.old.seen.story.text splices.now) self.old.seen) }
        ensures shifts { IfOk result (λ shifts. shifts.items ≡ change_shifts self.old.seen.story.text (changes_of self.old.seen.story.text splices.now)) }
        ensures steps { OnOk result (AreSteps self.old.seen.story.text (changes_of self.old.seen.story.text splices.now)) }
        ensures undo_full { IsErrOf result UndoFull ↔ (is_undo_full who (changes_of self.old.seen.story.text splices.now) self.old.seen.story ≡ true) }
        ensures text_full { IsErrOf result TextFull ↔ ((is_undo_full who (changes_of self.old.seen.story.text splices.now) self.old.seen.story ≡ false)
            × (is_too_long (length self.old.seen.story.text) self.old.seen.story.text (flat_splices self.old.seen.story.text splices.now) ≡ true)) }
        ensures undo_left { IsErrOf result UndoFull → self.new.seen ≡ self.old.seen }
        ensures text_left { IsErrOf result TextFull → self.new.seen ≡ self.old.seen }
        ensures err { OnErr result (IsSomeEdited who (changes_of self.old.seen.story.text splices.now) self.old.seen self.new.seen) }
        ensures up { IsUp (Of who) self.new.shelf }
        ensures others { IfOk result (λ shifts. LeavesRows (Of who) (length shifts.items) self.old.shelf self.new.shelf) }
        ensures stays { Leaves (Of who) (stored_of self.old) (stored_of self.new) }
        ensures since { IfOk result (λ shifts. self.new.since ≡ since_behind (has_room (length shifts.items) self.old.shelf) self.old.since) }
        ensures refused { (IsErrOf result UndoFull ⊎ IsErrOf result TextFull) → self.new.since ≡ self.old.since }
    {
        self.store.is_story();
        let mut shifts = Vec::new(alloc);
        let done = self.store.edit(alloc, who, splices, &mut shifts);
        let has_room = self.shelf.has_room(shifts.len());
        let noted = note_for(&mut self.shelf, Holder::Of(who), shifts.as_slice());
        self.since = self.since.behind(has_room, &noted);
        carrying(both(done, noted), shifts)
    }

    /// Commits what is pending, and goes to another node of the undo tree: each single change moves every list, and the
    /// holder's list is then the one that the changes leave. Where there is no such node it is refused, by the name for
    /// that. After want of memory the text is as it is behind some of the single changes, from the first on: it counts as
    /// modified then, and its history is lost; where none was made, what was pending is committed. Or the whole move was made,
    /// and memory was wanting to note it.
    pub fn travel(&mut self, alloc: Global, holder: Holder, travel: Travel) -> Result<(), MoveError>
        requires { has_list holder self.old.seen ≡ true }
        ensures ok { OnOk result (self.new.seen ≡ buffer_traveled holder travel self.old.seen) }
        ensures nowhere { target_of travel self.old.seen.story ≡ None → (result ≡ Err (refusal_of travel)) × (self.new.seen ≡ buffer_traveled holder travel self.old.seen) }
        ensures refused { IfErr result (λ e. (e ≡ move.NoMemory) ⊎ (target_of travel self.old.seen.story ≡ None)) }
        ensures err { OnErr result (IsCutMove holder travel self.old.seen self.new.seen) }
        ensures up { IsUp holder self.new.shelf }
        ensures others { OnOk result (LeavesRows holder (length (move_changes travel self.old.seen.story)) self.old.shelf self.new.shelf) }
        ensures stays { Leaves holder (stored_of self.old) (stored_of self.new) }
        ensures since { OnOk result (self.new.since ≡
            since_behind (has_room (length (move_changes travel self.old.seen.story)) self.old.shelf) self.old.since) }
        ensures still { target_of travel self.old.seen.story ≡ None → self.new.since ≡ self.old.since }
    {
        self.store.is_story();
        let mut shifts = Vec::new(alloc);
        let left = self.store.travel(alloc, travel, &mut shifts);
        let has_room = self.shelf.has_room(shifts.len());
        let noted = note_for(&mut self.shelf, holder, shifts.as_slice());
        self.since = self.since.behind(has_room, &noted);
        match left {
            Ok(Some(sels)) => {
                self.set_sels(holder, sels);
                moved(noted)
            }
            Ok(None) => moved(noted),
            Err(error) => Err(error),
        }
    }
}
