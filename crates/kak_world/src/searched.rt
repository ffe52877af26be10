//! A text with its undo tree, and what is known of the matches in it of the pattern that was searched for last.

ghost use Rattle.std.specs.Prelude.{◌≡◌, ◌↔◌, ◌⊎◌, not, ◌&&◌, nat_le, true, false, [], None, length, option_map, IfOk, IfErr, OnOk, OnErr, IsErrOf};
ghost use Rattle.undo_model.specs.Kept.{IsStory};
ghost use Rattle.undo_model.specs.Stories.{opened, is_own, nodes_due, committed_by, is_modified, is_undo_full, marked_saved};
ghost use Rattle.undo_model.specs.declared.TheConstants.{MAX_NODES};
ghost use Rattle.undo_model.specs.Edits.{is_too_long};
ghost use Rattle.undo_model.specs.Moves.{target_of, moved_by, move_changes};
ghost use Rattle.buffer_store.specs.declared.errors.BufferError.TheVariants.{UndoFull, TextFull};
ghost use Rattle.buffer_store.specs.declared.errors.MoveError.TheVariants.{NoMemory};
ghost use Rattle.buffer_store.specs.Stored.{change_shifts};
ghost use Rattle.buffer_store.specs.Buffers.{AreSplicesOf, flat_splices, changes_of, IsEdited, refusal_of, AreLeftBy, IsRefusedMove, IsBroken};
ghost use Rattle.regex_select.specs.Known.{AreMatchesIn};

use buffer_store::{Buffer as Store, BufferError, MoveError, Splice};
use kak_text::Shift;
use line_buffer::Lines;
use regex_select::KnownMatches;
use selection_set::Sels;
use std::alloc::{AllocError, Global};
use std::marker::Model;
use undo_model::Travel;

/// A text with its undo tree, and what is known of the matches in it of the pattern that was searched for last. That is forgotten
/// with each change of the text. Contracts see the text's story alone.
#[derive(Drop, Debug)]
pub(crate) struct SearchedText {
    store: Store,
    known: KnownMatches,
}

impl Model for SearchedText {
    ghost use Rattle.undo_model.specs.Stories.{Story};
    ghost use Rattle.regex_select.specs.Known.{AreMatchesIn};

    ghost Value = { Story };

    ghost view = { λ t. t.store };

    ghost invariant = { λ t. AreMatchesIn t.store.text t.known };
}

impl SearchedText {
    /// A text that counts as saved, with no matches that are known.
    pub(crate) fn new(alloc: Global, lines: Lines) -> Result<SearchedText, AllocError>
        ensures { IfOk result (λ t. t ≡ opened lines) }
    {
        Ok(SearchedText {
            store: Store::new(alloc, lines)?,
            known: KnownMatches::nothing(alloc),
        })
    }

    /// What is known of the matches of the pattern that was searched for last.
    pub(crate) fn known_matches(&self) -> &KnownMatches
        ensures { AreMatchesIn self.now.text result.now }
    {
        &self.known
    }

    /// Lets something else be known of matches in it.
    pub(crate) fn know_matches(&mut self, known: KnownMatches)
        requires { AreMatchesIn self.old.text known }
        ensures { self.new ≡ self.old }
    {
        self.known = known;
    }

    /// The text.
    pub(crate) fn lines(&self) -> &Lines
        ensures { result.now ≡ self.now.text }
    {
        self.store.lines()
    }

    /// The number of the node that the text was last at.
    pub(crate) fn node(&self) -> u32
        ensures { result ≡ self.now.current }
    {
        self.store.node()
    }

    /// How many nodes there are.
    pub(crate) fn nodes(&self) -> u32
        ensures { result ≡ length self.now.nodes }
    {
        self.store.nodes()
    }

    /// Whose changes are pending, if any are.
    pub(crate) fn owner(&self) -> Option<u32>
        ensures { result ≡ option_map (λ g. g.owner) self.now.group }
    {
        self.store.owner()
    }

    /// Whether the tree has no place for a group that a client would begin.
    pub(crate) fn is_full_for(&self, who: u32) -> bool
        ensures { result ≡ (not (is_own who self.now.group) && nat_le MAX_NODES (nodes_due self.now)) }
    {
        self.store.is_full_for(who)
    }

    /// Whether the text may differ from what was saved.
    pub(crate) fn modified(&self) -> bool
        ensures { result ≡ is_modified self.now }
    {
        self.store.modified()
    }

    /// A law: what it tells is a story.
    pub(crate) fn is_story(&self)
        ensures { IsStory self.now }
    {
        self.store.is_story();
    }

    /// Commits a client's pending group, if there is one. The text stays, and so does what is known of it. Takes no memory.
    pub(crate) fn commit(&mut self, who: u32)
        ensures { self.new ≡ committed_by who self.old }
    {
        self.store.commit(who);
    }

    /// Commits the pending group, whoever's it is, and lets the current node count as saved. The text stays, and so does what is
    /// known of it. Takes no memory.
    pub(crate) fn set_saved(&mut self)
        ensures { self.new ≡ marked_saved self.old }
    {
        self.store.set_saved();
    }

    /// Makes the replacements of an edit as changes of a client, as a buffer does; what was known of matches is forgotten.
    pub(crate) fn edit(
        &mut self,
        alloc: Global,
        who: u32,
        splices: &[Splice],
        shifts: &mut Vec<Shift>,
    ) -> Result<(), BufferError>
        requires splices { AreSplicesOf self.old.text splices.now }
        requires none { shifts.old.items ≡ [] }
        ensures edits { IsEdited who (changes_of self.old.text splices.now) result self.old self.new shifts.new.items }
        ensures undo_full { IsErrOf result UndoFull ↔ (is_undo_full who (changes_of self.old.text splices.now) self.old ≡ true) }
        ensures text_full { IsErrOf result TextFull ↔ ((is_undo_full who (changes_of self.old.text splices.now) self.old ≡ false)
            × (is_too_long (length self.old.text) self.old.text (flat_splices self.old.text splices.now) ≡ true)) }
        ensures undo_left { IsErrOf result UndoFull → (self.new ≡ self.old) × (shifts.new.items ≡ []) }
        ensures text_left { IsErrOf result TextFull → (self.new ≡ self.old) × (shifts.new.items ≡ []) }
    {
        let done = self.store.edit(alloc, who, splices, shifts);
        self.known = KnownMatches::nothing(alloc);
        done
    }

    /// Commits the pending group, and goes to another node of the tree, as a buffer does; what was known of matches is forgotten.
    pub(crate) fn travel(
        &mut self,
        alloc: Global,
        travel: Travel,
        shifts: &mut Vec<Shift>,
    ) -> Result<Option<Sels>, MoveError>
        requires { shifts.old.items ≡ [] }
        ensures ok { OnOk result (self.new ≡ moved_by travel self.old) }
        ensures shifts { OnOk result (shifts.new.items ≡ change_shifts self.old.text (move_changes travel self.old)) }
        ensures left { IfOk result (AreLeftBy self.old.text (move_changes travel self.old)) }
        ensures nowhere { target_of travel self.old ≡ None → IsRefusedMove travel result self.old self.new shifts.new.items }
        ensures refused { IfErr result (λ e. (e ≡ NoMemory) ⊎ (target_of travel self.old ≡ None)) }
        ensures broken { OnErr result (IsBroken (move_changes travel self.old) self.old self.new shifts.new.items) }
    {
        let left = self.store.travel(alloc, travel, shifts);
        self.known = KnownMatches::nothing(alloc);
        left
    }
}
