//! What a buffer keeps of its story, and the calls that reach the fields.

ghost use Rattle.std.specs.Prelude.{◌≡◌, ℕ, ◌<◌, ◌≤◌, ◌&&◌, not, nat_le, length, option_map, IfOk};
ghost use Rattle.undo_model.specs.declared.TheConstants.{MAX_NODES};
ghost use Rattle.undo_model.specs.Stories.{opened, is_own, nodes_due, committed, is_modified, marked_saved};
ghost use Rattle.undo_model.specs.Kept.{IsStory};

use crate::changing::commit;
use change_list::Change;
use line_buffer::Lines;
use std::alloc::{AllocError, Global};
use std::marker::Model;
use undo_model::MAX_NODES;

/// What is kept of a node: its parent, its heir, and the changes from its parent's text.
#[derive(Drop, Debug)]
pub(crate) struct Branch {
    pub(crate) parent: u32,
    pub(crate) heir: Option<u32>,
    pub(crate) changes: Vec<Change>,
}

impl Model for Branch {
    ghost use Rattle.buffer_store.specs.Seen.{Branch as SeenBranch};

    ghost Value = { SeenBranch };

    ghost view = { λ b. record { parent = b.parent; heir = b.heir; changes = b.changes.items } };
}

/// What is kept of a pending group: whose it is, and its changes.
#[derive(Drop, Debug)]
pub(crate) struct Pending {
    pub(crate) owner: u32,
    pub(crate) changes: Vec<Change>,
}

/// A text with its undo tree. Of the tree the changes from node to node are kept, and no text but the one that stands.
#[derive(Drop, Debug)]
pub(crate) struct History {
    pub(crate) lines: Lines,
    pub(crate) branches: Vec<Branch>,
    pub(crate) current: u32,
    pub(crate) saved: u32,
    // where a group is pending, there is room for its branch
    pub(crate) pending: Option<Pending>,
}

impl Model for History {
    ghost use Rattle.std.specs.Prelude.{vec_len, vec_capacity};
    ghost use Rattle.undo_model.specs.Stories.{Story};

    ghost Value = { Story };

    ghost use Rattle.buffer_store.specs.Seen.{story_kept};
    ghost use Rattle.buffer_store.specs.Histories.{seen_pending, IsHistory};

    ghost view = { λ h. story_kept h.lines h.branches.items h.current h.saved (seen_pending h.pending) };

    ghost invariant = { λ h. IsHistory h.lines h.branches.items h.current h.saved (seen_pending h.pending) (vec_len h.branches) (vec_capacity h.branches) };
}

impl History {
    /// The history of a text that was just opened.
    pub(crate) fn new(alloc: Global, lines: Lines) -> Result<History, AllocError>
        ensures { IfOk result (λ h. h ≡ opened lines) }
    {
        // its contract says that the text is one that can be kept
        let _stored = lines.len();
        let mut branches = Vec::new(alloc);
        branches.push(Branch {
            parent: 0,
            heir: None,
            changes: Vec::new(alloc),
        })?;
        Ok(History {
            lines,
            branches,
            current: 0,
            saved: 0,
            pending: None,
        })
    }

    /// The text.
    pub(crate) fn lines(&self) -> &Lines
        ensures { result.now ≡ self.now.text }
    {
        &self.lines
    }

    /// The number of the node that the text was last at.
    pub(crate) fn current(&self) -> u32
        ensures { result ≡ self.now.current }
    {
        self.current
    }

    /// How many nodes there are.
    pub(crate) fn nodes(&self) -> u32
        ensures { result ≡ length self.now.nodes }
    {
        self.branches.len() as u32
    }

    /// Whose changes are pending, if any are.
    pub(crate) fn owner(&self) -> Option<u32>
        ensures { result ≡ option_map (λ g. g.owner) self.now.group }
    {
        match &self.pending {
            Some(group) => Some(group.owner),
            None => None,
        }
    }

    /// Whether a client's changes are pending.
    pub(crate) fn is_own(&self, who: u32) -> bool
        ensures { result ≡ is_own who self.now.group }
    {
        match &self.pending {
            Some(group) => group.owner == who,
            None => false,
        }
    }

    /// Whether a group that a client would begin has no room in the tree.
    pub(crate) fn is_full_for(&self, who: u32) -> bool
        ensures { result ≡ (not (is_own who self.now.group) && nat_le MAX_NODES (nodes_due self.now)) }
    {
        let nodes = self.branches.len();
        match &self.pending {
            Some(group) => group.owner != who && nodes + 1 >= MAX_NODES,
            None => nodes >= MAX_NODES,
        }
    }

    /// Whether the text may differ from what was saved.
    pub(crate) fn modified(&self) -> bool
        ensures { result ≡ is_modified self.now }
    {
        self.pending.is_some() || self.current != self.saved
    }

    /// A law: a history tells a story.
    pub(crate) fn is_story(&self)
        ensures { IsStory self.now }
    {
        let _ = &self.branches;
    }

    /// Commits the pending group, whoever's it is. Takes no memory.
    pub(crate) fn commit(&mut self)
        ensures { self.new ≡ committed self.old }
    {
        commit(&mut self.branches, &mut self.current, &mut self.pending);
    }

    /// Commits the pending group, and lets the current node count as saved. Takes no memory.
    pub(crate) fn set_saved(&mut self)
        ensures { self.new ≡ marked_saved self.old }
    {
        self.commit();
        self.saved = self.current;
    }
}
