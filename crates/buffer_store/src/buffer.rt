//! A buffer: a text with its undo tree.

ghost use Rattle.std.specs.Prelude.{◌≡◌, not, ◌&&◌, nat_le, length, option_map, IfOk};
ghost use Rattle.undo_model.specs.Stories.{opened, is_own, nodes_due, committed_by, is_modified, marked_saved};
ghost use Rattle.undo_model.specs.declared.TheConstants.{MAX_NODES};
ghost use Rattle.undo_model.specs.Kept.{IsStory};

use crate::history::History;
use line_buffer::Lines;
use std::alloc::{AllocError, Global};
use std::marker::Model;

/// A text with its undo tree.
#[derive(Drop, Debug)]
pub struct Buffer {
    pub(crate) history: History,
}

impl Model for Buffer {
    ghost use Rattle.undo_model.specs.Stories.{Story};

    ghost Value = { Story };

    ghost view = { λ b. b.history };
}

impl Buffer {
    /// A buffer with a text that counts as saved.
    pub fn new(alloc: Global, lines: Lines) -> Result<Buffer, AllocError>
        ensures { IfOk result (λ b. b ≡ opened lines) }
    {
        Ok(Buffer {
            history: History::new(alloc, lines)?,
        })
    }

    /// Its text.
    pub fn lines(&self) -> &Lines
        ensures { result.now ≡ self.now.text }
    {
        self.history.lines()
    }

    /// The number of the node that the text was last at.
    pub fn node(&self) -> u32
        ensures { result ≡ self.now.current }
    {
        self.history.current()
    }

    /// How many nodes there are.
    pub fn nodes(&self) -> u32
        ensures { result ≡ length self.now.nodes }
    {
        self.history.nodes()
    }

    /// Whose changes are pending, if any are.
    pub fn owner(&self) -> Option<u32>
        ensures { result ≡ option_map (λ g. g.owner) self.now.group }
    {
        self.history.owner()
    }

    /// Whether the tree has no place for a group that a client would begin.
    pub fn is_full_for(&self, who: u32) -> bool
        ensures { result ≡ (not (is_own who self.now.group) && nat_le MAX_NODES (nodes_due self.now)) }
    {
        self.history.is_full_for(who)
    }

    /// Whether the text may differ from what was saved.
    pub fn modified(&self) -> bool
        ensures { result ≡ is_modified self.now }
    {
        self.history.modified()
    }

    /// A law: what it tells is a story.
    pub fn is_story(&self)
        ensures { IsStory self.now }
    {
        self.history.is_story()
    }

    /// Commits a client's pending group; nothing where the pending group is another's, or none is. Takes no memory.
    pub fn commit(&mut self, who: u32)
        ensures { self.new ≡ committed_by who self.old }
    {
        if self.history.is_own(who) {
            self.history.commit();
        }
    }

    /// Commits the pending group, whoever's it is, and lets the current node count as saved. Takes no memory.
    pub fn set_saved(&mut self)
        ensures { self.new ≡ marked_saved self.old }
    {
        self.history.set_saved();
    }
}
