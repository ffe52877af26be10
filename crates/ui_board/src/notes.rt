//! What a box was told, in order. A note of a drawing takes a few bytes: the drawing itself is known to contracts alone.

ghost use Rattle.std.specs.Prelude.{◌≡◌, ◌==◌, [], ◌∷◌, ◌++◌, length, OnOk, OnErr};
ghost use Rattle.ui_board.specs.Notes.{told_of};

use drawings::{Drawing, Refusal};
use std::alloc::{AllocError, Global};
use std::marker::Model;
use std::snapshot::Snapshot;

/// One thing that a box was told.
#[derive(Drop)]
pub enum Note {
    /// This was drawn.
    OfDrawing(Snapshot<Drawing>),
    /// A line was refused.
    OfRefusal(Refusal),
}

/// All that a box was told. Contracts see the list of it.
#[derive(Drop)]
pub struct Notes {
    items: Vec<Note>,
}

impl Model for Notes {
    ghost use Rattle.std.specs.Prelude.{List, map};
    ghost use Rattle.ui_board.specs.Told.{Told};

    ghost Value = { List Told };

    ghost use Rattle.ui_board.specs.Notes.{told_of};

    ghost view = { λ n. map told_of n.items.items };
}

impl Notes {
    /// No notes; takes no memory.
    pub fn new(alloc: Global) -> Notes
        ensures { result ≡ [] }
    {
        Notes {
            items: Vec::new(alloc),
        }
    }

    /// Whether there is no note.
    pub fn is_empty(&self) -> bool
        ensures { result ≡ (length self.now == 0) }
    {
        self.items.is_empty()
    }

    /// Adds a note at the end. After an error the notes are as they were.
    pub fn push(&mut self, note: Note) -> Result<(), AllocError>
        ensures ok { OnOk result (self.new ≡ self.old ++ told_of note ∷ []) }
        ensures err { OnErr result (self.new ≡ self.old) }
    {
        self.items.push(note)?;
        Ok(())
    }
}
