//! The user interface that reports nothing.

ghost use Rattle.std.specs.Prelude.{◌≡◌, []};
ghost use Rattle.ui_board.specs.declared.ui.Kind.TheVariants.{Silent};

use crate::notes::{Note, Notes};
use crate::ui::{Kind, Ui};
use drawings::{Drawing, Refusal};
use std::alloc::{AllocError, Global};
use std::marker::Model;
use std::snapshot::Snapshot;

/// A user interface that reports nothing. Contracts see the list of all that it was told.
#[derive(Drop)]
pub struct SilentUi {
    notes: Notes,
}

impl Model for SilentUi {
    ghost use Rattle.std.specs.Prelude.{List};
    ghost use Rattle.ui_board.specs.Told.{Told};

    ghost Value = { List Told };

    ghost view = { λ u. u.notes };
}

impl SilentUi {
    /// One that was told nothing yet; takes no memory.
    pub fn new(alloc: Global) -> SilentUi
        ensures { result ≡ [] }
    {
        SilentUi {
            notes: Notes::new(alloc),
        }
    }
}

impl Ui for SilentUi {
    ghost shown = { λ u. record { kind = Silent; told = u } };

    fn kind(&self) -> Kind {
        Kind::Silent
    }

    fn is_new(&self) -> bool {
        self.notes.is_empty()
    }

    fn show(&mut self, _alloc: Global, drawing: &Drawing) -> Result<(), AllocError> {
        self.notes.push(Note::OfDrawing(Snapshot::of(drawing)))
    }

    fn refuse(&mut self, _alloc: Global, refusal: Refusal) -> Result<(), AllocError> {
        self.notes.push(Note::OfRefusal(refusal))
    }

    fn report(&self, alloc: Global) -> Result<Vec<u8>, AllocError> {
        Ok(Vec::new(alloc))
    }
}
