//! The user interface that reports JSON lines.

ghost use Rattle.std.specs.Prelude.{◌≡◌, ◌≤◌, [], ◌∷◌, ◌++◌, length, take, IfOk, OnOk, OnErr};
ghost use Rattle.json_writing.specs.Drawings.{drawing_bytes};
ghost use Rattle.json_writing.specs.Refusals.{refusal_bytes};
ghost use Rattle.ui_board.specs.declared.ui.Kind.TheVariants.{Json};
ghost use Rattle.ui_board.specs.Told.{Drawn, Refused, told_bytes};
ghost use Rattle.ui_board.specs.Notes.{told_of};

use crate::notes::{Note, Notes};
use crate::ui::{Kind, Ui};
use drawings::{Drawing, Refusal};
use json_writing::{encode_drawing, encode_refusal};
use std::alloc::{AllocError, Global};
use std::marker::Model;
use std::snapshot::Snapshot;

/// A user interface that reports the JSON lines of all drawings and refusals, in order. Contracts see the list of all
/// that it was told.
#[derive(Drop)]
pub struct JsonUi {
    notes: Notes,
    // the lines of all that was told
    lines: Vec<u8>,
}

impl Model for JsonUi {
    ghost use Rattle.std.specs.Prelude.{◌≡◌, List};
    ghost use Rattle.ui_board.specs.Told.{Told, json_lines};

    ghost Value = { List Told };

    ghost view = { λ u. u.notes };

    ghost invariant = { λ u. u.lines.items ≡ json_lines u.notes };
}

impl JsonUi {
    /// One that was told nothing yet; takes no memory.
    pub fn new(alloc: Global) -> JsonUi
        ensures { result ≡ [] }
    {
        JsonUi {
            notes: Notes::new(alloc),
            lines: Vec::new(alloc),
        }
    }
}

impl Ui for JsonUi {
    ghost shown = { λ u. record { kind = Json; told = u } };

    fn kind(&self) -> Kind {
        Kind::Json
    }

    fn is_new(&self) -> bool {
        self.notes.is_empty()
    }

    fn show(&mut self, _alloc: Global, drawing: &Drawing) -> Result<(), AllocError> {
        add_drawing(&mut self.notes, &mut self.lines, drawing)?;
        Ok(())
    }

    fn refuse(&mut self, _alloc: Global, refusal: Refusal) -> Result<(), AllocError> {
        add_refusal(&mut self.notes, &mut self.lines, refusal)?;
        Ok(())
    }

    fn report(&self, alloc: Global) -> Result<Vec<u8>, AllocError> {
        Vec::from_slice(alloc, self.lines.as_slice())
    }
}

// Adds the lines of a drawing. After an error the lines are as they were.
fn add_drawing_lines(lines: &mut Vec<u8>, drawing: &Drawing) -> Result<(), AllocError>
    ensures ok { OnOk result (lines.new.items ≡ lines.old.items ++ drawing_bytes drawing.now) }
    ensures err { OnErr result (lines.new.items ≡ lines.old.items) }
{
    let before = lines.len();
    match encode_drawing(drawing, lines) {
        Ok(()) => Ok(()),
        Err(error) => {
            lines.truncate(before);
            Err(error)
        }
    }
}

// Adds the line of a refusal. After an error the lines are as they were.
fn add_refusal_line(lines: &mut Vec<u8>, refusal: Refusal) -> Result<(), AllocError>
    ensures ok { OnOk result (lines.new.items ≡ lines.old.items ++ refusal_bytes refusal) }
    ensures err { OnErr result (lines.new.items ≡ lines.old.items) }
{
    let before = lines.len();
    match encode_refusal(refusal, lines) {
        Ok(()) => Ok(()),
        Err(error) => {
            lines.truncate(before);
            Err(error)
        }
    }
}

// Adds a note whose lines were added behind the first `before` bytes. After an error the lines are those bytes again.
fn add_note(
    notes: &mut Notes,
    lines: &mut Vec<u8>,
    before: usize,
    note: Note,
) -> Result<(), AllocError>
    ensures noted { OnOk result (notes.new ≡ notes.old ++ told_of note ∷ []) }
    ensures kept { OnOk result (lines.new.items ≡ lines.old.items) }
    ensures not_noted { OnErr result (notes.new ≡ notes.old) }
    ensures cut { OnErr result (lines.new.items ≡ take before lines.old.items) }
{
    match notes.push(note) {
        Ok(()) => Ok(()),
        Err(error) => {
            lines.truncate(before);
            Err(error)
        }
    }
}

// Notes a drawing and adds its lines. After an error all is as it was.
fn add_drawing(notes: &mut Notes, lines: &mut Vec<u8>, drawing: &Drawing) -> Result<(), AllocError>
    ensures noted { OnOk result (notes.new ≡ notes.old ++ Drawn drawing.now ∷ []) }
    ensures added { OnOk result (lines.new.items ≡ lines.old.items ++ told_bytes (Drawn drawing.now)) }
    ensures not_noted { OnErr result (notes.new ≡ notes.old) }
    ensures not_added { OnErr result (lines.new.items ≡ lines.old.items) }
{
    let before = lines.len();
    add_drawing_lines(lines, drawing)?;
    add_note(notes, lines, before, Note::OfDrawing(Snapshot::of(drawing)))
}

// Notes a refusal and adds its line. After an error all is as it was.
fn add_refusal(notes: &mut Notes, lines: &mut Vec<u8>, refusal: Refusal) -> Result<(), AllocError>
    ensures noted { OnOk result (notes.new ≡ notes.old ++ Refused refusal ∷ []) }
    ensures added { OnOk result (lines.new.items ≡ lines.old.items ++ told_bytes (Refused refusal)) }
    ensures not_noted { OnErr result (notes.new ≡ notes.old) }
    ensures not_added { OnErr result (lines.new.items ≡ lines.old.items) }
{
    let before = lines.len();
    add_refusal_line(lines, refusal)?;
    add_note(notes, lines, before, Note::OfRefusal(refusal))
}
