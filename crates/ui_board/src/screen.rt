//! The user interface that reports what stands on the screen.

ghost use Rattle.std.specs.Prelude.{◌≡◌, [], ◌∷◌, ◌++◌, string_bytes, IfOk, OnOk, OnErr};
ghost use Rattle.text_model.specs.Changes.{ended};
ghost use Rattle.ui_board.specs.Screens.{contents_of, screen_line_bytes, screen_bytes};
ghost use Rattle.ui_board.specs.declared.ui.Kind.TheVariants.{Screen};
ghost use Rattle.ui_board.specs.Told.{Drawn};

use crate::notes::{Note, Notes};
use crate::ui::{Kind, Ui};
use compact_chars::CharsRef;
use drawings::{Atom, Drawing, DrawnLine, Refusal};
use std::alloc::{AllocError, Global};
use std::marker::Model;
use std::snapshot::Snapshot;

/// A user interface that reports what stands on the screen at the end: the lines of the last drawing. Contracts see the list
/// of all that it was told.
#[derive(Drop)]
pub struct ScreenUi {
    notes: Notes,
    // the lines of the last drawing
    text: String,
}

impl Model for ScreenUi {
    ghost use Rattle.std.specs.Prelude.{◌≡◌, List, string_bytes};
    ghost use Rattle.ui_board.specs.Told.{Told, screen_text};

    ghost Value = { List Told };

    ghost view = { λ u. u.notes };

    ghost invariant = { λ u. string_bytes u.text ≡ screen_text u.notes };
}

impl ScreenUi {
    /// One that was told nothing yet; takes no memory.
    pub fn new(alloc: Global) -> ScreenUi
        ensures { result ≡ [] }
    {
        ScreenUi {
            notes: Notes::new(alloc),
            text: String::new(alloc),
        }
    }
}

impl Ui for ScreenUi {
    ghost shown = { λ u. record { kind = Screen; told = u } };

    fn kind(&self) -> Kind {
        Kind::Screen
    }

    fn is_new(&self) -> bool {
        self.notes.is_empty()
    }

    fn show(&mut self, alloc: Global, drawing: &Drawing) -> Result<(), AllocError> {
        take_drawing(alloc, &mut self.notes, &mut self.text, drawing)?;
        Ok(())
    }

    fn refuse(&mut self, _alloc: Global, refusal: Refusal) -> Result<(), AllocError> {
        self.notes.push(Note::OfRefusal(refusal))?;
        Ok(())
    }

    fn report(&self, alloc: Global) -> Result<Vec<u8>, AllocError> {
        Vec::from_slice(alloc, self.text.as_bytes())
    }
}

// Notes a drawing, and has its lines take the place of what stood on the screen. After an error all is as it was.
fn take_drawing(
    alloc: Global,
    notes: &mut Notes,
    text: &mut String,
    drawing: &Drawing,
) -> Result<(), AllocError>
    ensures noted { OnOk result (notes.new ≡ notes.old ++ Drawn drawing.now ∷ []) }
    ensures shown { OnOk result (string_bytes text.new ≡ screen_bytes drawing.now.lines) }
    ensures not_noted { OnErr result (notes.new ≡ notes.old) }
    ensures not_shown { OnErr result (string_bytes text.new ≡ string_bytes text.old) }
{
    let new = screen_text(alloc, drawing.lines.as_slice())?;
    notes.push(Note::OfDrawing(Snapshot::of(drawing)))?;
    *text = new;
    Ok(())
}

// The characters of atoms, in order.
fn contents_of(alloc: Global, atoms: &[Atom]) -> Result<Vec<char>, AllocError>
    ensures { IfOk result (λ chars. chars.items ≡ contents_of atoms.now) }
{
    let mut chars = Vec::new(alloc);
    for atom in atoms {
        chars.extend_from_slice(atom.contents.as_slice())?;
    }
    Ok(chars)
}

// Characters with a newline behind them, where they don't end in one.
fn ended(mut chars: Vec<char>) -> Result<Vec<char>, AllocError>
    ensures { IfOk result (λ new. new.items ≡ ended chars.items) }
{
    if chars.as_slice().last() == Some(&'\n') {
        return Ok(chars);
    }
    chars.push('\n')?;
    Ok(chars)
}

// Adds a line of the screen.
fn push_line(alloc: Global, text: &mut String, line: &DrawnLine) -> Result<(), AllocError>
    ensures { OnOk result (string_bytes text.new ≡ string_bytes text.old ++ screen_line_bytes line.now) }
{
    let chars = ended(contents_of(alloc, line.atoms.as_slice())?)?;
    CharsRef::Wide(chars.as_slice()).push_utf8(text)?;
    Ok(())
}

// What stands on a screen of these lines.
fn screen_text(alloc: Global, lines: &[DrawnLine]) -> Result<String, AllocError>
    ensures { IfOk result (λ text. string_bytes text ≡ screen_bytes lines.now) }
{
    let mut text = String::new(alloc);
    for line in lines {
        push_line(alloc, &mut text, line)?;
    }
    Ok(text)
}
