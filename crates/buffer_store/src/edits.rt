//! Edits of a buffer: replacements at several places at once.

ghost use Rattle.std.specs.Prelude.{◌≡◌, ◌↔◌, true, false, [], length, IsErrOf};
ghost use Rattle.undo_model.specs.Stories.{is_undo_full};
ghost use Rattle.undo_model.specs.Edits.{is_too_long};
ghost use Rattle.buffer_store.specs.declared.errors.BufferError.TheVariants.{UndoFull, TextFull};
ghost use Rattle.buffer_store.specs.Buffers.{AreSplicesOf, flat_splices, changes_of, IsEdited};

use crate::buffer::Buffer;
use crate::errors::BufferError;
use crate::limits::is_too_long;
use kak_text::{Chars, Coord, Shift};
use std::alloc::Global;

/// A replacement: the characters from a place to before another, or to the end, and what takes their place.
#[derive(Drop, Debug)]
pub struct Splice {
    pub from: Coord,
    pub to: Coord,
    pub text: Chars,
}

impl Buffer {
    /// Makes the replacements of an edit, from the first to the last, as changes of a client, and adds their shifts to an
    /// empty list. Another client's pending group is committed before the first change. `UndoFull` and `TextFull` come
    /// exactly where they must, in this order, and leave the buffer; both are found before the first change. After want of memory
    /// the buffer is as it is behind some of the single changes, from the first on, and these are the shifts of those.
    /// It costs the lines that are touched, and the lines between them once where lines come or go.
    pub fn edit(
        &mut self,
        alloc: Global,
        who: u32,
        splices: &[Splice],
        shifts: &mut Vec<Shift>,
    ) -> Result<(), BufferError>
        requires splices { AreSplicesOf self.old.text splices.now }
        requires none { shifts.old.items ≡ [] }
        ensures edits { IsEdited who (changes_of self.old.text splices.now) result self.old self.new shifts.new.items }
        ensures undo_full { IsErrOf result UndoFull ↔ (is_undo_full who (changes_of self.old.text splices.now) self.old ≡ true) }
        ensures text_full { IsErrOf result TextFull ↔ ((is_undo_full who (changes_of self.old.text splices.now) self.old ≡ false)
            × (is_too_long (length self.old.text) self.old.text (flat_splices self.old.text splices.now) ≡ true)) }
        ensures undo_left { IsErrOf result UndoFull → (self.new ≡ self.old) × (shifts.new.items ≡ []) }
        ensures text_left { IsErrOf result TextFull → (self.new ≡ self.old) × (shifts.new.items ≡ []) }
    {
        if self.history.is_undo_full(who, splices) {
            return Err(BufferError::UndoFull);
        }
        if is_too_long(self.history.lines(), splices) {
            return Err(BufferError::TextFull);
        }
        self.history.replace_all(alloc, who, splices, shifts)?;
        Ok(())
    }
}
