//! The faces of a session.

ghost use Rattle.std.specs.Prelude.{◌≡◌, Ok, is_some, IfOk, IfErr, OnOk, OnErr};
ghost use Rattle.face_texts.specs.Tables.{face_set_in, face_unset_in, text_named, face_named, shown, word_text};
ghost use Rattle.face_texts.specs.Given.{given};
ghost use Rattle.face_texts.specs.Palettes.{palette_of};
ghost use Rattle.face_texts.specs.Errors.{IsBadFace, IsCycle};

use crate::following::{comes_back, shown};
use crate::given::given;
use crate::palette::{Palette, palette_of};
use crate::reading::read_face;
use crate::rows::{NamedFace, is_named, put, text_named};
use crate::text::{FaceError, FaceText};
use byte_texts::Utf8Text;
use kak_faces::Face;
use std::alloc::{AllocError, Global};
use std::marker::Model;

/// The faces that are set. Contracts see their names and texts, in the order in which they were first set.
#[derive(Drop, Debug)]
pub struct FaceTable {
    rows: Vec<NamedFace>,
    // what the given names are seen as
    palette: Palette,
}

impl Model for FaceTable {
    ghost use Rattle.std.specs.Prelude.{◌≡◌, List};
    ghost use Rattle.face_texts.specs.declared.rows.NamedFace.{NamedFace};
    ghost use Rattle.face_texts.specs.Palettes.{palette_of};

    ghost Value = { List NamedFace };

    ghost view = { λ t. t.rows.items };

    ghost invariant = { λ t. t.palette ≡ palette_of t.rows.items };
}

impl FaceTable {
    /// The faces that are set from the start.
    pub fn given(alloc: Global) -> Result<FaceTable, AllocError>
        ensures { IfOk result (λ t. t ≡ given) }
    {
        let rows = given(alloc)?;
        let palette = palette_of(rows.as_slice());
        Ok(FaceTable { rows, palette })
    }

    /// Sets a name to a text. The errors are `Cycle` with this name, exactly where following bases from the text comes back
    /// to it, and at any time `NoMemory`. They leave all as it was.
    pub fn set_face(&mut self, alloc: Global, name: &str, value: FaceText) -> Result<(), FaceError>
        ensures sets { OnOk result (face_set_in name.now value self.old ≡ Ok self.new) }
        ensures refused { IfErr result (λ e. IsCycle e (face_set_in name.now value self.old)) }
        ensures err { OnErr result (self.new ≡ self.old) }
    {
        if comes_back(self.rows.as_slice(), name, &value) {
            return Err(FaceError::Cycle(Utf8Text::from_str(alloc, name)?));
        }
        let name = Utf8Text::from_str(alloc, name)?;
        put(&mut self.rows, NamedFace { name, text: value })?;
        self.palette = palette_of(self.rows.as_slice());
        Ok(())
    }

    /// A name isn't set any more. Takes no memory.
    pub fn unset_face(&mut self, name: &str)
        ensures { self.new ≡ face_unset_in name.now self.old }
    {
        self.rows.retain(|row| !is_named(row, name));
        self.palette = palette_of(self.rows.as_slice());
    }

    /// Whether a name is set.
    pub fn is_set(&self, name: &str) -> bool
        ensures { result ≡ is_some (text_named self.now name.now) }
    {
        match text_named(self.rows.as_slice(), name) {
            Some(_) => true,
            None => false,
        }
    }

    /// What a name is seen as. None exactly where it isn't set.
    pub fn look(&self, name: &str) -> Option<Face>
        ensures { result ≡ face_named self.now name.now }
    {
        let rows = self.rows.as_slice();
        let text = text_named(rows, name)?;
        Some(shown(rows, text))
    }

    /// What a text is seen as.
    pub fn shown(&self, text: &FaceText) -> Face
        ensures { result ≡ shown self.now text.now }
    {
        shown(self.rows.as_slice(), text)
    }

    /// The face of a word: a name that is set stands for its face, now and later on, and any other word is read.
    pub fn read_word(&self, alloc: Global, word: &str) -> Result<FaceText, FaceError>
        ensures read { IfOk result (λ t. word_text self.now word.now ≡ Ok t) }
        ensures bad { IfErr result (λ e. IsBadFace e (word_text self.now word.now)) }
    {
        if self.is_set(word) {
            return Ok(FaceText {
                face: Face::DEFAULT,
                base: Some(Utf8Text::from_str(alloc, word)?),
            });
        }
        read_face(alloc, word)
    }

    /// What the given names are seen as.
    pub fn palette(&self) -> &Palette
        ensures { result.now ≡ palette_of self.now }
    {
        &self.palette
    }
}
