//! The faces that are set.

ghost use Rattle.std.specs.Prelude.{◌≡◌, Ok, IfErr, OnOk, OnErr};
ghost use Rattle.face_texts.specs.Tables.{face_set_in, face_unset_in};
ghost use Rattle.face_texts.specs.Errors.{IsCycle};
ghost use Rattle.kak_world.specs.Flat.{faces_of, with_faces};

use crate::turn::Turn;
use crate::world::World;
use face_texts::{FaceError, FaceTable, FaceText};
use regex_ports::Pattern;
use std::alloc::Global;

#[tactic(auto, unfolding(crate::specs::Flat::rest_of, crate::specs::Flat::with_rest))]
impl<P: Pattern, T: Turn> World<P, T> {
    /// The faces that are set.
    pub fn faces(&self) -> &FaceTable
        ensures { result.now ≡ faces_of self.now.flat }
    {
        &self.rest.faces
    }

    /// Sets a face's name to a text. It is refused as `FaceTable::set_face` is; an error leaves the world.
    pub fn set_face(&mut self, alloc: Global, name: &str, value: FaceText) -> Result<(), FaceError>
        ensures sets { OnOk result (face_set_in name.now value (faces_of self.old.flat) ≡ Ok (faces_of self.new.flat)) }
        ensures rest { self.new.flat ≡ with_faces (faces_of self.new.flat) self.old.flat }
        ensures refused { IfErr result (λ e. IsCycle e (face_set_in name.now value (faces_of self.old.flat))) }
        ensures err { OnErr result (self.new.flat ≡ self.old.flat) }
    {
        self.rest.faces.set_face(alloc, name, value)
    }

    /// A face's name isn't set any more. Takes no memory.
    pub fn unset_face(&mut self, name: &str)
        ensures { self.new.flat ≡ with_faces (face_unset_in name.now (faces_of self.old.flat)) self.old.flat }
    {
        self.rest.faces.unset_face(name);
    }
}
