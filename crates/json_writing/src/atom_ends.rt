//! What ends the atoms of a drawing: the bytes of each face are made once, and then copied.

ghost use Rattle.std.specs.Prelude.{◌≡◌, ◌++◌, codes, IfOk, OnOk, IfSome};
ghost use Rattle.json_writing.specs.Grows.{Grows};
ghost use Rattle.json_writing.specs.Drawings.{face_text, atom_end};

use crate::face_bytes::push_face;
use crate::text_bytes::{push_byte, push_bytes, push_text};
use kak_faces::Face;
use std::alloc::{AllocError, Global};

// So many ends are kept; those of further faces are made anew each time.
const MOST: usize = 32;

// Room for the end of an atom whose face has two attributes.
const ROOM: usize = 112;

// What ends an atom in a face.
#[derive(Drop, Debug)]
struct AtomEnd {
    face: Face,
    bytes: Vec<u8>,
    ghost is: { bytes.items ≡ atom_end face },
}

/// What ends atoms, by their faces.
#[derive(Drop, Debug)]
pub struct AtomEnds {
    alloc: Global,
    kept: Vec<AtomEnd>,
}

// Adds what ends an atom, made anew.
fn push_new(out: &mut Vec<u8>, face: Face) -> Result<(), AllocError>
    ensures ok { OnOk result (out.new.items ≡ out.old.items ++ atom_end face) }
    ensures grows { Grows out.old.items out.new.items }
{
    push_text(out, "\",\"face\":")?;
    push_face(out, &face)?;
    push_byte(out, b'}')
}

// What ends an atom, made anew.
fn made(alloc: Global, face: Face) -> Result<AtomEnd, AllocError>
    ensures { IfOk result (λ made. made.bytes.items ≡ atom_end face) }
{
    let mut bytes = Vec::with_capacity(alloc, ROOM)?;
    push_new(&mut bytes, face)?;
    Ok(AtomEnd { face, bytes })
}

impl AtomEnd {
    // The bytes, where the face is this one.
    fn of_face(&self, face: Face) -> Option<&[u8]>
        ensures { IfSome result (λ bytes. bytes.now ≡ atom_end face) }
    {
        if self.face.is_same(face) {
            return Some(self.bytes.as_slice());
        }
        None
    }
}

// What ends an atom in a face, if it is kept.
fn find(kept: &[AtomEnd], face: Face) -> Option<&[u8]>
    ensures { IfSome result (λ bytes. bytes.now ≡ atom_end face) }
{
    for end in kept {
        if let Some(bytes) = end.of_face(face) {
            return Some(bytes);
        }
    }
    None
}

impl AtomEnds {
    /// None; takes no memory.
    pub fn new(alloc: Global) -> AtomEnds {
        AtomEnds {
            alloc,
            kept: Vec::new(alloc),
        }
    }

    // Adds what ends an atom in a face for which nothing is kept, and keeps it where there is a place for it.
    fn push_first(&mut self, out: &mut Vec<u8>, face: Face) -> Result<(), AllocError>
        ensures ok { OnOk result (out.new.items ≡ out.old.items ++ atom_end face) }
        ensures grows { Grows out.old.items out.new.items }
    {
        if self.kept.len() >= MOST {
            return push_new(out, face);
        }
        let end = made(self.alloc, face)?;
        push_bytes(out, end.bytes.as_slice())?;
        self.kept.push(end)?;
        Ok(())
    }

    /// Adds what ends an atom in a face.
    pub fn push(&mut self, out: &mut Vec<u8>, face: Face) -> Result<(), AllocError>
        ensures ok { OnOk result (out.new.items ≡ out.old.items ++ atom_end face) }
        ensures grows { Grows out.old.items out.new.items }
    {
        match find(self.kept.as_slice(), face) {
            Some(bytes) => push_bytes(out, bytes),
            None => self.push_first(out, face),
        }
    }
}
