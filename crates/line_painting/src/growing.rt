//! Atoms that grow at their end.

ghost use Rattle.std.specs.Prelude.{◌≡◌, ◌≤◌, [], ◌++◌, length, replicate, OnOk, IfOk};
ghost use Rattle.compact_chars.specs.Rows.{chars_of};
ghost use Rattle.line_painting.specs.Atoms.{shown_in, with_all_shown};
ghost use Rattle.line_painting.specs.Painting.{drawn_chars};

use crate::atoms::push_run;
use crate::cells::CharDrawn;
use compact_chars::CharsRef;
use drawings::Atom;
use kak_faces::{Face, StandardFace};
use kak_text::Chars;
use std::alloc::{AllocError, Global};
use std::marker::Model;

// So many characters are added at once.
const PIECE: usize = 64;

// Atoms that grow at their end, and the face that more characters get. The characters that came last wait for others
// of their face; contracts see the atoms that there are with them.
#[derive(Drop, Debug)]
pub struct Growing {
    alloc: Global,
    done: Vec<Atom>,
    waiting: Chars,
    face: Face,
}

impl Model for Growing {
    ghost use Rattle.line_painting.specs.Atoms.{shown_in, with_all_shown};
    ghost use Rattle.line_painting.specs.Painting.{Grown};

    ghost Value = { Grown };

    ghost view = { λ g. record { atoms = with_all_shown g.done.items (shown_in g.face g.waiting); face = g.face } };
}

// Adds a character so many times.
fn add_times(chars: &mut Chars, c: char, count: u64) -> Result<(), AllocError>
    ensures { OnOk result (chars.new ≡ chars.old ++ replicate count c) }
{
    for _ in 0..count {
        chars.push(c)?;
    }
    Ok(())
}

// Adds what is drawn of a character.
fn add_drawn(chars: &mut Chars, drawn: CharDrawn) -> Result<(), AllocError>
    ensures { OnOk result (chars.new ≡ chars.old ++ drawn_chars drawn) }
{
    if let Some(c) = drawn.head {
        chars.push(c)?;
    }
    add_times(chars, ' ', drawn.spaces)
}

// Adds the characters whose numbers a few bytes are, all at once.
fn add_piece(chars: &mut Chars, bytes: &[u8]) -> Result<(), AllocError>
    requires { length bytes.now ≤ 64 }
    ensures { OnOk result (chars.new ≡ chars.old ++ bytes.now) }
{
    let mut wide = ['\0'; PIECE];
    for (i, b) in bytes.iter().enumerate() {
        wide[i] = *b as char;
    }
    chars.extend_from_slice(&wide[..bytes.len()])
}

// Adds the characters whose numbers bytes are.
fn add_bytes(chars: &mut Chars, bytes: &[u8]) -> Result<(), AllocError>
    ensures { OnOk result (chars.new ≡ chars.old ++ bytes.now) }
{
    let mut rest = bytes;
    while rest.len() > PIECE {
        let (piece, more) = rest.split_at(PIECE);
        add_piece(chars, piece)?;
        rest = more;
    }
    add_piece(chars, rest)
}

// Adds characters in their face behind the atoms, and takes them away.
fn push_taken(
    alloc: Global,
    atoms: &mut Vec<Atom>,
    chars: &mut Chars,
    face: Face,
) -> Result<(), AllocError>
    ensures pushed { OnOk result (atoms.new.items ≡ with_all_shown atoms.old.items (shown_in face chars.old)) }
    ensures taken { OnOk result (chars.new ≡ []) }
{
    push_run(alloc, atoms, chars.as_slice(), face)?;
    chars.clear();
    Ok(())
}

impl Growing {
    ghost use Rattle.line_painting.specs.Painting.{grown_by};

    // No atoms. Takes no memory.
    pub fn new(alloc: Global) -> Growing
        ensures { result.atoms ≡ [] }
    {
        Growing {
            alloc,
            done: Vec::new(alloc),
            waiting: Chars::new(alloc),
            face: StandardFace::Default.face(),
        }
    }

    // Changes the face that more characters get. An `Err` leaves some of the atoms.
    pub fn set_face(&mut self, face: Face) -> Result<(), AllocError>
        ensures { OnOk result (self.new ≡ record { atoms = self.old.atoms; face = face }) }
    {
        if self.face.is_same(face) {
            return Ok(());
        }
        push_taken(self.alloc, &mut self.done, &mut self.waiting, self.face)?;
        self.face = face;
        Ok(())
    }

    // Adds characters. An `Err` leaves some of the atoms.
    pub fn push_chars(&mut self, chars: CharsRef<'_>) -> Result<(), AllocError>
        ensures { OnOk result (self.new ≡ grown_by self.old (chars_of chars.entry)) }
    {
        match chars {
            CharsRef::Narrow(bytes) => add_bytes(&mut self.waiting, bytes),
            CharsRef::Wide(chars) => self.waiting.extend_from_slice(chars),
        }
    }

    // Adds spaces. An `Err` leaves some of the atoms.
    pub fn push_spaces(&mut self, count: u64) -> Result<(), AllocError>
        ensures { OnOk result (self.new ≡ grown_by self.old (replicate count 32)) }
    {
        add_times(&mut self.waiting, ' ', count)
    }

    // Adds what is drawn of a character. An `Err` leaves some of the atoms.
    pub fn push_drawn(&mut self, drawn: CharDrawn) -> Result<(), AllocError>
        ensures { OnOk result (self.new ≡ grown_by self.old (drawn_chars drawn)) }
    {
        add_drawn(&mut self.waiting, drawn)
    }

    // Takes the atoms out, with those that waited: none are left. An `Err` leaves some of them.
    pub fn take_atoms(&mut self) -> Result<Vec<Atom>, AllocError>
        ensures taken { IfOk result (λ atoms. atoms.items ≡ self.old.atoms) }
        ensures left { OnOk result (self.new.atoms ≡ []) }
    {
        push_taken(self.alloc, &mut self.done, &mut self.waiting, self.face)?;
        Ok(std::mem::replace(&mut self.done, Vec::new(self.alloc)))
    }
}
