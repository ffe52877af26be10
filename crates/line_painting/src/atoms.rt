//! Characters in their faces, put together as atoms.

ghost use Rattle.std.specs.Prelude.{◌≡◌, ◌∷◌, [], ◌++◌, OnOk};
ghost use Rattle.line_painting.specs.Atoms.{shown_in, with_shown, with_all_shown};

use drawings::Atom;
use kak_faces::Face;
use kak_text::Chars;
use std::alloc::{AllocError, Global};

// Adds characters as an atom of their own.
fn push_alone(
    alloc: Global,
    atoms: &mut Vec<Atom>,
    chars: &[char],
    face: Face,
) -> Result<(), AllocError>
    ensures { OnOk result (atoms.new.items ≡ atoms.old.items ++ record { contents = chars.now; face = face } ∷ []) }
{
    let contents = Chars::from_slice(alloc, chars)?;
    atoms.push(Atom { contents, face })?;
    Ok(())
}

// Adds an atom that has more characters.
fn push_longer(atoms: &mut Vec<Atom>, mut last: Atom, chars: &[char]) -> Result<(), AllocError>
    ensures { OnOk result (atoms.new.items ≡ atoms.old.items ++ record { contents = last.contents ++ chars.now; face = last.face } ∷ []) }
{
    last.contents.extend_from_slice(chars)?;
    atoms.push(last)?;
    Ok(())
}

// Adds an atom, and characters as an atom of their own.
fn push_both(
    alloc: Global,
    atoms: &mut Vec<Atom>,
    last: Atom,
    chars: &[char],
    face: Face,
) -> Result<(), AllocError>
    ensures { OnOk result (atoms.new.items ≡ atoms.old.items ++ last ∷ [] ++ record { contents = chars.now; face = face } ∷ []) }
{
    atoms.push(last)?;
    push_alone(alloc, atoms, chars, face)
}

/// Adds characters in one face behind the atoms. They join the last one where that has their face. An `Err` leaves
/// some of the atoms.
pub fn push_run(
    alloc: Global,
    atoms: &mut Vec<Atom>,
    chars: &[char],
    face: Face,
) -> Result<(), AllocError>
    ensures { OnOk result (atoms.new.items ≡ with_all_shown atoms.old.items (shown_in face chars.now)) }
{
    if chars.is_empty() {
        return Ok(());
    }
    let Some(last) = atoms.pop() else {
        return push_alone(alloc, atoms, chars, face);
    };
    if last.face.is_same(face) {
        return push_longer(atoms, last, chars);
    }
    push_both(alloc, atoms, last, chars, face)
}

/// Adds a character in its face behind the atoms. It joins the last one where that has its face. An `Err` leaves some
/// of the atoms.
pub fn push_shown(
    alloc: Global,
    atoms: &mut Vec<Atom>,
    c: char,
    face: Face,
) -> Result<(), AllocError>
    ensures { OnOk result (atoms.new.items ≡ with_shown atoms.old.items (record { char = c; face = face })) }
{
    push_run(alloc, atoms, &[c], face)
}
