//! Atoms and drawn lines as JSON.

ghost use Rattle.std.specs.Prelude.{◌≡◌, ◌++◌, map, OnOk};
ghost use Rattle.json_writing.specs.Grows.{Grows};
ghost use Rattle.json_writing.specs.JsonText.{separated};
ghost use Rattle.json_writing.specs.Drawings.{atom_text, line_text, lines_text};

use crate::atom_ends::AtomEnds;
use crate::text_bytes::{push_byte, push_characters, push_comma, push_text};
use drawings::{Atom, DrawnLine};
use std::alloc::AllocError;

// Adds an atom.
fn push_atom(out: &mut Vec<u8>, ends: &mut AtomEnds, atom: &Atom) -> Result<(), AllocError>
    ensures ok { OnOk result (out.new.items ≡ out.old.items ++ atom_text atom.now) }
    ensures grows { Grows out.old.items out.new.items }
{
    push_text(out, "{\"contents\":\"")?;
    push_characters(out, atom.contents.as_slice())?;
    ends.push(out, atom.face)?;
    Ok(())
}

// Adds atoms with commas between them.
fn push_atoms(out: &mut Vec<u8>, ends: &mut AtomEnds, atoms: &[Atom]) -> Result<(), AllocError>
    ensures ok { OnOk result (out.new.items ≡ out.old.items ++ separated (map atom_text atoms.now)) }
    ensures grows { Grows out.old.items out.new.items }
{
    for (i, atom) in atoms.iter().enumerate() {
        push_comma(out, i == 0)?;
        push_atom(out, ends, atom)?;
    }
    Ok(())
}

/// Adds a line of atoms.
pub fn push_line(out: &mut Vec<u8>, ends: &mut AtomEnds, line: &DrawnLine) -> Result<(), AllocError>
    ensures ok { OnOk result (out.new.items ≡ out.old.items ++ line_text line.now) }
    ensures grows { Grows out.old.items out.new.items }
{
    push_byte(out, b'[')?;
    push_atoms(out, ends, line.atoms.as_slice())?;
    push_byte(out, b']')
}

// Adds lines with commas between them.
fn push_line_row(
    out: &mut Vec<u8>,
    ends: &mut AtomEnds,
    lines: &[DrawnLine],
) -> Result<(), AllocError>
    ensures ok { OnOk result (out.new.items ≡ out.old.items ++ separated (map line_text lines.now)) }
    ensures grows { Grows out.old.items out.new.items }
{
    for (i, line) in lines.iter().enumerate() {
        push_comma(out, i == 0)?;
        push_line(out, ends, line)?;
    }
    Ok(())
}

/// Adds lines.
pub fn push_lines(
    out: &mut Vec<u8>,
    ends: &mut AtomEnds,
    lines: &[DrawnLine],
) -> Result<(), AllocError>
    ensures ok { OnOk result (out.new.items ≡ out.old.items ++ lines_text lines.now) }
    ensures grows { Grows out.old.items out.new.items }
{
    push_byte(out, b'[')?;
    push_line_row(out, ends, lines)?;
    push_byte(out, b']')
}
