//! The numbers that stand before lines.

ghost use Rattle.std.specs.Prelude.{◌≡◌, ◌==◌, ◌&&◌, ◌+◌, ◌^◌, ◌<◌, length, map, decimal, flat_map, OnOk};
ghost use Rattle.face_texts.specs.Palettes.{palette_face};
ghost use Rattle.line_painting.specs.Atoms.{shown_in, with_all_shown};
ghost use Rattle.highlight_paint.specs.Numbers.{numbering, number_chars};
ghost use Rattle.line_painting.specs.Lines.{number_name, number_cells};

use crate::growing::Growing;
use crate::scene::Scene;
use compact_chars::CharsRef;
use face_texts::Palette;
use highlight_paint::LineNumbers;
use itoa::Buffer;
use kak_faces::{Face, StandardFace};
use std::alloc::AllocError;

// The face of the number of a line.
fn number_face(palette: &Palette, marked: bool) -> Face
    ensures { result ≡ palette_face palette.now (number_name marked) }
{
    if marked {
        palette.of(StandardFace::LineNumberCursor)
    } else {
        palette.of(StandardFace::LineNumbers)
    }
}

// How many digits a number has.
fn digits(n: u64) -> u64
    ensures { result ≡ length (decimal n) }
{
    let mut buffer = Buffer::new();
    buffer.format(n).len() as u64
}

// The face of the number of the n-th line in a scene, which marks the main cursor's line or doesn't.
fn row_face(scene: Scene<'_>, marked: bool, n: u32) -> Face
    ensures { result ≡ palette_face scene.entry.palette.now (number_name (marked && n == scene.entry.cursor_line)) }
{
    if !marked {
        return number_face(scene.palette, false);
    }
    number_face(scene.palette, n == scene.cursor_line)
}

// Adds the number cells of the n-th line of so many, in a face.
fn push_number(
    atoms: &mut Growing,
    lines: u64,
    n: u64,
    separator: &[char],
    face: Face,
) -> Result<(), AllocError>
    requires { n + 1 < 2 ^ 64 }
    ensures { OnOk result (atoms.new.atoms ≡ with_all_shown atoms.old.atoms (shown_in face (number_chars lines n separator.now))) }
{
    let mut buffer = Buffer::new();
    let number = buffer.format(n + 1);
    let width = number.len() as u64;
    atoms.set_face(face)?;
    atoms.push_spaces(digits(lines).saturating_sub(width))?;
    atoms.push_chars(CharsRef::Narrow(number.as_bytes()))?;
    atoms.push_chars(CharsRef::Wide(separator))
}

// Adds the number cells of the n-th line of so many, of one row of numbers.
fn push_row(
    atoms: &mut Growing,
    scene: Scene<'_>,
    lines: usize,
    n: u32,
    row: LineNumbers<'_>,
) -> Result<(), AllocError>
    ensures { OnOk result (atoms.new.atoms
        ≡ with_all_shown atoms.old.atoms (number_cells scene.entry.palette.now scene.entry.cursor_line lines n (numbering row.entry))) }
{
    let face = row_face(scene, row.marked, n);
    push_number(atoms, lines as u64, u64::from(n), row.separator, face)
}

/// Adds the number cells of the n-th line of so many.
pub fn push_numbers(
    atoms: &mut Growing,
    scene: Scene<'_>,
    lines: usize,
    n: u32,
) -> Result<(), AllocError>
    ensures { OnOk result (atoms.new.atoms
        ≡ with_all_shown atoms.old.atoms
        (flat_map (number_cells scene.entry.palette.now scene.entry.cursor_line lines n) (map numbering scene.entry.numbers.now))) }
{
    for k in 0..scene.numbers.len() {
        push_row(atoms, scene, lines, n, scene.numbers[k])?;
    }
    Ok(())
}
