//! The faces that selections lay over a line.

ghost use Rattle.std.specs.Prelude.{◌≡◌, ◌<◌, ◌≤◌, length, take, OnOk};
ghost use Rattle.std.specs.List.{AllByRecursion};
ghost use Rattle.text_model.specs.Texts.{line_count, nth_line};
ghost use Rattle.compact_chars.specs.Rows.{chars_of};
ghost use Rattle.selection_set.specs.Held.{selected, IsHeld};
ghost use Rattle.face_texts.specs.Palettes.{palette_face};
ghost use Rattle.line_painting.specs.Lines.{selection_name, cursor_name};
ghost use Rattle.line_painting.specs.Painting.{line_start, CountsBefore, IsSelectionLaid, IsCursorLaid, EndsBefore, AreSelectionsLaid, AreCursorsLaid};

use crate::scene::Scene;
use compact_chars::CharsRef;
use face_grounds::Over;
use face_texts::Palette;
use kak_faces::{Face, StandardFace};
use kak_text::Coord;
use selection_set::Sel;
use std::alloc::AllocError;

// How many of the `len` characters of the n-th line stand before a column of a line of the same text, or before that line's
// end.
fn chars_before(n: u32, len: usize, line: u32, column: usize) -> usize
    ensures few { result ≤ len }
    ensures counts { CountsBefore n len line column result }
{
    if line > n {
        return len;
    }
    if line < n {
        return 0;
    }
    len.min(column)
}

// The face of a selection, of the main one or another.
fn selection_face(palette: &Palette, main: bool) -> Face
    ensures { result ≡ palette_face palette.now (selection_name main) }
{
    if main {
        palette.of(StandardFace::PrimarySelection)
    } else {
        palette.of(StandardFace::SecondarySelection)
    }
}

// The face of its cursor on a character.
fn cursor_face(palette: &Palette, main: bool, c: char) -> Face
    ensures { result ≡ palette_face palette.now (cursor_name main c) }
{
    match (c == '\n', main) {
        (true, true) => palette.of(StandardFace::PrimaryCursorEol),
        (true, false) => palette.of(StandardFace::SecondaryCursorEol),
        (false, true) => palette.of(StandardFace::PrimaryCursor),
        (false, false) => palette.of(StandardFace::SecondaryCursor),
    }
}

// Adds a face over those of the `len` characters of the n-th line that stand in a selection.
fn push_selection(
    overs: &mut Vec<Over>,
    n: u32,
    len: usize,
    sel: Sel,
    face: Face,
) -> Result<(), AllocError>
    ensures { OnOk result (IsSelectionLaid n len sel face overs.old.items overs.new.items) }
{
    let from = chars_before(n, len, sel.low.line, sel.low.column as usize);
    let to = chars_before(n, len, sel.high.line, sel.high.column as usize + 1);
    overs.push(Over { from, to, face })?;
    Ok(())
}

// Adds the face of a cursor over the n-th line, where it is on it.
fn push_cursor(
    overs: &mut Vec<Over>,
    palette: &Palette,
    n: u32,
    line: CharsRef<'_>,
    at: Coord,
    main: bool,
) -> Result<(), AllocError>
    ensures { OnOk result (IsCursorLaid palette.now n (chars_of line.entry) at main overs.old.items overs.new.items) }
{
    let from = chars_before(n, line.len(), at.line, at.column as usize);
    let to = chars_before(n, line.len(), at.line, at.column as usize + 1);
    if from >= to {
        return Ok(());
    }
    let face = cursor_face(palette, main, line.at(from));
    overs.push(Over { from, to, face })?;
    Ok(())
}

/// Adds the faces of the selections over a line, of which the first ones end before it. Those that begin below it aren't
/// looked at.
pub fn push_selections(
    overs: &mut Vec<Over>,
    scene: Scene<'_>,
    n: u32,
    first: usize,
) -> Result<(), AllocError>
    requires there { n < line_count scene.lines.now }
    requires held { IsHeld scene.lines.now scene.sels.now }
    requires before { AllByRecursion (EndsBefore n) (take first scene.sels.now.list) }
    ensures { OnOk result (AreSelectionsLaid scene.entry.palette.now (selected scene.entry.lines.now scene.entry.sels.now)
        (line_start scene.entry.lines.now n) (length (nth_line scene.entry.lines.now n)) overs.old.items overs.new.items) }
{
    let line = scene.lines.line(n as usize);
    let list = scene.sels.as_slice();
    for k in first..list.len() {
        let sel = list[k];
        if sel.low.line > n {
            return Ok(());
        }
        let face = selection_face(scene.palette, k == scene.sels.main());
        push_selection(overs, n, line.len(), sel, face)?;
    }
    Ok(())
}

/// Adds the faces of their cursors over a line.
pub fn push_cursors(
    overs: &mut Vec<Over>,
    scene: Scene<'_>,
    n: u32,
    first: usize,
) -> Result<(), AllocError>
    requires there { n < line_count scene.lines.now }
    requires held { IsHeld scene.lines.now scene.sels.now }
    requires before { AllByRecursion (EndsBefore n) (take first scene.sels.now.list) }
    ensures { OnOk result (AreCursorsLaid scene.entry.palette.now (selected scene.entry.lines.now scene.entry.sels.now)
        (line_start scene.entry.lines.now n) (nth_line scene.entry.lines.now n) overs.old.items overs.new.items) }
{
    let line = scene.lines.line(n as usize);
    let list = scene.sels.as_slice();
    for k in first..list.len() {
        let sel = list[k];
        if sel.low.line > n {
            return Ok(());
        }
        let main = k == scene.sels.main();
        push_cursor(overs, scene.palette, n, line, sel.cursor(), main)?;
    }
    Ok(())
}
