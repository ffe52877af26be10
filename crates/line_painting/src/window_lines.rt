//! The lines of a window.

ghost use Rattle.std.specs.Prelude.{◌≡◌, ℕ, ◌+◌, ◌-◌, ◌<◌, ◌≤◌, false, [], length, take, slice_index_or, OnOk, IfOk};
ghost use Rattle.std.specs.List.{AllByRecursion};
ghost use Rattle.text_model.specs.declared.TheConstants.{MAX_CHARS};
ghost use Rattle.text_model.specs.Texts.{line_count};
ghost use Rattle.compact_chars.specs.Rows.{chars_of};
ghost use Rattle.selection_set.specs.declared.sel.Sel.{Sel as SelModel};
ghost use Rattle.window_view.specs.Views.{window_seen};
ghost use Rattle.selection_set.specs.Held.{IsHeld};
ghost use Rattle.line_painting.specs.Atoms.{with_all_shown};
ghost use Rattle.line_painting.specs.Lines.{shown_from, drawn_lines as lines_drawn};
ghost use Rattle.line_painting.specs.Painting.{lines_in, ground_face, slice_index_seen, text_on, line_on, scene_looks, EndsBefore, IsLaidAt, AreOthersKept, HasLineFaces};

use crate::cells::right;
use crate::growing::Growing;
use crate::numbers::push_numbers;
use crate::overs::{push_cursors, push_selections};
use crate::scene::{Scene, WindowFrame};
use crate::stretches::push_stretch;
use compact_chars::CharsRef;
use drawings::{Atoms, DrawnLine, DrawnLines};
use face_grounds::{Ground, Over};
use selection_set::Sel;
use std::alloc::{AllocError, Global};

// The first selection from one on that ends on a line or below it, or how many there are, in a list whose ends rise. The one
// that is asked first is the first of them, and then the others are searched by halves.
fn first_reaching(sels: &[Sel], from: usize, line: u32) -> usize
    requires { from ≤ length sels.now }
    ensures from { from ≤ result }
    ensures within { result ≤ length sels.now }
    ensures before { from < result → (d : SelModel) → (slice_index_or sels.now (result - 1) d).high.line < line }
    ensures reaches { result < length sels.now → (d : SelModel) → line ≤ (slice_index_or sels.now result d).high.line }
{
    let mut low = from;
    let mut high = sels.len();
    if low < high && sels[low].high.line >= line {
        return low;
    }
    while low < high {
        let middle = low + (high - low) / 2;
        if sels[middle].high.line >= line {
            high = middle;
            continue;
        }
        low = middle + 1;
    }
    low
}

// Whether a selection from one on begins on a line or above it.
fn reaches(sels: &[Sel], first: usize, line: u32) -> bool
    ensures { result ≡ false → first < length sels.now → (d : SelModel) → line < (slice_index_or sels.now first d).low.line }
{
    if first >= sels.len() {
        return false;
    }
    sels[first].low.line <= line
}

// Adds what a window shows of a line, each place in the face of its ground.
fn push_ground(
    atoms: &mut Growing,
    line: CharsRef<'_>,
    frame: WindowFrame,
    base: &Ground,
) -> Result<(), AllocError>
    requires { length (chars_of line) ≤ MAX_CHARS }
    ensures { OnOk result (atoms.new.atoms
        ≡ with_all_shown atoms.old.atoms
        (shown_from frame.tabstop.columns frame.signs (ground_face base.now) (window_seen frame.window) 0 0 (chars_of line.entry))) }
{
    let runs = base.runs();
    let mut at = 0;
    let mut column = 0;
    for k in 0..runs.len() {
        if at >= line.len() {
            return Ok(());
        }
        if u64::from(column) >= right(frame.window) {
            return Ok(());
        }
        let run = runs[k];
        let to = run.end.max(at);
        let part = line.between(at, to.min(line.len()));
        column = push_stretch(atoms, part, frame, column, run.face)?;
        at = to;
    }
    if at >= line.len() {
        return Ok(());
    }
    push_stretch(atoms, line.behind(at), frame, column, base.rest())?;
    Ok(())
}

// The grounds of the lines of a window, and where the faces of selections are gathered that lie over one of them, which
// keeps its memory from line to line.
#[derive(Drop, Debug)]
struct Overlay {
    grounds: Vec<Ground>,
    overs: Vec<Over>,
}

// Lays faces over the k-th ground.
fn lay_at(grounds: &mut Vec<Ground>, k: usize, overs: &[Over]) -> Result<(), AllocError>
    requires { k < length grounds.old.items }
    ensures { OnOk result (IsLaidAt k overs.now grounds.old.items grounds.new.items) }
{
    grounds[k].lay_all(overs)
}

// Lays the faces of selections and cursors over the ground of the k-th line of the window, the n-th of the text, where one
// reaches it. The first selections end before it.
fn lay_line(
    overlay: &mut Overlay,
    scene: Scene<'_>,
    n: u32,
    k: usize,
    first: usize,
) -> Result<(), AllocError>
    requires there { n < line_count scene.lines.now }
    requires held { IsHeld scene.lines.now scene.sels.now }
    requires base { k < length overlay.old.grounds.items }
    requires before { AllByRecursion (EndsBefore n) (take first scene.sels.now.list) }
    ensures laid { OnOk result (HasLineFaces scene.entry n (slice_index_seen overlay.old.grounds.items k) (slice_index_seen overlay.new.grounds.items k)) }
    ensures others { OnOk result (AreOthersKept k overlay.old.grounds.items overlay.new.grounds.items) }
{
    if !reaches(scene.sels.as_slice(), first, n) {
        return Ok(());
    }
    overlay.overs.clear();
    push_selections(&mut overlay.overs, scene, n, first)?;
    push_cursors(&mut overlay.overs, scene, n, first)?;
    lay_at(&mut overlay.grounds, k, overlay.overs.as_slice())
}

// Adds what the window shows of its k-th line, the n-th of the text, over its ground. The first selections end before it.
fn push_text(
    atoms: &mut Growing,
    overlay: &mut Overlay,
    scene: Scene<'_>,
    n: u32,
    k: usize,
    first: usize,
) -> Result<(), AllocError>
    requires there { n < line_count scene.lines.now }
    requires held { IsHeld scene.lines.now scene.sels.now }
    requires base { k < length overlay.old.grounds.items }
    requires before { AllByRecursion (EndsBefore n) (take first scene.sels.now.list) }
    ensures drawn { OnOk result (atoms.new.atoms ≡ with_all_shown atoms.old.atoms (text_on scene.entry (slice_index_seen overlay.old.grounds.items k) n)) }
    ensures others { OnOk result (AreOthersKept k overlay.old.grounds.items overlay.new.grounds.items) }
{
    lay_line(overlay, scene, n, k, first)?;
    let line = scene.lines.line(n as usize);
    push_ground(atoms, line, scene.frame, &overlay.grounds[k])
}

// Draws the k-th line of the window, the n-th of the text. The first selections end before it.
fn draw_line(
    atoms: &mut Growing,
    overlay: &mut Overlay,
    scene: Scene<'_>,
    n: u32,
    k: usize,
    first: usize,
) -> Result<DrawnLine, AllocError>
    requires there { n < line_count scene.lines.now }
    requires held { IsHeld scene.lines.now scene.sels.now }
    requires base { k < length overlay.old.grounds.items }
    requires before { AllByRecursion (EndsBefore n) (take first scene.sels.now.list) }
    requires none { atoms.old.atoms ≡ [] }
    ensures drawn { IfOk result (λ line. line ≡ line_on scene.entry (slice_index_seen overlay.old.grounds.items k) n) }
    ensures left { OnOk result (atoms.new.atoms ≡ []) }
    ensures others { OnOk result (AreOthersKept k overlay.old.grounds.items overlay.new.grounds.items) }
{
    push_numbers(atoms, scene, scene.lines.line_count(), n)?;
    push_text(atoms, overlay, scene, n, k, first)?;
    Ok(DrawnLine {
        atoms: Atoms::of_vec(atoms.take_atoms()?),
    })
}

/// Draws the lines of a window, as many as there are, over their grounds, of which there are as many. A selection above the
/// window costs as little as halving a list does, and one below it nothing.
pub fn draw_lines(
    alloc: Global,
    scene: Scene<'_>,
    grounds: Vec<Ground>,
) -> Result<DrawnLines, AllocError>
    requires held { IsHeld scene.lines.now scene.sels.now }
    requires grounds { length grounds.items ≡ length (lines_in (window_seen scene.frame.window) scene.lines.now) }
    ensures { IfOk result (λ drawn. drawn ≡ lines_drawn (scene_looks scene.entry grounds.items) scene.entry.lines.now) }
{
    let count = scene.lines.line_count();
    let top = count.min(scene.frame.window.top as usize);
    let below = count.min(top + usize::from(scene.frame.window.rows));
    let mut atoms = Growing::new(alloc);
    let mut overlay = Overlay {
        grounds,
        overs: Vec::new(alloc),
    };
    let mut drawn = DrawnLines::new(alloc);
    let mut first = 0;
    for n in top..below {
        first = first_reaching(scene.sels.as_slice(), first, n as u32);
        let line = draw_line(&mut atoms, &mut overlay, scene, n as u32, n - top, first)?;
        drawn.push(line)?;
    }
    Ok(drawn)
}
