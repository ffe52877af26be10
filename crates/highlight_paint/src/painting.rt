//! The faces that highlighters lay over the lines of a part of a text.

ghost use Rattle.std.specs.Prelude.{◌≡◌, ◌-◌, ◌≤◌, ◌<◌, length, replicate, IfOk, OnOk};
ghost use Rattle.text_model.specs.Texts.{line_count};
ghost use Rattle.face_grounds.specs.Grounds.{everywhere};
ghost use Rattle.highlight_paint.specs.Painters.{paints_of, painting_at, painting};
ghost use Rattle.highlight_paint.specs.Overs.{brush_overs, overs_of, overs_on, matches_over};
ghost use Rattle.highlight_paint.specs.Painting.{IsPart, IsLaidAt, AreLaid, ArePainted};

use crate::brushes::{Brush, push_brush};
use crate::highlighters::Highlighters;
use crate::line_texts::LineTexts;
use crate::matches::{push_groups, seen_groups};
use crate::painter::{GroupFace, Painter};
use crate::rows::{HighlighterRow, is_of_scope};
use face_grounds::{Ground, Over};
use face_texts::FaceTable;
use kak_faces::Face;
use line_buffer::Lines;
use regex_ports::Pattern;
use scope_options::Scope;
use std::alloc::{AllocError, Global};

/// The lines of a text from one to before another, both from 0.
#[derive(Clone, Copy, Debug)]
pub struct LinePart<'a> {
    pub lines: &'a Lines,
    pub top: usize,
    pub below: usize,
}

/// Who is shown lines: a client, by its number, in a buffer, by its own.
#[derive(Clone, Copy, PartialEq, Eq, Debug)]
pub struct Viewer {
    pub buffer: u32,
    pub client: u32,
}

// So many grounds of one face.
fn bare_grounds(alloc: Global, count: usize, face: Face) -> Result<Vec<Ground>, AllocError>
    ensures { IfOk result (λ v. v.items ≡ replicate count (everywhere face)) }
{
    let mut grounds = Vec::with_capacity(alloc, count)?;
    for _ in 0..count {
        grounds.push(Ground::new(alloc, face))?;
    }
    Ok(grounds)
}

// Lays faces over the k-th ground.
fn lay_at(grounds: &mut Vec<Ground>, k: usize, overs: &[Over]) -> Result<(), AllocError>
    requires { k < length grounds.old.items }
    ensures { OnOk result (IsLaidAt k overs.now grounds.old.items grounds.new.items) }
{
    grounds[k].lay_all(overs)
}

// Lays over each line what a brush does.
fn lay_brush(
    alloc: Global,
    brush: Brush,
    part: LinePart<'_>,
    grounds: &mut Vec<Ground>,
) -> Result<(), AllocError>
    requires { IsPart part.lines.now part.top part.below (length grounds.old.items) }
    ensures { OnOk result (AreLaid (brush_overs brush) part.entry.lines.now part.entry.top grounds.old.items grounds.new.items) }
{
    // its contract says that there are not too many lines
    let _count = part.lines.line_count();
    let mut overs = Vec::new(alloc);
    for k in 0..grounds.len() {
        let n = part.top + k;
        overs.clear();
        push_brush(&mut overs, brush, n, part.lines.line(n))?;
        lay_at(grounds, k, overs.as_slice())?;
    }
    Ok(())
}

// Lays the faces of groups over each line, with one matcher for all lines.
fn lay_matches<P: Pattern>(
    alloc: Global,
    pattern: &P,
    groups: &[GroupFace],
    part: LinePart<'_>,
    faces: &FaceTable,
    grounds: &mut Vec<Ground>,
) -> Result<(), AllocError>
    requires { IsPart part.lines.now part.top part.below (length grounds.old.items) }
    ensures { OnOk result (AreLaid (matches_over faces.now (P.source pattern.now) groups.now)
        part.entry.lines.now part.entry.top grounds.old.items grounds.new.items) }
{
    let _count = part.lines.line_count();
    let mut texts = LineTexts::new(part);
    let found = pattern.groups_in(alloc, &mut texts)?;
    let seen = seen_groups(alloc, groups, faces)?;
    let mut overs = Vec::new(alloc);
    for k in 0..grounds.len() {
        let list = &found[k];
        overs.clear();
        push_groups(
            &mut overs,
            list.as_slice(),
            seen.as_slice(),
            part.lines.line(part.top + k),
        )?;
        lay_at(grounds, k, overs.as_slice())?;
    }
    Ok(())
}

// Lays over each line what a highlighter does.
fn lay_painter<P: Pattern>(
    alloc: Global,
    painter: &Painter<P>,
    part: LinePart<'_>,
    faces: &FaceTable,
    grounds: &mut Vec<Ground>,
) -> Result<(), AllocError>
    requires { IsPart part.lines.now part.top part.below (length grounds.old.items) }
    ensures { OnOk result (AreLaid (λ n line. overs_of faces.now n line (paints_of P.source painter.now))
        part.entry.lines.now part.entry.top grounds.old.items grounds.new.items) }
{
    match painter {
        Painter::Fill(text) => {
            let brush = Brush::Everywhere(faces.shown(text));
            lay_brush(alloc, brush, part, grounds)
        }
        Painter::Regex(pattern, groups) => {
            lay_matches(alloc, pattern, groups.as_slice(), part, faces, grounds)
        }
        Painter::AtLine(n, text) => {
            let brush = Brush::OnLine(*n, faces.shown(text));
            lay_brush(alloc, brush, part, grounds)
        }
        Painter::AtColumn(n, text) => {
            let brush = Brush::OnColumn(*n, faces.shown(text));
            lay_brush(alloc, brush, part, grounds)
        }
        Painter::ShowWhitespaces => {
            let brush = Brush::OnWhitespaces(faces.palette().whitespace);
            lay_brush(alloc, brush, part, grounds)
        }
        Painter::NumberLines(_, _) | Painter::Group => Ok(()),
    }
}

// Lays over each line what the highlighters of a scope do.
fn lay_scope<P: Pattern>(
    alloc: Global,
    rows: &[HighlighterRow<P>],
    scope: Scope,
    part: LinePart<'_>,
    faces: &FaceTable,
    grounds: &mut Vec<Ground>,
) -> Result<(), AllocError>
    requires { IsPart part.lines.now part.top part.below (length grounds.old.items) }
    ensures { OnOk result (AreLaid (overs_on faces.now (painting_at scope rows.now))
        part.entry.lines.now part.entry.top grounds.old.items grounds.new.items) }
{
    for row in rows {
        if !is_of_scope(row, scope) {
            continue;
        }
        lay_painter(alloc, &row.painter, part, faces, grounds)?;
    }
    Ok(())
}

impl<P: Pattern> Highlighters<P> {
    /// The grounds of the lines of a part, as a client is shown them in a buffer: each place of each line has the face
    /// `Default`, with those over it that the global highlighters lay there, then the buffer's, then the window's, each in
    /// the order in which they were added. A pattern is searched for in all lines with one matcher.
    pub fn paint(
        &self,
        alloc: Global,
        viewer: Viewer,
        part: LinePart<'_>,
        faces: &FaceTable,
    ) -> Result<Vec<Ground>, AllocError>
        requires ordered { part.top ≤ part.below }
        requires there { part.below ≤ line_count part.lines.now }
        ensures { IfOk result (λ v. ArePainted faces.now (painting viewer.buffer viewer.client self.now)
            part.entry.lines.now part.entry.top part.entry.below v.items) }
    {
        let outer = Scope::Buffer(viewer.buffer);
        let own = Scope::Window(viewer.client, viewer.buffer);
        let rows = self.rows.as_slice();
        let mut grounds = bare_grounds(alloc, part.below - part.top, faces.palette().default)?;
        lay_scope(alloc, rows, Scope::Global, part, faces, &mut grounds)?;
        lay_scope(alloc, rows, outer, part, faces, &mut grounds)?;
        lay_scope(alloc, rows, own, part, faces, &mut grounds)?;
        Ok(grounds)
    }
}
