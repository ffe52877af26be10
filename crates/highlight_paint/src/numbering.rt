//! The numbers that highlighters put before lines, and whether they show whitespace by signs.

ghost use Rattle.std.specs.Prelude.{◌≡◌, ◌++◌, map, OnOk, IfOk};
ghost use Rattle.highlight_paint.specs.Painters.{paints_of, painting_at, painting};
ghost use Rattle.highlight_paint.specs.Numbers.{numbering, painter_numbers, numbers_of, draws_signs, has_signs};

use crate::highlighters::Highlighters;
use crate::painter::Painter;
use crate::painting::Viewer;
use crate::rows::{HighlighterRow, is_of_scope};
use regex_ports::Pattern;
use scope_options::Scope;
use std::alloc::{AllocError, Global};

/// Numbers of lines that stand before them: whether that of the main cursor's line is seen in another face, and what stands
/// behind each.
#[derive(Clone, Copy, Debug)]
pub struct LineNumbers<'a> {
    pub marked: bool,
    pub separator: &'a [char],
}

// Adds the numbers that a highlighter puts before lines, if it does.
fn push_painter<'a, P: Pattern>(
    painter: &'a Painter<P>,
    numbers: &mut Vec<LineNumbers<'a>>,
) -> Result<(), AllocError>
    ensures { OnOk result (map numbering numbers.new.items ≡ map numbering numbers.old.items ++ painter_numbers (paints_of P.source painter.now)) }
{
    match painter {
        Painter::NumberLines(marked, separator) => {
            numbers.push(LineNumbers {
                marked: *marked,
                separator: separator.as_slice(),
            })?;
            Ok(())
        }
        _ => Ok(()),
    }
}

// Adds the numbers that the highlighters of a scope put before lines.
fn push_scope<'a, P: Pattern>(
    rows: &'a [HighlighterRow<P>],
    scope: Scope,
    numbers: &mut Vec<LineNumbers<'a>>,
) -> Result<(), AllocError>
    ensures { OnOk result (map numbering numbers.new.items ≡ map numbering numbers.old.items ++ numbers_of (painting_at scope rows.now)) }
{
    for row in rows {
        if !is_of_scope(row, scope) {
            continue;
        }
        push_painter(&row.painter, numbers)?;
    }
    Ok(())
}

// Whether a highlighter shows whitespace by signs.
fn draws_signs<P: Pattern>(painter: &Painter<P>) -> bool
    ensures { result ≡ draws_signs (paints_of P.source painter.now) }
{
    match painter {
        Painter::ShowWhitespaces => true,
        _ => false,
    }
}

// Whether one of a scope does.
fn scope_has_signs<P: Pattern>(rows: &[HighlighterRow<P>], scope: Scope) -> bool
    ensures { result ≡ has_signs (painting_at scope rows.now) }
{
    for row in rows {
        if !is_of_scope(row, scope) {
            continue;
        }
        if draws_signs(&row.painter) {
            return true;
        }
    }
    false
}

impl<P: Pattern> Highlighters<P> {
    /// The numbers that stand before lines, as a client is shown them in a buffer: those of each highlighter that numbers
    /// lines, one behind the other.
    pub fn numbers(&self, alloc: Global, viewer: Viewer) -> Result<Vec<LineNumbers<'_>>, AllocError>
        ensures { IfOk result (λ v. map numbering v.items ≡ numbers_of (painting viewer.buffer viewer.client self.now)) }
    {
        let outer = Scope::Buffer(viewer.buffer);
        let own = Scope::Window(viewer.client, viewer.buffer);
        let rows = self.rows.as_slice();
        let mut numbers = Vec::new(alloc);
        push_scope(rows, Scope::Global, &mut numbers)?;
        push_scope(rows, outer, &mut numbers)?;
        push_scope(rows, own, &mut numbers)?;
        Ok(numbers)
    }

    /// Whether whitespace is drawn by signs, as a client is shown lines in a buffer.
    pub fn has_signs(&self, viewer: Viewer) -> bool
        ensures { result ≡ has_signs (painting viewer.buffer viewer.client self.now) }
    {
        let outer = Scope::Buffer(viewer.buffer);
        let own = Scope::Window(viewer.client, viewer.buffer);
        let rows = self.rows.as_slice();
        if scope_has_signs(rows, Scope::Global) {
            return true;
        }
        if scope_has_signs(rows, outer) {
            return true;
        }
        scope_has_signs(rows, own)
    }
}
