//! The objects that are runs of lines: paragraphs, and lines by their indentation.

ghost use Rattle.std.specs.Prelude.{◌≡◌, ◌<◌, ◌≤◌};
ghost use Rattle.text_model.specs.Texts.{line_count};
ghost use Rattle.list_model.specs.Ranges.{cursor};
ghost use Rattle.selection_set.specs.Inside.{range_of, IsInside};
ghost use Rattle.motion_keys.specs.Words.{EndsAre};
ghost use Rattle.text_objects.specs.LineObjects.{paragraph, paragraph_and_behind, indented_lines, indented_inside, inner_paragraph, around_paragraph, inner_indent, around_indent};

use crate::line_runs::{LineKind, first_line, indentation, is_full, line_behind, whole_lines};
use line_buffer::Lines;
use selection_set::{Pair, Sel};
use window_view::Tabstop;

// The paragraph that a line is in.
fn paragraph(lines: &Lines, line: u32) -> Option<Pair>
    requires { line < line_count lines.now }
    ensures { EndsAre lines.now result (paragraph lines.now line) }
{
    let n = line as usize;
    if !is_full(lines, n) {
        return None;
    }
    let from = first_line(lines, n, LineKind::Full);
    let to = line_behind(lines, n + 1, LineKind::Full);
    Some(whole_lines(lines, from, to))
}

// The same, with the empty lines behind it.
fn paragraph_and_behind(lines: &Lines, line: u32) -> Option<Pair>
    requires { line < line_count lines.now }
    ensures { EndsAre lines.now result (paragraph_and_behind lines.now line) }
{
    let n = line as usize;
    if !is_full(lines, n) {
        return None;
    }
    let from = first_line(lines, n, LineKind::Full);
    let to = line_behind(lines, n + 1, LineKind::Full);
    let behind = line_behind(lines, to, LineKind::Empty);
    Some(whole_lines(lines, from, behind))
}

// The lines around a line that are empty or indented at least as it.
fn indented_lines(lines: &Lines, line: u32, tabstop: Tabstop) -> Option<Pair>
    requires there { line < line_count lines.now }
    ensures { EndsAre lines.now result (indented_lines lines.now tabstop.columns line) }
{
    let n = line as usize;
    if !is_full(lines, n) {
        return None;
    }
    let least = indentation(lines.line(n), tabstop);
    let from = first_line(lines, n, LineKind::Indented(least, tabstop));
    let to = line_behind(lines, n + 1, LineKind::Indented(least, tabstop));
    Some(whole_lines(lines, from, to))
}

// The same, without the empty lines at their ends.
fn indented_inside(lines: &Lines, line: u32, tabstop: Tabstop) -> Option<Pair>
    requires there { line < line_count lines.now }
    ensures { EndsAre lines.now result (indented_inside lines.now tabstop.columns line) }
{
    let n = line as usize;
    if !is_full(lines, n) {
        return None;
    }
    let least = indentation(lines.line(n), tabstop);
    let from = first_line(lines, n, LineKind::Indented(least, tabstop));
    let to = line_behind(lines, n + 1, LineKind::Indented(least, tabstop));
    let first = line_behind(lines, from, LineKind::Empty);
    let behind = first_line(lines, to, LineKind::Empty);
    Some(whole_lines(lines, first, behind))
}

/// The paragraph that the cursor's line is in: the lines around it up to empty ones, from the first character to the
/// last newline. None where the cursor's line is empty. It costs the paragraph's lines.
pub fn inner_paragraph(lines: &Lines, sel: &Sel) -> Option<Pair>
    requires { IsInside lines.now sel.now }
    ensures gives { EndsAre lines.now result (inner_paragraph lines.now (cursor (range_of lines.now sel.now))) }
{
    paragraph(lines, sel.cursor().line)
}

/// The same with the empty lines behind the paragraph.
pub fn around_paragraph(lines: &Lines, sel: &Sel) -> Option<Pair>
    requires { IsInside lines.now sel.now }
    ensures gives { EndsAre lines.now result (around_paragraph lines.now (cursor (range_of lines.now sel.now))) }
{
    paragraph_and_behind(lines, sel.cursor().line)
}

/// The lines around the cursor's that are empty or indented at least as it, without the empty ones at their ends, from
/// the first character to the last newline. A line is indented up to its first character that is no blank, in cells,
/// with a tab stop at each `tabstop` columns. None where the cursor's line is empty. It costs the indentation of these
/// lines.
pub fn inner_indent(lines: &Lines, sel: &Sel, tabstop: Tabstop) -> Option<Pair>
    requires inside { IsInside lines.now sel.now }
    ensures gives { EndsAre lines.now result (inner_indent lines.now (cursor (range_of lines.now sel.now)) tabstop.columns) }
{
    indented_inside(lines, sel.cursor().line, tabstop)
}

/// The same with the empty lines at their ends.
pub fn around_indent(lines: &Lines, sel: &Sel, tabstop: Tabstop) -> Option<Pair>
    requires inside { IsInside lines.now sel.now }
    ensures gives { EndsAre lines.now result (around_indent lines.now (cursor (range_of lines.now sel.now)) tabstop.columns) }
{
    indented_lines(lines, sel.cursor().line, tabstop)
}
