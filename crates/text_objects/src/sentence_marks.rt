//! Where sentences begin and end.

ghost use Rattle.std.specs.Prelude.{◌≡◌, ◌+◌, ◌↔◌, true, IsNone, IfSome};
ghost use Rattle.text_model.specs.Texts.{offset, IsPlace, line_count};
ghost use Rattle.text_objects.specs.LineObjects.{is_full};
ghost use Rattle.text_objects.specs.Sentences.{is_stop, is_end, paragraph_begin, paragraph_end, follows_end, is_begin};
ghost use Rattle.text_objects.specs.SentenceSteps.{IsBefore, IsNextBehind};

use crate::line_runs::is_full;
use crate::runs::{CharKind, is_char_of};
use kak_text::Coord;
use line_buffer::Lines;

// Whether a character can end a sentence.
fn is_stop(c: char) -> bool
    ensures { result ≡ is_stop c }
{
    c == '.' || c == ';' || c == '!' || c == '?'
}

/// Whether a stop stands at a place that ends a sentence: a blank or a newline follows.
pub(crate) fn is_end(lines: &Lines, at: Coord) -> bool
    requires { IsPlace lines.now at }
    ensures { result ≡ is_end lines.now (offset lines.now at) }
{
    let line = lines.line(at.line as usize);
    let column = at.column as usize;
    if !is_stop(line.at(column)) {
        return false;
    }
    is_char_of(line.at(column + 1), CharKind::Gap)
}

// The place before another one of its paragraph; none where the paragraph begins.
fn before_in_paragraph(lines: &Lines, at: Coord) -> Option<Coord>
    requires place { IsPlace lines.now at }
    requires full { is_full lines.now at.line ≡ true }
    ensures none { IsNone result ↔ (offset lines.now at ≡ paragraph_begin lines.now (offset lines.now at)) }
    ensures before { IfSome result (λ b. IsBefore lines.now b at) }
{
    if at.column > 0 {
        return Some(Coord {
            line: at.line,
            column: at.column - 1,
        });
    }
    if at.line == 0 {
        return None;
    }
    let above = at.line - 1;
    if !is_full(lines, above as usize) {
        return None;
    }
    Some(lines.line_end(above))
}

/// The place behind another one of its paragraph; none where the paragraph ends.
pub(crate) fn behind_in_paragraph(lines: &Lines, at: Coord) -> Option<Coord>
    requires place { IsPlace lines.now at }
    requires full { is_full lines.now at.line ≡ true }
    ensures none { IsNone result ↔ (offset lines.now at + 1 ≡ paragraph_end lines.now (offset lines.now at)) }
    ensures behind { IfSome result (λ b. IsNextBehind lines.now b at) }
{
    let n = at.line as usize;
    if at.column as usize + 1 < lines.line(n).len() {
        return Some(Coord {
            line: at.line,
            column: at.column + 1,
        });
    }
    if n + 1 == lines.line_count() {
        return None;
    }
    if !is_full(lines, n + 1) {
        return None;
    }
    Some(Coord {
        line: at.line + 1,
        column: 0,
    })
}

// Whether the last character before a place that is neither a blank nor a newline ends a sentence of its paragraph, and
// the place holds such a character too. It costs the blanks and newlines before it.
fn follows_end(lines: &Lines, at: Coord) -> bool
    requires place { IsPlace lines.now at }
    requires full { is_full lines.now at.line ≡ true }
    ensures { result ≡ follows_end lines.now (offset lines.now at) }
{
    if is_char_of(lines.char_at(at), CharKind::Gap) {
        return false;
    }
    let mut place = at;
    while let Some(before) = before_in_paragraph(lines, place) {
        if !is_char_of(lines.char_at(before), CharKind::Gap) {
            return is_end(lines, before);
        }
        place = before;
    }
    false
}

/// Whether a sentence begins at a place. It costs the blanks and newlines before it.
pub(crate) fn is_begin(lines: &Lines, at: Coord) -> bool
    requires { IsPlace lines.now at }
    ensures { result ≡ is_begin lines.now (offset lines.now at) }
{
    if !is_full(lines, at.line as usize) {
        return false;
    }
    if before_in_paragraph(lines, at).is_none() {
        return true;
    }
    follows_end(lines, at)
}
