//! Sentences.

ghost use Rattle.std.specs.Prelude.{◌≡◌, true, IfSome};
ghost use Rattle.text_model.specs.Texts.{offset, IsPlace};
ghost use Rattle.list_model.specs.Ranges.{cursor};
ghost use Rattle.selection_set.specs.Inside.{range_of, IsInside};
ghost use Rattle.motion_keys.specs.Places.{OffsetsAre};
ghost use Rattle.motion_keys.specs.Words.{EndsAre};
ghost use Rattle.text_objects.specs.LineObjects.{is_full};
ghost use Rattle.text_objects.specs.Sentences.{sentence_begin, sentence_last, before_next, inner_sentence, around_sentence};

use crate::line_runs::is_full;
use crate::sentence_marks::{behind_in_paragraph, is_begin, is_end};
use kak_text::Coord;
use line_buffer::Lines;
use selection_set::{Pair, Sel};

// The greatest place up to another one at which a sentence begins.
fn find_begin(lines: &Lines, from: Coord) -> Option<Coord>
    requires { IsPlace lines.now from }
    ensures gives { OffsetsAre lines.now result (sentence_begin lines.now (offset lines.now from)) }
    ensures full { IfSome result (λ at. is_full lines.now at.line ≡ true) }
{
    let mut at = from;
    while !is_begin(lines, at) {
        match lines.prev(at) {
            Some(before) => at = before,
            None => return None,
        }
    }
    Some(at)
}

// The end of the sentence that begins at a place; without one, the place before the paragraph's last newline.
fn find_last(lines: &Lines, begin: Coord) -> Coord
    requires place { IsPlace lines.now begin }
    requires full { is_full lines.now begin.line ≡ true }
    ensures place { IsPlace lines.now result }
    ensures value { offset lines.now result ≡ sentence_last lines.now (offset lines.now begin) }
{
    let mut at = begin;
    while !is_end(lines, at) {
        match behind_in_paragraph(lines, at) {
            Some(next) => at = next,
            None => {
                return Coord {
                    line: at.line,
                    column: at.column - 1,
                };
            }
        }
    }
    at
}

// The last place before the next begin of a sentence; without one, the last of the text.
fn find_before_next(lines: &Lines, begin: Coord) -> Coord
    requires { IsPlace lines.now begin }
    ensures place { IsPlace lines.now result }
    ensures value { offset lines.now result ≡ before_next lines.now (offset lines.now begin) }
{
    let mut at = begin;
    while let Some(next) = lines.next(at) {
        if is_begin(lines, next) {
            return at;
        }
        at = next;
    }
    at
}

// The sentence that holds a place.
fn sentence(lines: &Lines, at: Coord) -> Option<Pair>
    requires { IsPlace lines.now at }
    ensures gives { EndsAre lines.now result (inner_sentence lines.now (offset lines.now at)) }
{
    if !is_full(lines, at.line as usize) {
        return None;
    }
    let anchor = find_begin(lines, at)?;
    let cursor = find_last(lines, anchor);
    Some(Pair { anchor, cursor })
}

// The same with all that stands before the next one.
fn sentence_and_behind(lines: &Lines, at: Coord) -> Option<Pair>
    requires { IsPlace lines.now at }
    ensures gives { EndsAre lines.now result (around_sentence lines.now (offset lines.now at)) }
{
    if !is_full(lines, at.line as usize) {
        return None;
    }
    let anchor = find_begin(lines, at)?;
    let cursor = find_before_next(lines, anchor);
    Some(Pair { anchor, cursor })
}

/// The sentence that the cursor is in: from the last begin of a sentence up to the cursor, in its paragraph, to the stop
/// that ends it, or to the place before the paragraph's last newline. A cursor on the blanks behind a sentence is in it.
/// A sentence begins with its paragraph, and at the first character that is neither a blank nor a newline behind one of
/// `.;!?` which a blank or a newline follows. None where the cursor's line is empty. It costs the sentence.
pub fn inner_sentence(lines: &Lines, sel: &Sel) -> Option<Pair>
    requires { IsInside lines.now sel.now }
    ensures gives { EndsAre lines.now result (inner_sentence lines.now (cursor (range_of lines.now sel.now))) }
{
    sentence(lines, sel.cursor())
}

/// The same up to before the next sentence of the text, over empty lines too; for the last one up to the text's end.
pub fn around_sentence(lines: &Lines, sel: &Sel) -> Option<Pair>
    requires { IsInside lines.now sel.now }
    ensures gives { EndsAre lines.now result (around_sentence lines.now (cursor (range_of lines.now sel.now))) }
{
    sentence_and_behind(lines, sel.cursor())
}
