//! The objects between brackets.

ghost use Rattle.std.specs.Prelude.{◌≡◌, ◌≢◌, ◌≤◌, length, Some};
ghost use Rattle.text_model.specs.declared.TheConstants.{MAX_CHARS};
ghost use Rattle.text_model.specs.Texts.{offset, IsPlace};
ghost use Rattle.list_model.specs.Ranges.{cursor};
ghost use Rattle.selection_set.specs.Inside.{range_of, IsInside};
ghost use Rattle.motion_keys.specs.Places.{OffsetsAre};
ghost use Rattle.motion_keys.specs.Words.{EndsAre, ends};
ghost use Rattle.text_objects.specs.Pairs.{inside, around_brackets, inner_brackets};
ghost use Rattle.text_objects.specs.Unclosed.{unclosed};

use kak_text::Coord;
use line_buffer::Lines;
use motion_keys::bracket_moves::{depth_after, match_ahead};
use selection_set::{Pair, Sel};

// The bracket that opens at a place; where none does, the last before it that isn't closed before it.
fn find_unclosed(lines: &Lines, from: Coord, opening: char, closing: char) -> Option<Coord>
    requires place { IsPlace lines.now from }
    requires apart { opening ≢ closing }
    ensures gives { OffsetsAre lines.now result (unclosed opening closing lines.now (offset lines.now from)) }
    ensures small { length lines.now ≤ MAX_CHARS }
{
    if lines.line(from.line as usize).at(from.column as usize) == opening {
        return Some(from);
    }
    let mut at = from;
    let mut depth = 1;
    while let Some(before) = lines.prev(at) {
        depth = depth_after(depth, lines.char_at(before), closing, opening);
        if depth == 0 {
            return Some(before);
        }
        at = before;
    }
    None
}

// The innermost pair that holds a place. A bracket that stands open there without a match leaves those around it without
// one too, so that none but the last has to be looked at.
fn brackets_at(lines: &Lines, at: Coord, opening: char, closing: char) -> Option<Pair>
    requires place { IsPlace lines.now at }
    requires apart { opening ≢ closing }
    ensures gives { EndsAre lines.now result (around_brackets opening closing lines.now (offset lines.now at)) }
{
    let anchor = find_unclosed(lines, at, opening, closing)?;
    let cursor = match_ahead(lines, anchor, opening, closing)?;
    Some(Pair { anchor, cursor })
}

/// What stands between the two ends of a pair; nothing where no character does.
pub(crate) fn between(lines: &Lines, pair: Pair) -> Option<Pair>
    requires anchor { IsPlace lines.now pair.anchor }
    requires cursor { IsPlace lines.now pair.cursor }
    ensures gives { EndsAre lines.now result (inside (ends (offset lines.now pair.anchor) (offset lines.now pair.cursor))) }
{
    let anchor = lines.next(pair.anchor)?;
    let cursor = lines.prev(pair.cursor)?;
    if anchor.is_at_most(cursor) {
        return Some(Pair { anchor, cursor });
    }
    None
}

/// The innermost pair of brackets that holds the cursor, which may stand on one of them, from the one that opens to the
/// one that closes. Brackets of other kinds don't count. None where no pair holds the cursor. It costs the text from the
/// pair's begin to its end; where there is no pair, up to the whole text.
pub fn around_brackets(lines: &Lines, sel: &Sel, opening: char, closing: char) -> Option<Pair>
    requires inside { IsInside lines.now sel.now }
    requires apart { opening ≢ closing }
    ensures gives { EndsAre lines.now result (around_brackets opening closing lines.now (cursor (range_of lines.now sel.now))) }
{
    brackets_at(lines, sel.cursor(), opening, closing)
}

/// What stands between the brackets of that pair. None where nothing does, too.
pub fn inner_brackets(lines: &Lines, sel: &Sel, opening: char, closing: char) -> Option<Pair>
    requires inside { IsInside lines.now sel.now }
    requires apart { opening ≢ closing }
    ensures gives { EndsAre lines.now result (inner_brackets opening closing lines.now (cursor (range_of lines.now sel.now))) }
{
    let pair = brackets_at(lines, sel.cursor(), opening, closing)?;
    between(lines, pair)
}
