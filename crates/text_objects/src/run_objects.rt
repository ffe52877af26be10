//! The objects that are runs of characters: words, blanks and numbers.

ghost use Rattle.std.specs.Prelude.{◌≡◌};
ghost use Rattle.text_model.specs.Texts.{offset, IsPlace};
ghost use Rattle.list_model.specs.Ranges.{cursor};
ghost use Rattle.selection_set.specs.Inside.{range_of, IsInside};
ghost use Rattle.motion_keys.specs.Words.{EndsAre};
ghost use Rattle.text_objects.specs.RunObjects.{sign_before, inner_word, around_word, inner_blanks, around_blanks, inner_number, around_number};

use crate::runs::{CharKind, last_behind, run_at};
use kak_text::Coord;
use line_buffer::Lines;
use selection_set::{Pair, Sel};

/// The word that the cursor is in, from its first to its last character, both inside the text. With `big`, marks count
/// as parts of words. None where the cursor is on another character. It costs the word.
pub fn inner_word(lines: &Lines, sel: &Sel, big: bool) -> Option<Pair>
    requires { IsInside lines.now sel.now }
    ensures gives { EndsAre lines.now result (inner_word big lines.now (cursor (range_of lines.now sel.now))) }
{
    run_at(lines, sel.cursor(), CharKind::InWord(big))
}

/// The same with the blanks behind the word, which end with its line at the latest.
pub fn around_word(lines: &Lines, sel: &Sel, big: bool) -> Option<Pair>
    requires { IsInside lines.now sel.now }
    ensures gives { EndsAre lines.now result (around_word big lines.now (cursor (range_of lines.now sel.now))) }
{
    let word = inner_word(lines, sel, big)?;
    let cursor = last_behind(lines, word.cursor, CharKind::Blank);
    Some(Pair {
        anchor: word.anchor,
        cursor,
    })
}

/// The blanks of a line that the cursor is in, from the first to the last. None where the cursor is on another
/// character. It costs the blanks.
pub fn inner_blanks(lines: &Lines, sel: &Sel) -> Option<Pair>
    requires { IsInside lines.now sel.now }
    ensures gives { EndsAre lines.now result (inner_blanks lines.now (cursor (range_of lines.now sel.now))) }
{
    run_at(lines, sel.cursor(), CharKind::Blank)
}

/// The blanks and newlines that the cursor is in, from the first to the last. None where the cursor is on another
/// character. It costs them.
pub fn around_blanks(lines: &Lines, sel: &Sel) -> Option<Pair>
    requires { IsInside lines.now sel.now }
    ensures gives { EndsAre lines.now result (around_blanks lines.now (cursor (range_of lines.now sel.now))) }
{
    run_at(lines, sel.cursor(), CharKind::Gap)
}

/// The digits from 0 to 9 that the cursor is in, from the first to the last. None where the cursor is on another
/// character. It costs the digits.
pub fn inner_number(lines: &Lines, sel: &Sel) -> Option<Pair>
    requires { IsInside lines.now sel.now }
    ensures gives { EndsAre lines.now result (inner_number lines.now (cursor (range_of lines.now sel.now))) }
{
    run_at(lines, sel.cursor(), CharKind::Digit)
}

/// The same with the minus sign right before the digits, where there is one. None where the cursor is on the sign.
pub fn around_number(lines: &Lines, sel: &Sel) -> Option<Pair>
    requires { IsInside lines.now sel.now }
    ensures gives { EndsAre lines.now result (around_number lines.now (cursor (range_of lines.now sel.now))) }
{
    let number = inner_number(lines, sel)?;
    let anchor = before_sign(lines, number.anchor);
    Some(Pair {
        anchor,
        cursor: number.cursor,
    })
}

// The place of the minus sign right before a place, or that place where there is none.
fn before_sign(lines: &Lines, at: Coord) -> Coord
    requires { IsPlace lines.now at }
    ensures place { IsPlace lines.now result }
    ensures value { offset lines.now result ≡ sign_before lines.now (offset lines.now at) }
{
    match lines.prev(at) {
        None => at,
        Some(before) => {
            if lines.char_at(before) == '-' {
                return before;
            }
            at
        }
    }
}
