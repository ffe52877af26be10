//! Going over a text, character by character, to the nearest one that passes a test.

ghost use Rattle.std.specs.Prelude.{◌≡◌};
ghost use Rattle.text_model.specs.Texts.{offset, IsPlace};
ghost use Rattle.motion_keys.specs.Motions.{offset_beside};
ghost use Rattle.motion_keys.specs.Places.{OffsetsAre};
ghost use Rattle.motion_keys.specs.Words.{class_for};
ghost use Rattle.motion_keys.specs.Searching.{passes, nearest};

use crate::words::WordKind;
use directions::Direction;
use kak_text::{Class, Coord, class};
use line_buffer::Lines;

/// What is looked for.
#[derive(Clone, Copy, PartialEq, Eq, Debug)]
pub enum Test {
    /// A character of another class than this one, by what words are.
    Other(Class, WordKind),
    /// A character that is neither a blank nor a newline.
    Solid,
    /// This character.
    Is(char),
}

/// The class of a character, for words or for big words.
pub(crate) fn class_for(c: char, kind: WordKind) -> Class
    ensures { result ≡ class_for kind c }
{
    let own = class(c);
    match kind {
        WordKind::Small => own,
        WordKind::Big => own.wide(),
    }
}

// Whether a character passes a test.
fn passes(c: char, test: Test) -> bool
    ensures { result ≡ passes test c }
{
    match test {
        Test::Other(than, kind) => !class_for(c, kind).is(than),
        Test::Solid => {
            let own = class(c);
            !(own.is(Class::Blank) || own.is(Class::Line))
        }
        Test::Is(wanted) => c == wanted,
    }
}

/// The place of the character after a place, or before it.
pub(crate) fn beside_place(lines: &Lines, at: Coord, direction: Direction) -> Option<Coord>
    requires { IsPlace lines.now at }
    ensures gives { OffsetsAre lines.now result (offset_beside lines.now (offset lines.now at) direction) }
{
    match direction {
        Direction::Forward => lines.next(at),
        Direction::Backward => lines.prev(at),
    }
}

/// The nearest place on a way, the one where it begins itself included, whose character passes a test. It costs the text
/// that it passes over.
pub fn nearest(lines: &Lines, from: Coord, direction: Direction, test: Test) -> Option<Coord>
    requires { IsPlace lines.now from }
    ensures { OffsetsAre lines.now result (nearest direction (passes test) lines.now (offset lines.now from)) }
{
    let mut at = from;
    while !passes(lines.char_at(at), test) {
        match beside_place(lines, at, direction) {
            Some(next) => at = next,
            None => return None,
        }
    }
    Some(at)
}
