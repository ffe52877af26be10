//! Going over the characters of a run.

ghost use Rattle.std.specs.Prelude.{◌≡◌, ◌+◌, ◌-◌};
ghost use Rattle.text_model.specs.Texts.{offset, IsPlace};
ghost use Rattle.motion_keys.specs.Words.{EndsAre};
ghost use Rattle.text_objects.specs.Runs.{chars_begin, chars_end, char_run};
ghost use Rattle.text_objects.specs.CharKinds.{is_char_of};

use kak_text::{Class, Coord, class};
use line_buffer::Lines;
use selection_set::Pair;

/// What a run is made of.
#[derive(Clone, Copy, PartialEq, Eq, Debug)]
pub(crate) enum CharKind {
    /// Characters of words or, where the flag is set, of big words.
    InWord(bool),
    /// Blanks.
    Blank,
    /// Blanks and newlines.
    Gap,
    /// The digits of ASCII.
    Digit,
}

/// Whether a character is of a kind.
pub(crate) fn is_char_of(c: char, kind: CharKind) -> bool
    ensures { result ≡ is_char_of kind c }
{
    match kind {
        CharKind::InWord(true) => class(c).wide().is(Class::Word),
        CharKind::InWord(false) => class(c).is(Class::Word),
        CharKind::Blank => class(c).is(Class::Blank),
        CharKind::Gap => {
            let own = class(c);
            own.is(Class::Blank) || own.is(Class::Line)
        }
        CharKind::Digit => '0' <= c && c <= '9',
    }
}

/// The first of the characters of a kind that stand right before a place; that place itself where there are none.
pub(crate) fn first_before(lines: &Lines, from: Coord, kind: CharKind) -> Coord
    requires { IsPlace lines.now from }
    ensures place { IsPlace lines.now result }
    ensures value { offset lines.now result ≡ chars_begin (is_char_of kind) lines.now (offset lines.now from) }
{
    let mut at = from;
    while let Some(before) = lines.prev(at) {
        if !is_char_of(lines.char_at(before), kind) {
            return at;
        }
        at = before;
    }
    at
}

/// The last of the characters of a kind that stand right behind a place; that place itself where there are none.
pub(crate) fn last_behind(lines: &Lines, from: Coord, kind: CharKind) -> Coord
    requires { IsPlace lines.now from }
    ensures place { IsPlace lines.now result }
    ensures value { offset lines.now result ≡ chars_end (is_char_of kind) lines.now (offset lines.now from + 1) - 1 }
{
    let mut at = from;
    while let Some(next) = lines.next(at) {
        if !is_char_of(lines.char_at(next), kind) {
            return at;
        }
        at = next;
    }
    at
}

/// The run of characters of a kind that holds a place.
pub(crate) fn run_at(lines: &Lines, at: Coord, kind: CharKind) -> Option<Pair>
    requires { IsPlace lines.now at }
    ensures gives { EndsAre lines.now result (char_run (is_char_of kind) lines.now (offset lines.now at)) }
{
    if !is_char_of(lines.char_at(at), kind) {
        return None;
    }
    let anchor = first_before(lines, at, kind);
    let cursor = last_behind(lines, at, kind);
    Some(Pair { anchor, cursor })
}
