//! Motions by words.

ghost use Rattle.std.specs.Prelude.{◌≡◌};
ghost use Rattle.text_model.specs.Texts.{offset, IsPlace};
ghost use Rattle.list_model.specs.Ranges.{cursor};
ghost use Rattle.selection_set.specs.Inside.{range_of, IsInside};
ghost use Rattle.motion_keys.specs.Places.{OffsetsAre};
ghost use Rattle.motion_keys.specs.Nearest.{least_from, greatest_to};
ghost use Rattle.motion_keys.specs.Words.{class_at, is_other, begin_ahead, behind_run, run_last, behind_word, last_before_next, last_of_word, begin_back, run_first, start_of_word, first_of_word, word_kind, word_ends, EndsAre};
ghost use Rattle.motion_keys.specs.declared.words.WordMove.TheVariants.{Next, End, Back};

use crate::searching::{Test, beside_place, class_for, nearest};
use directions::Direction;
use kak_text::{Class, Coord};
use line_buffer::Lines;
use selection_set::{Pair, Sel};

/// What a word is.
#[derive(Clone, Copy, PartialEq, Eq, Debug)]
pub enum WordKind {
    /// A run of letters, digits and `_`, or a run of other signs.
    Small,
    /// A run of all that is neither a blank nor a newline.
    Big,
}

impl WordKind {
    ghost use Rattle.std.specs.Prelude.{◌≡◌};
    ghost use Rattle.motion_keys.specs.Words.{word_kind};

    /// Big words, or else small ones.
    pub(crate) fn of(big: bool) -> WordKind
        ensures { result ≡ word_kind big }
    {
        if big { WordKind::Big } else { WordKind::Small }
    }
}

/// Where a motion by words goes.
#[derive(Clone, Copy, PartialEq, Eq, Debug)]
pub enum WordMove {
    /// To before the next word.
    Next,
    /// To the end of the word.
    End,
    /// Back to the start of the word.
    Back,
}

// The class of the character at a place, for words or for big words.
fn class_at(lines: &Lines, at: Coord, kind: WordKind) -> Class
    requires { IsPlace lines.now at }
    ensures { result ≡ class_at kind lines.now (offset lines.now at) }
{
    class_for(lines.char_at(at), kind)
}

// The least place from a place on whose character is of another class.
fn other_from(lines: &Lines, from: Coord, than: Class, kind: WordKind) -> Option<Coord>
    requires { IsPlace lines.now from }
    ensures { OffsetsAre lines.now result (least_from (is_other kind than) lines.now (offset lines.now from)) }
{
    nearest(lines, from, Direction::Forward, Test::Other(than, kind))
}

// The greatest place up to a place whose character is of another class.
fn other_to(lines: &Lines, upto: Coord, than: Class, kind: WordKind) -> Option<Coord>
    requires { IsPlace lines.now upto }
    ensures { OffsetsAre lines.now result (greatest_to (is_other kind than) lines.now (offset lines.now upto)) }
{
    nearest(lines, upto, Direction::Backward, Test::Other(than, kind))
}

// Where a motion forward begins.
fn begin_ahead(lines: &Lines, cursor: Coord, kind: WordKind) -> Option<Coord>
    requires { IsPlace lines.now cursor }
    ensures { OffsetsAre lines.now result (begin_ahead kind lines.now (offset lines.now cursor)) }
{
    let next = beside_place(lines, cursor, Direction::Forward)?;
    if class_at(lines, cursor, kind).is(class_at(lines, next, kind)) {
        return other_from(lines, cursor, Class::Line, kind);
    }
    other_from(lines, next, Class::Line, kind)
}

// Where a motion back begins.
fn begin_back(lines: &Lines, cursor: Coord, kind: WordKind) -> Option<Coord>
    requires { IsPlace lines.now cursor }
    ensures { OffsetsAre lines.now result (begin_back kind lines.now (offset lines.now cursor)) }
{
    let prev = beside_place(lines, cursor, Direction::Backward)?;
    if class_at(lines, cursor, kind).is(class_at(lines, prev, kind)) {
        return other_to(lines, cursor, Class::Line, kind);
    }
    other_to(lines, prev, Class::Line, kind)
}

// The place behind a run of one class.
fn behind_run(lines: &Lines, at: Coord, kind: WordKind) -> Option<Coord>
    requires { IsPlace lines.now at }
    ensures { OffsetsAre lines.now result (behind_run kind lines.now (offset lines.now at)) }
{
    let class = class_at(lines, at, kind);
    other_from(lines, at, class, kind)
}

// The last place of a run of one class.
fn run_last(lines: &Lines, at: Coord, kind: WordKind) -> Option<Coord>
    requires { IsPlace lines.now at }
    ensures { OffsetsAre lines.now result (run_last kind lines.now (offset lines.now at)) }
{
    let end = behind_run(lines, at, kind)?;
    beside_place(lines, end, Direction::Backward)
}

// The first place of a run of one class.
#[tactic(auto, using(line_buffer::proofs::StepLemmas::steps))]
fn run_first(lines: &Lines, at: Coord, kind: WordKind) -> Option<Coord>
    requires { IsPlace lines.now at }
    ensures { OffsetsAre lines.now result (run_first kind lines.now (offset lines.now at)) }
{
    let class = class_at(lines, at, kind);
    match other_to(lines, at, class, kind) {
        Some(other) => beside_place(lines, other, Direction::Forward),
        None => Some(lines.coord_of(0)),
    }
}

// The place behind a word, or behind one blank.
fn behind_word(lines: &Lines, at: Coord, kind: WordKind) -> Option<Coord>
    requires { IsPlace lines.now at }
    ensures { OffsetsAre lines.now result (behind_word kind lines.now (offset lines.now at)) }
{
    if class_at(lines, at, kind).is(Class::Blank) {
        return beside_place(lines, at, Direction::Forward);
    }
    behind_run(lines, at, kind)
}

// The last of the blanks behind a word.
fn last_before_next(lines: &Lines, at: Coord, kind: WordKind) -> Option<Coord>
    requires { IsPlace lines.now at }
    ensures { OffsetsAre lines.now result (last_before_next kind lines.now (offset lines.now at)) }
{
    let end = behind_word(lines, at, kind)?;
    let next = other_from(lines, end, Class::Blank, kind)?;
    beside_place(lines, next, Direction::Backward)
}

// The last place of the word that follows.
fn last_of_word(lines: &Lines, at: Coord, kind: WordKind) -> Option<Coord>
    requires { IsPlace lines.now at }
    ensures { OffsetsAre lines.now result (last_of_word kind lines.now (offset lines.now at)) }
{
    let start = other_from(lines, at, Class::Blank, kind)?;
    if class_at(lines, start, kind).is(Class::Line) {
        return beside_place(lines, start, Direction::Backward);
    }
    run_last(lines, start, kind)
}

// The first place of the word that goes before.
#[tactic(auto, using(line_buffer::proofs::StepLemmas::steps))]
fn first_of_word(lines: &Lines, at: Coord, kind: WordKind) -> Option<Coord>
    requires { IsPlace lines.now at }
    ensures { OffsetsAre lines.now result (first_of_word kind lines.now (offset lines.now at)) }
{
    match other_to(lines, at, Class::Blank, kind) {
        Some(end) => start_of_word(lines, end, kind),
        None => Some(lines.coord_of(0)),
    }
}

// The first place of the word that ends at a place, or, where a newline is there, of the next line.
fn start_of_word(lines: &Lines, end: Coord, kind: WordKind) -> Option<Coord>
    requires { IsPlace lines.now end }
    ensures { OffsetsAre lines.now result (start_of_word kind lines.now (offset lines.now end)) }
{
    if class_at(lines, end, kind).is(Class::Line) {
        return beside_place(lines, end, Direction::Forward);
    }
    run_first(lines, end, kind)
}

// What a motion to before the next word selects.
fn to_next(lines: &Lines, at: Coord, kind: WordKind) -> Option<Pair>
    requires { IsPlace lines.now at }
    ensures { EndsAre lines.now result (word_ends Next kind lines.now (offset lines.now at)) }
{
    let anchor = begin_ahead(lines, at, kind)?;
    let cursor = last_before_next(lines, anchor, kind)?;
    Some(Pair { anchor, cursor })
}

// What a motion to the end of a word selects.
fn to_end(lines: &Lines, at: Coord, kind: WordKind) -> Option<Pair>
    requires { IsPlace lines.now at }
    ensures { EndsAre lines.now result (word_ends End kind lines.now (offset lines.now at)) }
{
    let anchor = begin_ahead(lines, at, kind)?;
    let cursor = last_of_word(lines, anchor, kind)?;
    Some(Pair { anchor, cursor })
}

// What a motion back to the start of a word selects.
fn back(lines: &Lines, at: Coord, kind: WordKind) -> Option<Pair>
    requires { IsPlace lines.now at }
    ensures { EndsAre lines.now result (word_ends Back kind lines.now (offset lines.now at)) }
{
    let anchor = begin_back(lines, at, kind)?;
    let cursor = first_of_word(lines, anchor, kind)?;
    Some(Pair { anchor, cursor })
}

/// What a motion by words selects from the cursor: the anchor where it begins, the cursor where it ends. It costs the text
/// that it passes over.
pub(crate) fn word_between(lines: &Lines, sel: Sel, goal: WordMove, kind: WordKind) -> Option<Pair>
    requires { IsInside lines.now sel }
    ensures { EndsAre lines.now result (word_ends goal kind lines.now (cursor (range_of lines.now sel))) }
{
    let at = sel.cursor();
    match goal {
        WordMove::Next => to_next(lines, at, kind),
        WordMove::End => to_end(lines, at, kind),
        WordMove::Back => back(lines, at, kind),
    }
}

/// What a motion by words selects from the cursor: the anchor where it begins, the cursor where it ends, both inside
/// the text. With `big`, words end only at blanks and newlines. None where the motion has no place to go to: forward at
/// the last character or where only newlines follow, back at the first one or where only newlines stand before. It
/// costs the text that it passes over.
pub fn word(lines: &Lines, sel: &Sel, kind: WordMove, big: bool) -> Option<Pair>
    requires { IsInside lines.now sel.now }
    ensures gives { EndsAre lines.now result (word_ends kind (word_kind big) lines.now (cursor (range_of lines.now sel.now))) }
{
    word_between(lines, *sel, kind, WordKind::of(big))
}
