//! Moves to a character.

ghost use Rattle.std.specs.Prelude.{◌≡◌, None, Some};
ghost use Rattle.text_model.specs.Texts.{offset, IsPlace};
ghost use Rattle.selection_set.specs.Inside.{range_of, IsInside};
ghost use Rattle.motion_keys.specs.Places.{OffsetsAre};
ghost use Rattle.motion_keys.specs.Jumps.{next_with, last_with, char_place, search_of, to_char, RangesAre};

use crate::searching::{Test, beside_place, nearest};
use directions::Direction;
use kak_text::Coord;
use line_buffer::Lines;
use selection_set::{Pair, Sel};

/// How far a motion to a character goes.
#[derive(Clone, Copy, PartialEq, Eq, Debug)]
pub enum Until {
    /// Onto the character.
    On,
    /// Up to the character that stands before it on the way.
    Before,
}

/// On which way a character is looked for, and how far the motion goes.
#[derive(Clone, Copy, PartialEq, Eq, Debug)]
pub struct CharSearch {
    /// The way from the cursor.
    pub direction: Direction,
    /// Where the motion ends.
    pub until: Until,
}

impl CharSearch {
    ghost use Rattle.std.specs.Prelude.{◌≡◌};
    ghost use Rattle.motion_keys.specs.Jumps.{search_of};

    // A search further on or else further up, onto the character or else up to it.
    pub(crate) fn of(forward: bool, onto: bool) -> CharSearch
        ensures { result ≡ search_of forward onto }
    {
        let until = if onto { Until::On } else { Until::Before };
        CharSearch {
            direction: Direction::of(forward),
            until,
        }
    }
}

// The next place that holds a character.
fn find_next(lines: &Lines, from: Coord, c: char) -> Option<Coord>
    requires { IsPlace lines.now from }
    ensures gives { OffsetsAre lines.now result (next_with lines.now c (offset lines.now from)) }
{
    let next = beside_place(lines, from, Direction::Forward)?;
    nearest(lines, next, Direction::Forward, Test::Is(c))
}

// The last place before another one that holds a character.
fn find_last(lines: &Lines, from: Coord, c: char) -> Option<Coord>
    requires { IsPlace lines.now from }
    ensures gives { OffsetsAre lines.now result (last_with lines.now c (offset lines.now from)) }
{
    let before = beside_place(lines, from, Direction::Backward)?;
    nearest(lines, before, Direction::Backward, Test::Is(c))
}

// The place of a character ahead, or the one before it; or behind, or the one after it.
fn find_place(lines: &Lines, from: Coord, c: char, search: CharSearch) -> Option<Coord>
    requires { IsPlace lines.now from }
    ensures gives { OffsetsAre lines.now result (char_place lines.now (offset lines.now from) c search.direction search.until) }
{
    match search.direction {
        Direction::Forward => {
            let next = find_next(lines, from, c)?;
            match search.until {
                Until::On => Some(next),
                Until::Before => lines.prev(next),
            }
        }
        Direction::Backward => {
            let last = find_last(lines, from, c)?;
            match search.until {
                Until::On => Some(last),
                Until::Before => lines.next(last),
            }
        }
    }
}

/// From the cursor to a character, or to the one that stands before it on the way.
pub(crate) fn char_between(lines: &Lines, sel: Sel, c: char, search: CharSearch) -> Option<Pair>
    requires { IsInside lines.now sel }
    ensures { RangesAre lines.now result (to_char lines.now (range_of lines.now sel) c search) }
{
    let anchor = sel.cursor();
    match find_place(lines, anchor, c, search) {
        None => None,
        Some(cursor) => Some(Pair { anchor, cursor }),
    }
}

/// From the cursor to the next place behind it that holds a character, or to the last place before it that does;
/// without `onto` only up to the character that stands before it on the way. None where no such place holds it.
pub fn to_char(lines: &Lines, sel: &Sel, c: char, forward: bool, onto: bool) -> Option<Pair>
    requires { IsInside lines.now sel.now }
    ensures gives { RangesAre lines.now result (to_char lines.now (range_of lines.now sel.now) c (search_of forward onto)) }
{
    char_between(lines, *sel, c, CharSearch::of(forward, onto))
}
