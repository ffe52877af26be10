//! Motions: where each leads a selection of a text, and what becomes of the selection.

ghost use Rattle.std.specs.Prelude.{◌≡◌, ℕ, ◌≤◌, List, option_map};
ghost use Rattle.std.specs.declared.option.Option.{Option};
ghost use Rattle.list_model.specs.Ranges.{Range, only};
ghost use Rattle.selection_set.specs.Inside.{range_of, IsInside};
ghost use Rattle.window_view.specs.Views.{window_seen};
ghost use Rattle.motion_keys.specs.Places.{OffsetsAre};
ghost use Rattle.motion_keys.specs.Jumps.{RangesAre};
ghost use Rattle.motion_keys.specs.Finding.{lines_along, found, reached, moved, IsFound};

use crate::bracket_moves::bracket;
use crate::char_moves::{CharSearch, char_between};
use crate::landmarks::{LinePart, Place};
use crate::moves::vertical;
use crate::place_moves::{find_place, part_between};
use crate::searching::beside_place;
use crate::words::{WordKind, WordMove, word_between};
use directions::Direction;
use kak_text::Coord;
use line_buffer::Lines;
use selection_set::{Pair, Sel};
use window_view::{Tabstop, Window};

/// Where a motion leads from a selection.
#[derive(Clone, Copy, PartialEq, Eq, Debug)]
pub enum Motion {
    /// To the character behind the cursor, or before it.
    Step(Direction),
    /// To the line below the cursor's, or above it.
    Line(Direction),
    /// As many lines down or up as the window has.
    Page(Direction),
    /// By words.
    Word(WordMove, WordKind),
    /// To a character.
    Character(CharSearch, char),
    /// To a place that has a name.
    To(Place),
    /// To an end of the line.
    Along(LinePart),
    /// To the bracket that belongs to another one.
    Bracket,
}

/// What becomes of a selection that a motion leads to another one.
#[derive(Clone, Copy, PartialEq, Eq, Debug)]
pub enum Reach {
    /// It becomes that one.
    Select,
    /// It keeps its anchor, and takes that one's cursor and target.
    Extend,
}

// The selection of a character that was found.
fn alone(place: Option<Coord>) -> Option<Sel>
    ensures { (text : List ℕ) (o : Option ℕ) → OffsetsAre text place o → IsFound text result (option_map only o) }
{
    match place {
        None => None,
        Some(at) => Some(Sel::only(at)),
    }
}

// The selection between two ends that were found.
fn between(ends: Option<Pair>) -> Option<Sel>
    ensures { (text : List ℕ) (range : Option Range) → RangesAre text ends range → IsFound text result range }
{
    match ends {
        None => None,
        Some(pair) => Some(Sel::of_pair(pair)),
    }
}

// So many lines down, or up.
fn lines_along(direction: Direction, count: u16) -> i64
    ensures { result ≡ lines_along direction count }
{
    match direction {
        Direction::Forward => i64::from(count),
        Direction::Backward => -i64::from(count),
    }
}

/// What a motion selects from a selection, for a window and a tab stop at each so many columns; None exactly where it
/// finds no place. It costs the text that it passes over.
pub fn find(
    lines: &Lines,
    window: &Window,
    tabstop: Tabstop,
    sel: Sel,
    motion: Motion,
) -> Option<Sel>
    requires inside { IsInside lines.now sel }
    ensures finds { IsFound lines.now result (found motion (window_seen window.now) tabstop.columns lines.now (range_of lines.now sel)) }
{
    match motion {
        Motion::Step(direction) => alone(beside_place(lines, sel.cursor(), direction)),
        Motion::Line(direction) => vertical(lines, &sel, lines_along(direction, 1), tabstop),
        Motion::Page(direction) => {
            vertical(lines, &sel, lines_along(direction, window.rows), tabstop)
        }
        Motion::Word(goal, kind) => between(word_between(lines, sel, goal, kind)),
        Motion::Character(search, c) => between(char_between(lines, sel, c, search)),
        Motion::To(place) => alone(find_place(lines, sel.cursor(), window, place)),
        Motion::Along(part) => between(Some(part_between(lines, sel, part))),
        Motion::Bracket => between(bracket(lines, &sel)),
    }
}

// What becomes of a selection that a motion leads to another one.
fn reached(sel: Sel, target: Sel, reach: Reach) -> Sel
    ensures inside { (text : List ℕ) → IsInside text sel → IsInside text target → IsInside text result }
    ensures reaches { (text : List ℕ) → IsInside text sel → IsInside text target → range_of text result ≡ reached reach (range_of text sel) (range_of text target) }
{
    match reach {
        Reach::Select => target,
        Reach::Extend => {
            let mut extended = Sel::of_pair(Pair {
                anchor: sel.anchor(),
                cursor: target.cursor(),
            });
            extended.target = target.target;
            extended
        }
    }
}

/// Where a motion takes a selection: where it leads, or stretched to there; where it finds no place, the selection stays.
pub fn moved(
    lines: &Lines,
    window: &Window,
    tabstop: Tabstop,
    sel: Sel,
    motion: Motion,
    reach: Reach,
) -> Sel
    requires inside { IsInside lines.now sel }
    ensures inside { IsInside lines.now result }
    ensures moves { range_of lines.now result ≡ moved motion reach (window_seen window.now) tabstop.columns lines.now (range_of lines.now sel) }
{
    match find(lines, window, tabstop, sel, motion) {
        Some(target) => reached(sel, target, reach),
        None => sel,
    }
}
