//! The move to the bracket that belongs to another one.

ghost use Rattle.std.specs.Prelude.{◌≡◌, ◌≢◌, ◌≤◌, ◌<◌, ◌+◌, ◌-◌, ◌==◌, false, true, if◌then◌else◌, None, Some, length, slice_index};
ghost use Rattle.text_model.specs.declared.TheConstants.{MAX_CHARS};
ghost use Rattle.text_model.specs.Texts.{offset, IsPlace};
ghost use Rattle.selection_set.specs.Inside.{range_of, IsInside};
ghost use Rattle.motion_keys.specs.Places.{OffsetsAre};
ghost use Rattle.motion_keys.specs.Extremes.{least_between, greatest_below};
ghost use Rattle.motion_keys.specs.Jumps.{bracket_of, first_bracket, are_even, match_of, bracket, RangesAre};

use crate::bracket_kinds::Bracket;
use kak_text::Coord;
use line_buffer::Lines;
use selection_set::{Pair, Sel};

// What bracket a character is, if it is one.
fn kind_of(c: char) -> Option<Bracket>
    ensures { result ≡ bracket_of c }
{
    match c {
        '(' => Some(Bracket::opening(')')),
        ')' => Some(Bracket::closing('(')),
        '[' => Some(Bracket::opening(']')),
        ']' => Some(Bracket::closing('[')),
        '{' => Some(Bracket::opening('}')),
        '}' => Some(Bracket::closing('{')),
        '<' => Some(Bracket::opening('>')),
        '>' => Some(Bracket::closing('<')),
        _ => None,
    }
}

// The first bracket from a place to the end of its line.
fn find_bracket(lines: &Lines, from: Coord) -> Option<Coord>
    requires { IsPlace lines.now from }
    ensures gives { OffsetsAre lines.now result (first_bracket lines.now (offset lines.now from)) }
    ensures small { length lines.now ≤ MAX_CHARS }
{
    let line = lines.line(from.line as usize);
    for column in from.column as usize..line.len() {
        if kind_of(line.at(column)).is_some() {
            return Some(Coord {
                line: from.line,
                column: column as u32,
            });
        }
    }
    None
}

/// How many brackets stand open after a character, by how many do before it: `own` opens one more, and `other` closes one.
pub fn depth_after(depth: usize, c: char, own: char, other: char) -> usize
    requires some { 0 < depth }
    requires small { depth ≤ MAX_CHARS }
    ensures { result ≡ (if c == own then depth + 1 else (if c == other then depth - 1 else depth)) }
{
    if c == own {
        return depth + 1;
    }
    if c == other {
        return depth - 1;
    }
    depth
}

/// The first place behind a bracket up to which as many of its kind close as open; none where there is no such place. It
/// costs the text up to there.
pub fn match_ahead(lines: &Lines, from: Coord, own: char, other: char) -> Option<Coord>
    requires place { IsPlace lines.now from }
    requires small { length lines.now ≤ MAX_CHARS }
    requires own { slice_index lines.now (offset lines.now from) ≡ own }
    requires apart { own ≢ other }
    ensures gives { OffsetsAre lines.now result (least_between (are_even lines.now own other (offset lines.now from)) (offset lines.now from + 1) (length lines.now)) }
{
    let mut at = from;
    let mut depth = 1;
    while let Some(next) = lines.next(at) {
        depth = depth_after(depth, lines.char_at(next), own, other);
        if depth == 0 {
            return Some(next);
        }
        at = next;
    }
    None
}

// The last place before a bracket from which on as many of its kind open as close.
fn match_behind(lines: &Lines, from: Coord, own: char, other: char) -> Option<Coord>
    requires place { IsPlace lines.now from }
    requires small { length lines.now ≤ MAX_CHARS }
    requires own { slice_index lines.now (offset lines.now from) ≡ own }
    requires apart { own ≢ other }
    ensures gives { OffsetsAre lines.now result (greatest_below (λ n. are_even lines.now own other n (offset lines.now from)) (offset lines.now from)) }
{
    let mut at = from;
    let mut depth = 1;
    while let Some(before) = lines.prev(at) {
        depth = depth_after(depth, lines.char_at(before), own, other);
        if depth == 0 {
            return Some(before);
        }
        at = before;
    }
    None
}

// Where the bracket at a place is matched.
fn find_match(lines: &Lines, from: Coord, bracket: Bracket) -> Option<Coord>
    requires place { IsPlace lines.now from }
    requires small { length lines.now ≤ MAX_CHARS }
    requires is { bracket_of (slice_index lines.now (offset lines.now from)) ≡ Some bracket }
    ensures gives { OffsetsAre lines.now result (match_of lines.now (offset lines.now from) bracket) }
{
    let own = lines.char_at(from);
    if bracket.opens {
        return match_ahead(lines, from, own, bracket.other);
    }
    match_behind(lines, from, own, bracket.other)
}

/// From the first of the brackets `()[]{}<>` at the cursor or behind it on its line, to the bracket that belongs to it;
/// brackets of other kinds don't count. None where the line has no bracket there, or where it has no match.
pub fn bracket(lines: &Lines, sel: &Sel) -> Option<Pair>
    requires { IsInside lines.now sel.now }
    ensures gives { RangesAre lines.now result (bracket lines.now (range_of lines.now sel.now)) }
{
    let anchor = find_bracket(lines, sel.cursor())?;
    let kind = kind_of(lines.char_at(anchor))?;
    let cursor = find_match(lines, anchor, kind)?;
    Some(Pair { anchor, cursor })
}
