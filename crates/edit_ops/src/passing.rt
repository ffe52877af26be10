//! How the replacements of an edit are passed, one after another, by the shifts of its changes.

ghost use Rattle.std.specs.Prelude.{◌≡◌, ◌+◌, ◌<◌, ◌≤◌, ◌^◌, true, length};
ghost use Rattle.text_model.specs.declared.TheConstants.{MAX_CHARS};
ghost use Rattle.text_model.specs.Coords.{after, reached, is_at_most};
ghost use Rattle.text_model.specs.Texts.{ends_in_newline};
ghost use Rattle.selection_map.specs.Carrying.{IsSmall};
ghost use Rattle.edit_ops.specs.Passing.{is_same, one_if, place, takes_out, keeps_newline, puts_in, count_then, last_then, now_then, passed_at, last_put, AreSmallShifts};

use crate::putting::is_line;
use buffer_store::Splice;
use kak_text::{Coord, Shift};
use selection_map::rebase;

/// Behind `old` in the text before the edit, and behind `now` in the text of the moment, both are the same.
#[derive(Clone, Copy, Debug)]
pub(crate) struct PassedShifts {
    pub(crate) old: Coord,
    pub(crate) now: Coord,
    /// The last place of the text of the moment.
    pub(crate) last: Coord,
    /// How many shifts were passed.
    pub(crate) next: usize,
}

/// Whether two coordinates are the same.
pub(crate) fn is_same(a: Coord, b: Coord) -> bool
    ensures { result ≡ is_same a b }
{
    a.line == b.line && a.column == b.column
}

/// Where a replacement begins in the text of the moment.
pub(crate) fn place(walk: PassedShifts, splice: &Splice) -> Coord
    requires ordered { is_at_most walk.old splice.now.from ≡ true }
    requires from_small { IsSmall splice.now.from }
    requires now_small { IsSmall walk.now }
    ensures { result ≡ place walk splice.now }
{
    rebase(splice.from, walk.old, walk.now)
}

/// What was passed behind a replacement that begins at a coordinate of the moment.
pub(crate) fn passed_at(
    last: Coord,
    shifts: &[Shift],
    walk: PassedShifts,
    splice: &Splice,
    at: Coord,
) -> PassedShifts
    requires room { count_then last walk splice.now at ≤ length shifts.now }
    requires small { AreSmallShifts shifts.now }
    requires last_small { IsSmall walk.last }
    ensures { result ≡ passed_at last shifts.now walk splice.now at }
{
    let out = one_if(takes_out(last, at, splice));
    let put = one_if(puts_in(last, splice));
    let next = walk.next + (out + put);
    let end = last_then(shifts, walk, next);
    PassedShifts {
        old: splice.to,
        now: now_then(last, shifts, splice, at, next, end),
        last: end,
        next,
    }
}

// 1 for what is so.
fn one_if(so: bool) -> usize
    ensures { result ≡ one_if so }
{
    if so { 1 } else { 0 }
}

// Whether a replacement takes something out.
fn takes_out(last: Coord, at: Coord, splice: &Splice) -> bool
    ensures { result ≡ takes_out last at splice.now }
{
    if is_same(splice.from, splice.to) {
        return false;
    }
    if !is_same(splice.from, last) {
        return true;
    }
    at.line > 0 && at.column == 0 && !is_line(splice.text.as_slice())
}

// Whether the last newline stays in the place of another.
fn keeps_newline(last: Coord, splice: &Splice) -> bool
    ensures { result ≡ keeps_newline last splice.now }
{
    if is_same(splice.from, splice.to) {
        return false;
    }
    !splice.to.is_at_most(last) && is_line(splice.text.as_slice())
}

// Whether a replacement puts something in.
fn puts_in(last: Coord, splice: &Splice) -> bool
    ensures { result ≡ puts_in last splice.now }
{
    let kept = one_if(keeps_newline(last, splice));
    kept < splice.text.len()
}

// The last place behind so many shifts.
fn last_then(shifts: &[Shift], walk: PassedShifts, next: usize) -> Coord
    requires from { walk.next ≤ next }
    requires room { next ≤ length shifts.now }
    requires small { AreSmallShifts shifts.now }
    requires last_small { IsSmall walk.last }
    ensures value { result ≡ last_then shifts.now walk next }
    ensures small { IsSmall result }
{
    if next == walk.next {
        return walk.last;
    }
    shifts[next - 1].last
}

// Where a replacement ended in the text of the moment, which has this last place.
fn now_then(
    last: Coord,
    shifts: &[Shift],
    splice: &Splice,
    at: Coord,
    next: usize,
    end: Coord,
) -> Coord
    requires some { puts_in last splice.now ≡ true → 0 < next }
    requires room { next ≤ length shifts.now }
    requires end_small { IsSmall end }
    ensures { result ≡ now_then last shifts.now splice.now at next end }
{
    if !splice.to.is_at_most(last) {
        return Coord {
            line: end.line + 1,
            column: 0,
        };
    }
    if puts_in(last, splice) {
        return shifts[next - 1].end;
    }
    at
}

/// The last character of what was put in at a coordinate, where its insertion ended before another one.
pub(crate) fn last_put(at: Coord, chars: &[char], end: Coord) -> Coord
    requires some { 0 < length chars.now }
    requires few { length chars.now ≤ MAX_CHARS }
    requires at_small { IsSmall at }
    ensures { result ≡ last_put at chars.now end }
{
    if !is_line(chars) && end.column == 0 {
        return walked(at, chars);
    }
    walked(at, &chars[..chars.len() - 1])
}

// The coordinate behind a character at a coordinate.
fn stepped(at: Coord, c: char) -> Coord
    requires line { at.line + 1 < 2 ^ 32 }
    requires column { at.column + 1 < 2 ^ 32 }
    ensures { result ≡ after at c }
{
    if c == '\n' {
        return Coord {
            line: at.line + 1,
            column: 0,
        };
    }
    Coord {
        line: at.line,
        column: at.column + 1,
    }
}

// The coordinate behind characters that begin at a coordinate.
fn walked(from: Coord, chars: &[char]) -> Coord
    requires line { from.line + length chars.now < 2 ^ 32 }
    requires column { from.column + length chars.now < 2 ^ 32 }
    ensures { result ≡ reached from chars.now }
{
    let mut at = from;
    for c in chars {
        at = stepped(at, *c);
    }
    at
}
