//! Going over the characters of a selection up to a byte of theirs.

ghost use Rattle.std.specs.Prelude.{◌≡◌, ℕ, ◌+◌, ◌-◌, ◌*◌, ◌<◌, ◌≤◌, List, length};
ghost use Rattle.text_model.specs.declared.TheConstants.{MAX_CHARS};
ghost use Rattle.text_model.specs.Texts.{IsPlace, IsPlaceOrEnd, offset, nth_line};
ghost use Rattle.selection_set.specs.Inside.{IsInside};
ghost use Rattle.compact_chars.specs.Rows.{chars_of};
ghost use Rattle.regex_ports.specs.Matching.{chars_before};
ghost use Rattle.regex_select.specs.Walks.{bytes_of_first, own_chars, IsWalk};

use compact_chars::CharsRef;
use kak_text::Coord;
use line_buffer::Lines;
use selection_set::Sel;

/// How far the characters of a selection have been gone over.
#[derive(Clone, Copy, PartialEq, Eq, Debug)]
pub(crate) struct SelectionWalk {
    /// The place that was reached, or the one behind the selection.
    pub(crate) at: Coord,
    /// How many characters were passed.
    pub(crate) passed: usize,
    /// How many bytes of UTF-8 these have.
    pub(crate) bytes: usize,
}

/// The walk before its first step.
pub(crate) fn start(sel: Sel) -> SelectionWalk
    ensures { result ≡ record { at = sel.low; passed = 0; bytes = 0 } }
{
    SelectionWalk {
        at: sel.low,
        passed: 0,
        bytes: 0,
    }
}

// A walk, or, where it is beyond a byte already, the one before the first step.
fn not_beyond(sel: Sel, from: SelectionWalk, byte: usize) -> SelectionWalk
    ensures walk { (text : List ℕ) → IsInside text sel → IsWalk text sel from → IsWalk text sel result }
    ensures before { (text : List ℕ) → IsInside text sel → IsWalk text sel from → bytes_of_first (own_chars text sel) result.passed ≤ byte }
{
    if from.bytes <= byte {
        return from;
    }
    start(sel)
}

// Goes over characters from a byte on, of which there are no more than bytes up to another one, as far as they begin
// before that: how many they are, and the byte behind them.
fn pass(run: CharsRef<'_>, from: usize, byte: usize) -> (usize, usize)
    requires some { 0 < length (chars_of run) }
    requires few { from + length (chars_of run) ≤ byte }
    requires short { length (chars_of run) ≤ MAX_CHARS }
    requires small { from ≤ 4 * MAX_CHARS }
    ensures some { 0 < result.0 }
    ensures inside { result.0 ≤ length (chars_of run.entry) }
    ensures bytes { result.1 ≡ from + bytes_of_first (chars_of run.entry) result.0 }
    ensures begun { from + bytes_of_first (chars_of run.entry) (result.0 - 1) < byte }
    ensures small { result.1 ≤ from + 4 * result.0 }
{
    match run {
        CharsRef::Narrow(ascii) if ascii.is_ascii() => return (ascii.len(), from + ascii.len()),
        _ => {}
    }
    let mut bytes = from;
    for i in 0..run.len() {
        if byte <= bytes {
            return (i, bytes);
        }
        bytes += run.at(i).len_utf8();
    }
    (run.len(), bytes)
}

// The column behind a selection's part of the line of a place in it.
fn part_end(line: CharsRef<'_>, sel: Sel, at: Coord) -> usize
    requires at { at.column < length (chars_of line) }
    requires high { at.line ≡ sel.high.line → (at.column ≤ sel.high.column) × (sel.high.column < length (chars_of line)) }
    ensures some { at.column < result }
    ensures line { result ≤ length (chars_of line.entry) }
    ensures high { at.line ≡ sel.high.line → result ≤ sel.high.column + 1 }
{
    if at.line == sel.high.line {
        return sel.high.column as usize + 1;
    }
    line.len()
}

// A column that is behind another one, but no further than so many characters.
fn at_most(end: usize, column: usize, most: usize) -> usize
    requires behind { column < end }
    requires some { 0 < most }
    ensures behind { column < result }
    ensures end { result ≤ end }
    ensures most { result ≤ column + most }
{
    if most < end - column {
        return column + most;
    }
    end
}

// The place so many characters further, which is on the same line or behind its newline.
fn further(lines: &Lines, at: Coord, count: usize) -> Coord
    requires place { IsPlace lines.now at }
    requires there { at.column + count ≤ length (nth_line lines.now at.line) }
    ensures place { IsPlaceOrEnd lines.now result }
    ensures offset { offset lines.now result ≡ offset lines.now at + count }
{
    // its contract says that there are not too many lines
    let _count = lines.line_count();
    let line = lines.line(at.line as usize);
    let column = at.column as usize + count;
    if column < line.len() {
        return Coord {
            line: at.line,
            column: column as u32,
        };
    }
    Coord {
        line: at.line + 1,
        column: 0,
    }
}

// Goes on by at least one character that begins before a byte, and by all such ones on a line of ASCII.
fn pass_line(lines: &Lines, sel: Sel, walk: SelectionWalk, byte: usize) -> SelectionWalk
    requires inside { IsInside lines.now sel }
    requires walk { IsWalk lines.now sel walk }
    requires there { walk.passed < length (own_chars lines.now sel) }
    requires before { walk.bytes < byte }
    requires small { length lines.now ≤ MAX_CHARS }
    ensures walk { IsWalk lines.now sel result }
    ensures further { walk.passed < result.passed }
    ensures begun { bytes_of_first (own_chars lines.now sel) (result.passed - 1) < byte }
{
    let line = lines.line(walk.at.line as usize);
    let column = walk.at.column as usize;
    let end = at_most(part_end(line, sel, walk.at), column, byte - walk.bytes);
    let (count, bytes) = pass(line.between(column, end), walk.bytes, byte);
    SelectionWalk {
        at: further(lines, walk.at, count),
        passed: walk.passed + count,
        bytes,
    }
}

/// The walk over the characters that begin before a byte; a walk up to a byte that isn't behind that one shortens the
/// way. It costs the characters between the two, which it goes over a line at a time.
pub(crate) fn walk_to(lines: &Lines, sel: Sel, from: SelectionWalk, byte: usize) -> SelectionWalk
    requires inside { IsInside lines.now sel }
    requires walk { IsWalk lines.now sel from }
    requires small { length lines.now ≤ MAX_CHARS }
    ensures walk { IsWalk lines.now sel result }
    ensures passed { result.passed ≡ chars_before (own_chars lines.now sel) byte }
{
    let mut walk = not_beyond(sel, from, byte);
    while walk.at.is_at_most(sel.high) {
        if byte <= walk.bytes {
            return walk;
        }
        walk = pass_line(lines, sel, walk, byte);
    }
    walk
}
