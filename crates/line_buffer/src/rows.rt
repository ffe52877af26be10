//! The lines of a text as two rows, with a gap between them where the last change was. They are seen as one list, so
//! nobody can tell where the gap is. Reading a line moves nothing, and nor does a change within one. Lines that are put
//! in, taken out, joined or split move the gap to their place, one step for each line between: changes whose places
//! rise, or fall, move each line over once. A line that is joined with a later one, or split, keeps its begin where it is.

ghost use Rattle.std.specs.Prelude.{◌≡◌, ◌≢◌, ◌+◌, ◌<◌, ◌≤◌, ◌^◌, ◌++◌, ◌∷◌, [], length, take, drop, reverse, slice_index_or, slice_set, vec_capacity, All, IfOk, OnOk, OnErr};
ghost use Rattle.text_model.specs.Texts.{IsLine, IsText, lines_of};
ghost use Rattle.compact_chars.specs.Rows.{chars_of};

use crate::cuts::{cut, last_end};
use crate::line::Line;
use compact_chars::CharsRef;
use std::alloc::{AllocError, Global};
use std::marker::Model;

/// Lines in order: those before the gap, and those behind it with the last one first.
#[derive(Drop, Debug)]
pub struct Rows {
    front: Vec<Line>,
    back: Vec<Line>,
}

impl Model for Rows {
    ghost use Rattle.std.specs.Prelude.{List, ℕ, ◌++◌, reverse};

    ghost Value = { List (List ℕ) };

    ghost view = { λ a. a.front.items ++ reverse a.back.items };
}

impl Rows {
    /// These lines, with the gap behind them; takes no memory.
    pub fn of_vec(alloc: Global, lines: Vec<Line>) -> Rows
        ensures { result ≡ lines.items }
    {
        Rows {
            front: lines,
            back: Vec::new(alloc),
        }
    }

    /// How many lines there are.
    pub fn len(&self) -> usize
        requires { length self.now < 2 ^ 64 }
        ensures { result ≡ length self.now }
    {
        self.front.len() + self.back.len()
    }

    /// The n-th line from 0.
    pub fn line(&self, n: usize) -> &Line
        requires { n < length self.now }
        ensures { result.now ≡ slice_index_or self.now n [] }
    {
        if n < self.front.len() {
            return &self.front[n];
        }
        &self.back[self.back.len() - 1 - (n - self.front.len())]
    }

    /// Puts characters that are no newlines into the n-th line at a column; no line is moved.
    pub fn put_on(
        &mut self,
        alloc: Global,
        n: usize,
        column: usize,
        chars: &[char],
    ) -> Result<(), AllocError>
        requires inside { n < length self.old }
        requires column { column < length (slice_index_or self.old n []) }
        requires one_line { All (λ c. c ≢ 10) chars.now }
        ensures ok { OnOk result (self.new ≡ slice_set self.old n (take column (slice_index_or self.old n []) ++ (chars.now ++ drop column (slice_index_or self.old n [])))) }
        ensures err { OnErr result (self.new ≡ self.old) }
    {
        if n < self.front.len() {
            let line = &mut self.front[n];
            return line.put(alloc, column, chars);
        }
        let place = self.back.len() - 1 - (n - self.front.len());
        let line = &mut self.back[place];
        line.put(alloc, column, chars)
    }

    /// Takes the characters of the n-th line from a column to before another out; no line is moved, and it takes no memory.
    pub fn cut_on(&mut self, n: usize, from: usize, to: usize)
        requires inside { n < length self.old }
        requires ordered { from ≤ to }
        requires column { to < length (slice_index_or self.old n []) }
        ensures { self.new ≡ slice_set self.old n (take from (slice_index_or self.old n []) ++ drop to (slice_index_or self.old n [])) }
    {
        if n < self.front.len() {
            let line = &mut self.front[n];
            line.cut(from, to);
            return;
        }
        let place = self.back.len() - 1 - (n - self.front.len());
        let line = &mut self.back[place];
        line.cut(from, to);
    }

    /// Ends a line at a column as a later one does from a column on, and takes those behind it up to the later one out. It
    /// costs the two ends, the lines that go, and the lines between here and the change before, and not what stands
    /// before the first column. After an error the lines are as they were.
    pub fn join(
        &mut self,
        alloc: Global,
        first: usize,
        column: usize,
        last: usize,
        from: usize,
    ) -> Result<(), AllocError>
        requires ordered { first < last }
        requires inside { last < length self.old }
        requires column { column < length (slice_index_or self.old first []) }
        requires from { from < length (slice_index_or self.old last []) }
        ensures ok { OnOk result (self.new ≡ take first self.old ++ ((take column (slice_index_or self.old first []) ++ drop from (slice_index_or self.old last [])) ∷ drop (last + 1) self.old)) }
        ensures err { OnErr result (self.new ≡ self.old) }
    {
        move_gap(&mut self.front, &mut self.back, first + 1)?;
        let place = self.back.len() - (last - first);
        let line = &self.back[place];
        end_line(alloc, &mut self.front, first, column, line.rest(from))?;
        self.back.truncate(place);
        Ok(())
    }

    /// Puts characters into a line at a column, which makes lines of it. The longer part of the line stays where it is kept,
    /// and the shorter one is copied into a line of its own. It costs them, the shorter part, the move of the end of
    /// the line to its begin where that is the longer part, and the lines between here and the change before. After an
    /// error the lines are as they were.
    pub fn split(
        &mut self,
        alloc: Global,
        n: usize,
        column: usize,
        chars: &[char],
    ) -> Result<(), AllocError>
        requires inside { n < length self.old }
        requires column { column < length (slice_index_or self.old n []) }
        ensures ok { OnOk result (self.new ≡ take n self.old ++ (lines_of (take column (slice_index_or self.old n []) ++ (chars.now ++ drop column (slice_index_or self.old n []))) ++ drop (n + 1) self.old)) }
        ensures err { OnErr result (self.new ≡ self.old) }
    {
        move_gap(&mut self.front, &mut self.back, n + 1)?;
        split_last(alloc, &mut self.front, n, column, chars)
    }

    /// Puts lines in the place of those from one to before another. It costs these, and the lines between their place and
    /// that of the change before. After an error the lines are as they were.
    pub fn replace(
        &mut self,
        from: usize,
        to: usize,
        mut fresh: Vec<Line>,
    ) -> Result<(), AllocError>
        requires ordered { from ≤ to }
        requires inside { to ≤ length self.old }
        ensures ok { OnOk result (self.new ≡ take from self.old ++ (fresh.items ++ drop to self.old)) }
        ensures err { OnErr result (self.new ≡ self.old) }
    {
        move_gap(&mut self.front, &mut self.back, from)?;
        self.front.append(&mut fresh)?;
        let left = self.back.len() - (to - from);
        self.back.truncate(left);
        Ok(())
    }
}

// Ends the n-th line at a column as another does.
fn end_line(
    alloc: Global,
    front: &mut Vec<Line>,
    n: usize,
    column: usize,
    end: CharsRef<'_>,
) -> Result<(), AllocError>
    requires inside { n < length front.old.items }
    requires column { column < length (slice_index_or front.old.items n []) }
    requires line { IsLine (chars_of end) }
    ensures ok { OnOk result (front.new.items ≡ slice_set front.old.items n (take column (slice_index_or front.old.items n []) ++ chars_of end.entry)) }
    ensures err { OnErr result (front.new.items ≡ front.old.items) }
    ensures room { vec_capacity front.new ≡ vec_capacity front.old }
{
    let line = &mut front[n];
    line.end_as(alloc, column, end)
}

// Takes the characters of the n-th line before a column out, and puts others that are no newlines in their place.
fn begin_line(
    alloc: Global,
    front: &mut Vec<Line>,
    n: usize,
    column: usize,
    begin: &[char],
) -> Result<(), AllocError>
    requires inside { n < length front.old.items }
    requires column { column < length (slice_index_or front.old.items n []) }
    requires one_line { All (λ c. c ≢ 10) begin.now }
    ensures ok { OnOk result (front.new.items ≡ slice_set front.old.items n (begin.now ++ drop column (slice_index_or front.old.items n []))) }
    ensures err { OnErr result (front.new.items ≡ front.old.items) }
    ensures room { vec_capacity front.new ≡ vec_capacity front.old }
{
    let line = &mut front[n];
    line.begin_as(alloc, column, begin)
}

// Puts characters into the last line at a column, which makes lines of it.
fn split_last(
    alloc: Global,
    front: &mut Vec<Line>,
    n: usize,
    column: usize,
    chars: &[char],
) -> Result<(), AllocError>
    requires last { n + 1 ≡ length front.old.items }
    requires column { column < length (slice_index_or front.old.items n []) }
    ensures ok { OnOk result (front.new.items ≡ take n front.old.items ++ lines_of (take column (slice_index_or front.old.items n []) ++ (chars.now ++ drop column (slice_index_or front.old.items n [])))) }
    ensures err { OnErr result (front.new.items ≡ front.old.items) }
{
    let end = last_end(chars);
    if end == 0 {
        return keep_begin(alloc, front, n, column, chars);
    }
    if front[n].rest(column).len() <= column {
        return keep_begin(alloc, front, n, column, chars);
    }
    keep_end(alloc, front, n, column, &chars[..end], &chars[end..])
}

// Puts characters into the last line at a column. The line keeps its begin, and its end is copied. Room for the lines
// is made before.
fn keep_begin(
    alloc: Global,
    front: &mut Vec<Line>,
    n: usize,
    column: usize,
    chars: &[char],
) -> Result<(), AllocError>
    requires last { n + 1 ≡ length front.old.items }
    requires column { column < length (slice_index_or front.old.items n []) }
    ensures ok { OnOk result (front.new.items ≡ take n front.old.items ++ lines_of (take column (slice_index_or front.old.items n []) ++ (chars.now ++ drop column (slice_index_or front.old.items n [])))) }
    ensures err { OnErr result (front.new.items ≡ front.old.items) }
{
    let mut fresh = copy_end(alloc, &front[n], column, chars)?;
    front.reserve(fresh.len())?;
    let first = fresh.remove(0);
    end_line(alloc, front, n, column, first.as_chars())?;
    front.append(&mut fresh)?;
    Ok(())
}

// Puts whole lines and characters of one line behind them into the last line at a column. The line keeps its end, and its
// begin is copied. Room for the lines is made before.
fn keep_end(
    alloc: Global,
    front: &mut Vec<Line>,
    n: usize,
    column: usize,
    lines: &[char],
    rest: &[char],
) -> Result<(), AllocError>
    requires last { n + 1 ≡ length front.old.items }
    requires column { column < length (slice_index_or front.old.items n []) }
    requires lines { IsText lines.now }
    requires rest { All (λ c. c ≢ 10) rest.now }
    ensures ok { OnOk result (front.new.items ≡ take n front.old.items ++ lines_of (take column (slice_index_or front.old.items n []) ++ ((lines.now ++ rest.now) ++ drop column (slice_index_or front.old.items n [])))) }
    ensures err { OnErr result (front.new.items ≡ front.old.items) }
{
    let mut fresh = copy_begin(alloc, &front[n], column, lines)?;
    front.reserve(fresh.len())?;
    fresh.reserve(1)?;
    begin_line(alloc, front, n, column, rest)?;
    fresh.push_reserved(front.pop().unwrap());
    front.append(&mut fresh)?;
    Ok(())
}

// The lines of characters with a copy of the end of a line behind them.
fn copy_end(
    alloc: Global,
    line: &Line,
    column: usize,
    chars: &[char],
) -> Result<Vec<Line>, AllocError>
    requires { column < length line.now }
    ensures lines { IfOk result (λ lines. lines.items ≡ lines_of (chars.now ++ drop column line.now)) }
    ensures text { IsText (chars.now ++ drop column line.now) }
    ensures valid { IsLine line.now }
{
    let end = last_end(chars);
    let last = Line::of_both(alloc, CharsRef::Wide(&chars[end..]), line.rest(column))?;
    if end == 0 {
        return one(alloc, last);
    }
    let mut lines = cut(alloc, &chars[..end])?;
    lines.push(last)?;
    Ok(lines)
}

// A line alone.
fn one(alloc: Global, line: Line) -> Result<Vec<Line>, AllocError>
    ensures { IfOk result (λ lines. lines.items ≡ line ∷ []) }
{
    let mut lines = Vec::new(alloc);
    lines.push(line)?;
    Ok(lines)
}

// The lines of a copy of the begin of a line with whole lines behind it.
fn copy_begin(
    alloc: Global,
    line: &Line,
    column: usize,
    chars: &[char],
) -> Result<Vec<Line>, AllocError>
    requires column { column < length line.now }
    requires lines { IsText chars.now }
    ensures lines { IfOk result (λ lines. lines.items ≡ lines_of (take column line.now ++ chars.now)) }
    ensures valid { IsLine line.now }
{
    let begin = line.begin(column);
    let mut lines = cut(alloc, chars)?;
    let first = Line::of_both(alloc, begin, lines[0].as_chars())?;
    lines[0] = first;
    Ok(lines)
}

// Moves the gap to before a line, which nobody sees.
fn move_gap(front: &mut Vec<Line>, back: &mut Vec<Line>, to: usize) -> Result<(), AllocError>
    requires { to ≤ length front.old.items + length back.old.items }
    ensures same { front.new.items ++ reverse back.new.items ≡ front.old.items ++ reverse back.old.items }
    ensures moved { OnOk result (length front.new.items ≡ to) }
{
    if to <= front.len() {
        return pour(front, back, to);
    }
    let left = back.len() - (to - front.len());
    pour(back, front, left)
}

// Moves lines from the end of one row to that of another, the last one first, until so many are left. Room for them is
// made before.
fn pour(from: &mut Vec<Line>, onto: &mut Vec<Line>, left: usize) -> Result<(), AllocError>
    requires { left ≤ length from.old.items }
    ensures same { from.new.items ++ reverse onto.new.items ≡ from.old.items ++ reverse onto.old.items }
    ensures moved { OnOk result (length from.new.items ≡ left) }
{
    let more = from.len() - left;
    onto.reserve(more)?;
    for _ in 0..more {
        onto.push_reserved(from.pop().unwrap());
    }
    Ok(())
}
