//! The lines that selections reach, ascending and each once.

ghost use Rattle.std.specs.Prelude.{◌≡◌, ◌++◌, map, IfOk, OnOk};
ghost use Rattle.text_model.specs.Texts.{IsStored};
ghost use Rattle.selection_set.specs.Listing.{ranges_of};
ghost use Rattle.selection_set.specs.Held.{IsHeld};
ghost use Rattle.edit_ops.specs.Spans.{reachable, lines_reached};
ghost use Rattle.edit_ops.specs.SpanWalk.{span_at, end_below, numbers_between, walked};

use line_buffer::Lines;
use selection_set::{Sel, Sels};
use std::alloc::{AllocError, Global};

/// The lines from a first one to a last one.
#[derive(Clone, Copy, Debug)]
pub(crate) struct LineSpan {
    pub(crate) first: u32,
    pub(crate) last: u32,
}

/// Which lines a selection reaches.
#[derive(Clone, Copy, Debug)]
pub(crate) enum LineReach {
    /// Those that it touches.
    Touched,
    /// Those that it joins to the next one: all that it touches but the last, or the only one.
    Joined,
}

/// The lines that the selections of a list reach, ascending and each once. It costs the list and these lines.
pub(crate) fn lines_reached(
    alloc: Global,
    lines: &Lines,
    sels: &Sels,
    reach: LineReach,
) -> Result<Vec<u32>, AllocError>
    requires { IsHeld lines.now sels.now }
    ensures reached { IfOk result (λ v. v.items ≡ lines_reached lines.now reach (ranges_of lines.now sels.now.list)) }
    ensures valid { IsStored lines.now }
{
    walked(alloc, sels.as_slice(), reach, reachable(lines, reach))
}

// How many lines can be reached.
fn reachable(lines: &Lines, reach: LineReach) -> u32
    ensures value { result ≡ reachable lines.now reach }
    ensures valid { IsStored lines.now }
{
    let count = lines.line_count() as u32;
    match reach {
        LineReach::Touched => count,
        LineReach::Joined => count - 1,
    }
}

// The lines below a count that selections reach, each selection from where none before it ended.
fn walked(alloc: Global, sels: &[Sel], reach: LineReach, count: u32) -> Result<Vec<u32>, AllocError>
    ensures { IfOk result (λ v. v.items ≡ walked count 0 (map (span_at reach) sels.now)) }
{
    let mut numbers = Vec::new(alloc);
    let mut next = 0;
    for sel in sels {
        let span = span_at(*sel, reach);
        let end = end_below(span, count);
        push_between(&mut numbers, next.max(span.first), end)?;
        next = next.max(end);
    }
    Ok(numbers)
}

// The lines that a selection reaches.
fn span_at(sel: Sel, reach: LineReach) -> LineSpan
    ensures { result ≡ span_at reach sel }
{
    let first = sel.low.line;
    match reach {
        LineReach::Touched => LineSpan {
            first,
            last: sel.high.line,
        },
        LineReach::Joined => LineSpan {
            first,
            last: first.max(sel.high.line.saturating_sub(1)),
        },
    }
}

// The line behind a span, or the count.
fn end_below(span: LineSpan, count: u32) -> u32
    ensures { result ≡ end_below count span }
{
    if span.last < count {
        span.last + 1
    } else {
        count
    }
}

// Adds the numbers from one to before another.
fn push_between(numbers: &mut Vec<u32>, from: u32, to: u32) -> Result<(), AllocError>
    ensures { OnOk result (numbers.new.items ≡ numbers.old.items ++ numbers_between from to) }
{
    for n in from..to {
        numbers.push(n)?;
    }
    Ok(())
}
