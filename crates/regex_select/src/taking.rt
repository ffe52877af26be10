//! What is made of one selection by the matches in it.

ghost use Rattle.std.specs.Prelude.{◌≡◌, ◌+◌, ◌<◌, ◌≤◌, ◌++◌, Some, length, option_to_list, IfErr, IfSome, OnOk, IfOk};
ghost use Rattle.text_model.specs.declared.TheConstants.{MAX_CHARS, MAX_SELECTIONS};
ghost use Rattle.text_model.specs.Texts.{offset, IsPlace, IsPlaceOrEnd};
ghost use Rattle.selection_set.specs.Inside.{IsInside};
ghost use Rattle.selection_set.specs.Listing.{AreInside, ranges_of};
ghost use Rattle.regex_select.specs.Selecting.{match_end};
ghost use Rattle.regex_select.specs.Taking.{made_of, part_of, part_found, AreAdded};
ghost use Rattle.regex_select.specs.Walks.{own_chars, IsWalk};
ghost use Rattle.regex_select.specs.Causes.{IsForRoom};

use crate::error::SelectError;
use crate::walking::{SelectionWalk, start, walk_to};
use kak_text::Coord;
use line_buffer::Lines;
use regex_ports::Span;
use selection_set::Sel;
use smallvec::SmallVec;
use std::alloc::{AllocError, Global};
use text_model::MAX_SELECTIONS;

/// What is made of a selection.
#[derive(Clone, Copy, PartialEq, Eq, Debug)]
pub(crate) enum Take {
    /// What its matches select.
    Matches,
    /// What they leave before, between and behind them.
    Parts,
}

// The place before another one, or before the end.
fn before(lines: &Lines, at: Coord) -> Coord
    requires place { IsPlaceOrEnd lines.now at }
    requires later { 0 < offset lines.now at }
    ensures place { IsPlace lines.now result }
    ensures offset { offset lines.now result + 1 ≡ offset lines.now at }
{
    if at.column > 0 {
        return Coord {
            line: at.line,
            column: at.column - 1,
        };
    }
    lines.line_end(at.line - 1)
}

// What lies from one character on and before another, if anything does.
fn part(lines: &Lines, sel: Sel, first: SelectionWalk, end: SelectionWalk) -> Option<Sel>
    requires inside { IsInside lines.now sel }
    requires first { IsWalk lines.now sel first }
    requires end { IsWalk lines.now sel end }
    ensures inside { IfSome result (λ s. IsInside lines.now s) }
    ensures range { ranges_of lines.now (option_to_list result) ≡ part_of lines.now sel first.passed end.passed }
{
    if first.passed < end.passed {
        return Some(Sel {
            low: first.at,
            high: before(lines, end.at),
            turned: false,
            target: None,
        });
    }
    None
}

// What lies from one character of a selection on, if anything does.
fn rest(lines: &Lines, sel: Sel, first: SelectionWalk) -> Option<Sel>
    requires inside { IsInside lines.now sel }
    requires first { IsWalk lines.now sel first }
    ensures inside { IfSome result (λ s. IsInside lines.now s) }
    ensures range { ranges_of lines.now (option_to_list result) ≡ part_of lines.now sel first.passed (length (own_chars lines.now sel)) }
{
    if first.at.is_at_most(sel.high) {
        return Some(Sel {
            low: first.at,
            high: sel.high,
            turned: false,
            target: None,
        });
    }
    None
}

/// What is selected by a match from one character on and before another.
pub(crate) fn found(
    lines: &Lines,
    sel: Sel,
    first: SelectionWalk,
    end: SelectionWalk,
) -> Option<Sel>
    requires inside { IsInside lines.now sel }
    requires first { IsWalk lines.now sel first }
    requires end { IsWalk lines.now sel end }
    ensures inside { IfSome result (λ s. IsInside lines.now s) }
    ensures range { ranges_of lines.now (option_to_list result) ≡ part_found lines.now sel first.passed end.passed }
{
    if first.passed < end.passed {
        return part(lines, sel, first, end);
    }
    if first.at.is_at_most(sel.high) {
        return Some(Sel::only(first.at));
    }
    None
}

/// Puts a selection behind a list.
pub(crate) fn push(list: &mut SmallVec<Sel, 4>, sel: Sel) -> Result<(), AllocError>
    ensures { OnOk result (list.new.items ≡ list.old.items ++ option_to_list (Some sel)) }
{
    list.push(sel)?;
    Ok(())
}

// Puts what was found behind a list.
fn push_found(list: &mut SmallVec<Sel, 4>, found: Option<Sel>) -> Result<(), SelectError>
    requires { length list.old.items ≤ MAX_SELECTIONS }
    ensures items { OnOk result (list.new.items ≡ list.old.items ++ option_to_list found) }
    ensures few { OnOk result (length list.new.items ≤ MAX_SELECTIONS) }
    ensures refused { IfErr result (λ e. IsForRoom e (length list.old.items + length (option_to_list found))) }
{
    match found {
        None => Ok(()),
        Some(sel) => {
            if list.len() == MAX_SELECTIONS {
                return Err(SelectError::TooMany);
            }
            push(list, sel)?;
            Ok(())
        }
    }
}

// Puts what matches in a selection select behind a list.
fn push_matches(
    lines: &Lines,
    sel: Sel,
    spans: &[Span],
    list: &mut SmallVec<Sel, 4>,
) -> Result<(), SelectError>
    requires inside { IsInside lines.now sel }
    requires listed { AreInside lines.now list.old.items }
    requires few { length list.old.items ≤ MAX_SELECTIONS }
    requires small { length lines.now ≤ MAX_CHARS }
    ensures inside { OnOk result (AreInside lines.now list.new.items) }
    ensures ranges { OnOk result (AreAdded lines.now list.old.items list.new.items (made_of Take.Matches lines.now sel spans.now)) }
    ensures few { OnOk result (length list.new.items ≤ MAX_SELECTIONS) }
    ensures refused { IfErr result (λ e. IsForRoom e (length list.old.items + length (made_of Take.Matches lines.now sel spans.now))) }
{
    let mut walk = start(sel);
    for span in spans {
        let first = walk_to(lines, sel, walk, span.start);
        let end = walk_to(lines, sel, first, span.end);
        push_found(list, found(lines, sel, first, end))?;
        walk = end;
    }
    Ok(())
}

// Puts what a match selects behind a list.
fn push_selected(list: &mut SmallVec<Sel, 4>, found: Option<Sel>) -> Result<(), AllocError>
    ensures { OnOk result (list.new.items ≡ list.old.items ++ option_to_list found) }
{
    match found {
        None => Ok(()),
        Some(sel) => push(list, sel),
    }
}

/// What matches in a selection select, however many they are. It costs the selection.
pub(crate) fn selected(
    alloc: Global,
    lines: &Lines,
    sel: Sel,
    spans: &[Span],
) -> Result<SmallVec<Sel, 4>, AllocError>
    requires inside { IsInside lines.now sel }
    requires small { length lines.now ≤ MAX_CHARS }
    ensures inside { IfOk result (λ v. AreInside lines.now v.items) }
    ensures ranges { IfOk result (λ v. ranges_of lines.now v.items ≡ made_of Take.Matches lines.now sel spans.now) }
{
    let mut list = SmallVec::new(alloc);
    let mut walk = start(sel);
    for span in spans {
        let first = walk_to(lines, sel, walk, span.start);
        let end = walk_to(lines, sel, first, span.end);
        push_selected(&mut list, found(lines, sel, first, end))?;
        walk = end;
    }
    Ok(list)
}

// Puts the parts that matches leave of a selection behind a list.
fn push_parts(
    lines: &Lines,
    sel: Sel,
    spans: &[Span],
    list: &mut SmallVec<Sel, 4>,
) -> Result<(), SelectError>
    requires inside { IsInside lines.now sel }
    requires listed { AreInside lines.now list.old.items }
    requires few { length list.old.items ≤ MAX_SELECTIONS }
    requires small { length lines.now ≤ MAX_CHARS }
    ensures inside { OnOk result (AreInside lines.now list.new.items) }
    ensures ranges { OnOk result (AreAdded lines.now list.old.items list.new.items (made_of Take.Parts lines.now sel spans.now)) }
    ensures few { OnOk result (length list.new.items ≤ MAX_SELECTIONS) }
    ensures refused { IfErr result (λ e. IsForRoom e (length list.old.items + length (made_of Take.Parts lines.now sel spans.now))) }
{
    let mut from = start(sel);
    for span in spans {
        let to = walk_to(lines, sel, from, span.start);
        push_found(list, part(lines, sel, from, to))?;
        from = walk_to(lines, sel, to, span.end);
    }
    push_found(list, rest(lines, sel, from))
}

/// Puts what is made of a selection by the matches in it behind a list. `TooMany` comes exactly where more than
/// `MAX_SELECTIONS` would stand there; but memory may run out before that is found. It costs the selection.
pub(crate) fn push_taken(
    what: Take,
    lines: &Lines,
    sel: Sel,
    spans: &[Span],
    list: &mut SmallVec<Sel, 4>,
) -> Result<(), SelectError>
    requires inside { IsInside lines.now sel }
    requires listed { AreInside lines.now list.old.items }
    requires few { length list.old.items ≤ MAX_SELECTIONS }
    requires small { length lines.now ≤ MAX_CHARS }
    ensures inside { OnOk result (AreInside lines.now list.new.items) }
    ensures ranges { OnOk result (AreAdded lines.now list.old.items list.new.items (made_of what lines.now sel spans.now)) }
    ensures few { OnOk result (length list.new.items ≤ MAX_SELECTIONS) }
    ensures refused { IfErr result (λ e. IsForRoom e (length list.old.items + length (made_of what lines.now sel spans.now))) }
{
    match what {
        Take::Matches => push_matches(lines, sel, spans, list),
        Take::Parts => push_parts(lines, sel, spans, list),
    }
}
