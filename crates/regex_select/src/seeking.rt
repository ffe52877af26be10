//! The match that is found from one selection, without a list of all.

ghost use Rattle.std.specs.Prelude.{◌≡◌, ◌<◌, ◌≤◌, length, string_bytes, encode_utf8_all, option_to_list, IfOk, IfSome};
ghost use Rattle.text_model.specs.declared.TheConstants.{MAX_CHARS};
ghost use Rattle.text_model.specs.Texts.{IsPlace, offset};
ghost use Rattle.selection_set.specs.Inside.{range_of, IsInside};
ghost use Rattle.selection_set.specs.Listing.{ranges_of};
ghost use Rattle.regex_select.specs.Rows.{spans_in};
ghost use Rattle.regex_select.specs.Selecting.{selected_by};
ghost use Rattle.regex_select.specs.Spans.{byte_bound, span_sought};
ghost use Rattle.regex_select.specs.Walks.{bytes_of_first};

use crate::gathering::Gathered;
use crate::searching::behind;
use crate::taking::found;
use crate::walking::{start, walk_to};
use crate::whole::whole;
use crate::writing::with_part;
use directions::Direction;
use kak_text::Coord;
use line_buffer::Lines;
use regex_ports::{Pattern, Span};
use selection_set::Sel;
use std::alloc::{AllocError, Global};

// The text, and the byte at which a place of it begins.
fn written_around(alloc: Global, lines: &Lines, at: Coord) -> Result<(String, usize), AllocError>
    requires { IsPlace lines.now at }
    ensures bytes { IfOk result (λ w. string_bytes w.0 ≡ encode_utf8_all lines.now) }
    ensures byte { IfOk result (λ w. w.1 ≡ bytes_of_first lines.now (offset lines.now at)) }
    ensures inside { IfOk result (λ w. w.1 < length (encode_utf8_all lines.now)) }
{
    let sel = whole(lines);
    let none = Gathered::with_room(alloc, lines.len())?;
    let before = with_part(none, lines, sel.low, at)?;
    let byte = before.len();
    let all = with_part(before, lines, at, behind(lines, sel.high))?;
    Ok((all.finish()?, byte))
}

// The text, and the byte before which what begins before a place of it does.
fn written_before(alloc: Global, lines: &Lines, at: Coord) -> Result<(String, usize), AllocError>
    requires { IsPlace lines.now at }
    ensures bytes { IfOk result (λ w. string_bytes w.0 ≡ encode_utf8_all lines.now) }
    ensures byte { IfOk result (λ w. w.1 ≡ byte_bound lines.now (offset lines.now at)) }
{
    match lines.prev(at) {
        None => {
            let (text, _byte) = written_around(alloc, lines, at)?;
            Ok((text, 0))
        }
        Some(former) => {
            let (text, byte) = written_around(alloc, lines, former)?;
            // it lies before the string's end, so there is a number behind it
            let _end = text.len();
            Ok((text, byte + 1))
        }
    }
}

// The first match that begins behind a selection, or else the first of all.
fn span_behind<P: Pattern>(
    alloc: Global,
    lines: &Lines,
    from: Sel,
    pattern: &P,
) -> Result<Option<Span>, AllocError>
    requires { IsInside lines.now from }
    ensures { IfOk result (λ span. span ≡ span_sought Direction.Forward lines.now (spans_in (P.source pattern.now) lines.now) (range_of lines.now from)) }
{
    let (text, byte) = written_around(alloc, lines, from.high)?;
    pattern.first_behind(alloc, text.as_str(), byte)
}

// The last match that begins before a selection, or else the last of all.
fn span_before<P: Pattern>(
    alloc: Global,
    lines: &Lines,
    from: Sel,
    pattern: &P,
) -> Result<Option<Span>, AllocError>
    requires { IsInside lines.now from }
    ensures { IfOk result (λ span. span ≡ span_sought Direction.Backward lines.now (spans_in (P.source pattern.now) lines.now) (range_of lines.now from)) }
{
    let (text, byte) = written_before(alloc, lines, from.low)?;
    pattern.last_before(alloc, text.as_str(), byte)
}

/// The match of a pattern that is found from a selection, in bytes of the text, which is written once and searched up to
/// this match at least. An empty match at the text's end is none.
pub(crate) fn span_sought<P: Pattern>(
    alloc: Global,
    lines: &Lines,
    from: Sel,
    pattern: &P,
    direction: Direction,
) -> Result<Option<Span>, AllocError>
    requires { IsInside lines.now from }
    ensures { IfOk result (λ span. span ≡ span_sought direction lines.now (spans_in (P.source pattern.now) lines.now) (range_of lines.now from)) }
{
    match direction {
        Direction::Forward => span_behind(alloc, lines, from, pattern),
        Direction::Backward => span_before(alloc, lines, from, pattern),
    }
}

/// What a match in a text selects, if it does. It costs the text up to the match's end.
pub(crate) fn selected_by(lines: &Lines, span: Span) -> Option<Sel>
    requires { length lines.now ≤ MAX_CHARS }
    ensures inside { IfSome result (λ s. IsInside lines.now s) }
    ensures range { ranges_of lines.now (option_to_list result) ≡ selected_by lines.now 0 span }
{
    let sel = whole(lines);
    let first = walk_to(lines, sel, start(sel), span.start);
    let end = walk_to(lines, sel, first, span.end);
    found(lines, sel, first, end)
}
