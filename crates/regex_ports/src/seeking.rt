//! The match of a regular expression that is found from a byte of a text on.

ghost use Rattle.std.specs.Prelude.{◌≡◌, length, map, if◌then◌else◌, Some, None, IfOk};
ghost use Rattle.std.specs.Option.{option_or};
ghost use Rattle.regex.specs.Patterns.{find_all_str, span};
ghost use Rattle.regex.specs.Strings.{regex_pattern};
ghost use Rattle.regex_ports.specs.Matching.{span_of};
ghost use Rattle.regex_ports.specs.Seeking.{span_begins_before, begins_between, first_behind, last_before};

use crate::pattern::Span;
use regex::Regex;
use std::alloc::{AllocError, Global};

// Whether a span begins behind a byte and before the end.
fn is_between(span: Span, byte: usize, end: usize) -> bool
    ensures { result ≡ begins_between byte end span }
{
    byte < span.start && span.start < end
}

// What was found first: what was there, or a span that begins before the end.
fn earlier(first: Option<Span>, span: Span, end: usize) -> Option<Span>
    ensures { result ≡ option_or first (if span_begins_before end span then Some span else None) }
{
    if first.is_some() {
        return first;
    }
    later(None, span, end)
}

// What was found last: a span that begins before a byte, or what was there.
fn later(last: Option<Span>, span: Span, byte: usize) -> Option<Span>
    ensures { result ≡ (if span_begins_before byte span then Some span else last) }
{
    if span.start < byte { Some(span) } else { last }
}

/// The first match that begins behind a byte and before the text's end, or else the first one that begins before the end.
pub(crate) fn first_behind(
    alloc: Global,
    regex: &Regex,
    text: &str,
    byte: usize,
) -> Result<Option<Span>, AllocError>
    ensures { IfOk result (λ found. found ≡ first_behind byte (length text.now) (map span_of (map span (find_all_str (regex_pattern regex.now) text.now)))) }
{
    let mut matcher = regex.matcher(alloc)?;
    let end = text.len();
    let mut first = None;
    for m in matcher.find_iter(text) {
        let found = Span {
            start: m.start(),
            end: m.end(),
        };
        if is_between(found, byte, end) {
            return Ok(Some(found));
        }
        first = earlier(first, found, end);
    }
    Ok(first)
}

// The one of two that is there, the first of them before the second.
fn or_else(found: Option<Span>, other: Option<Span>) -> Option<Span>
    ensures { result ≡ option_or found other }
{
    if found.is_some() { found } else { other }
}

/// The last match that begins before a byte, or else the last one that begins before the text's end.
pub(crate) fn last_before(
    alloc: Global,
    regex: &Regex,
    text: &str,
    byte: usize,
) -> Result<Option<Span>, AllocError>
    ensures { IfOk result (λ found. found ≡ last_before byte (length text.now) (map span_of (map span (find_all_str (regex_pattern regex.now) text.now)))) }
{
    let mut matcher = regex.matcher(alloc)?;
    let end = text.len();
    let mut before = None;
    let mut last = None;
    for m in matcher.find_iter(text) {
        let found = Span {
            start: m.start(),
            end: m.end(),
        };
        before = later(before, found, byte);
        last = later(last, found, end);
    }
    Ok(or_else(before, last))
}
