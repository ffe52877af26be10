//! The groups of matches of a regular expression.

ghost use Rattle.std.specs.Prelude.{◌≡◌, ◌-◌, ◌∷◌, Some, map, option_map, IfOk};
ghost use Rattle.std.specs.List.{range_with_len};
ghost use Rattle.regex.specs.Locations.{location, location_count};
ghost use Rattle.regex.specs.Patterns.{find_all_str};
ghost use Rattle.regex.specs.Strings.{regex_pattern, group_count};
ghost use Rattle.regex_ports.specs.Grouping.{group_spans, spans_of};
ghost use Rattle.regex_ports.specs.Matching.{span_of};

use crate::pattern::{Groups, Span};
use regex::{CaptureLocations, Regex};
use std::alloc::{AllocError, Global};

/// Where a group stands, if it took part.
pub(crate) fn group_at(locations: &CaptureLocations, n: usize) -> Option<Span>
    ensures { result ≡ option_map span_of (location locations.now n) }
{
    let (start, end) = locations.get(n)?;
    Some(Span { start, end })
}

// The ranges of a match and of its groups.
fn located(
    alloc: Global,
    found: Span,
    locations: &CaptureLocations,
) -> Result<Vec<Option<Span>>, AllocError>
    ensures { IfOk result (λ v. v.items ≡ Some found ∷ map (λ n. option_map span_of (location locations.now n)) (range_with_len 1 (location_count locations.now - 1))) }
{
    let mut spans = Vec::new(alloc);
    spans.push(Some(found))?;
    for n in 1..locations.len() {
        spans.push(group_at(locations, n))?;
    }
    Ok(spans)
}

/// The groups of each match of a regular expression in a text.
pub(crate) fn groups(alloc: Global, regex: &Regex, text: &str) -> Result<Vec<Groups>, AllocError>
    ensures { IfOk result (λ v. map spans_of v.items ≡ map (group_spans (group_count regex.now)) (find_all_str (regex_pattern regex.now) text.now)) }
{
    let mut matcher = regex.matcher(alloc)?;
    let mut locations = regex.capture_locations(alloc)?;
    let mut list = Vec::new(alloc);
    let mut all = matcher.captures_iter(text);
    while let Some(m) = all.next_read(&mut locations) {
        let found = Span {
            start: m.start(),
            end: m.end(),
        };
        list.push(Groups {
            spans: located(alloc, found, &locations)?,
        })?;
    }
    Ok(list)
}
