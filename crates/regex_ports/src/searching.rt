//! The groups of the matches in many texts, with one matcher. Behind an iterator over its matches nothing is known of a
//! matcher, so each match is searched for from the one before it.

ghost use Rattle.std.specs.Prelude.{◌≡◌, ◌+◌, ◌-◌, ◌∷◌, [], ◌++◌, Some, map, flat_map, option_map, OnOk, IfOk};
ghost use Rattle.std.specs.List.{AllByRecursion, range_with_len};
ghost use Rattle.regex.specs.Locations.{location, location_count};
ghost use Rattle.regex.specs.Patterns.{find_all_str, find_str};
ghost use Rattle.regex.specs.Strings.{group_count, matcher_pattern, regex_pattern};
ghost use Rattle.regex_ports.specs.Grouping.{numbered_from};
ghost use Rattle.regex_ports.specs.Matching.{span_of};
ghost use Rattle.regex_ports.specs.Searching.{found_span, match_behind, taking_part, AreLocated};
ghost use Rattle.regex_ports.specs.Series.{AreBytes};

use crate::grouping::group_at;
use crate::pattern::{GroupSpan, Span};
use crate::texts::Texts;
use regex::{CaptureLocations, Matcher, Regex};
use sequences::Seq;
use std::alloc::{AllocError, Global};

// The first match from a byte on, with its groups in the locations.
fn find_from(
    matcher: &mut Matcher<'_>,
    locations: &mut CaptureLocations,
    text: &str,
    byte: usize,
) -> Option<Span>
    ensures found { result ≡ option_map found_span (find_str (matcher_pattern matcher.old) text.now byte) }
    ensures located { AreLocated (find_str (matcher_pattern matcher.old) text.now byte) locations.new }
    ensures count { location_count locations.new ≡ location_count locations.old }
    ensures same { matcher_pattern matcher.new ≡ matcher_pattern matcher.old }
{
    let m = matcher.captures_read_at(locations, text, byte)?;
    Some(Span {
        start: m.start(),
        end: m.end(),
    })
}

// The first match behind a byte, with its groups in the locations.
fn find_further(
    matcher: &mut Matcher<'_>,
    locations: &mut CaptureLocations,
    text: &str,
    byte: usize,
) -> Option<Span>
    ensures found { result ≡ option_map found_span (find_str (matcher_pattern matcher.old) text.now (byte + 1)) }
    ensures located { AreLocated (find_str (matcher_pattern matcher.old) text.now (byte + 1)) locations.new }
    ensures count { location_count locations.new ≡ location_count locations.old }
    ensures same { matcher_pattern matcher.new ≡ matcher_pattern matcher.old }
{
    if byte >= text.len() {
        return None;
    }
    find_from(matcher, locations, text, byte + 1)
}

// The match behind one that ends at a byte, with its groups in the locations.
fn find_behind(
    matcher: &mut Matcher<'_>,
    locations: &mut CaptureLocations,
    text: &str,
    end: usize,
) -> Option<Span>
    ensures found { result ≡ option_map found_span (match_behind (matcher_pattern matcher.old) text.now end) }
    ensures located { AreLocated (match_behind (matcher_pattern matcher.old) text.now end) locations.new }
    ensures count { location_count locations.new ≡ location_count locations.old }
    ensures same { matcher_pattern matcher.new ≡ matcher_pattern matcher.old }
{
    let found = find_from(matcher, locations, text, end)?;
    if found.end == end {
        return find_further(matcher, locations, text, end);
    }
    Some(found)
}

// Adds the range of a group by its number, if it took part.
fn push_numbered(
    out: &mut Seq<GroupSpan>,
    group: usize,
    span: Option<Span>,
) -> Result<(), AllocError>
    ensures { OnOk result (out.new ≡ out.old ++ numbered_from group (span ∷ [])) }
{
    let Some(span) = span else {
        return Ok(());
    };
    out.push(GroupSpan { group, span })?;
    Ok(())
}

// Adds the ranges of a match and of its groups.
fn push_located(
    out: &mut Seq<GroupSpan>,
    found: Span,
    locations: &CaptureLocations,
) -> Result<(), AllocError>
    ensures { OnOk result (out.new ≡ out.old ++ numbered_from 0 (Some found ∷ map (λ n. option_map span_of (location locations.now n)) (range_with_len 1 (location_count locations.now - 1)))) }
{
    push_numbered(out, 0, Some(found))?;
    for n in 1..locations.len() {
        push_numbered(out, n, group_at(locations, n))?;
    }
    Ok(())
}

// Adds the groups that took part in the matches in a text.
fn push_groups(
    matcher: &mut Matcher<'_>,
    locations: &mut CaptureLocations,
    text: &str,
    out: &mut Seq<GroupSpan>,
) -> Result<(), AllocError>
    ensures found { OnOk result (out.new ≡ out.old ++ flat_map (taking_part (location_count locations.old)) (find_all_str (matcher_pattern matcher.old) text.now)) }
    ensures count { location_count locations.new ≡ location_count locations.old }
    ensures same { matcher_pattern matcher.new ≡ matcher_pattern matcher.old }
{
    let mut next = find_from(matcher, locations, text, 0);
    for _ in 0..text.len() {
        let Some(found) = next else {
            return Ok(());
        };
        push_located(out, found, locations)?;
        next = find_behind(matcher, locations, text, found.end);
    }
    let Some(found) = next else {
        return Ok(());
    };
    push_located(out, found, locations)?;
    Ok(())
}

// The groups that took part in the matches in a text.
fn groups_found(
    alloc: Global,
    matcher: &mut Matcher<'_>,
    locations: &mut CaptureLocations,
    text: &str,
) -> Result<Seq<GroupSpan>, AllocError>
    ensures found { IfOk result (λ list. list ≡ flat_map (taking_part (location_count locations.old)) (find_all_str (matcher_pattern matcher.old) text.now)) }
    ensures count { location_count locations.new ≡ location_count locations.old }
    ensures same { matcher_pattern matcher.new ≡ matcher_pattern matcher.old }
    ensures bytes { AreBytes text.now }
{
    let mut list = Seq::new(alloc);
    push_groups(matcher, locations, text, &mut list)?;
    Ok(list)
}

/// Of each of some texts the groups that took part in the matches of a regular expression in it.
pub(crate) fn groups_in<T: Texts>(
    alloc: Global,
    regex: &Regex,
    texts: &mut T,
) -> Result<Vec<Seq<GroupSpan>>, AllocError>
    ensures found { IfOk result (λ v. v.items ≡ map (λ text. flat_map (taking_part (group_count regex.now)) (find_all_str (regex_pattern regex.now) text)) (T.left texts.old)) }
    ensures bytes { IfOk result (λ v. AllByRecursion AreBytes (T.left texts.old)) }
{
    let mut matcher = regex.matcher(alloc)?;
    let mut locations = regex.capture_locations(alloc)?;
    let mut text = String::new(alloc);
    let mut found = Vec::new(alloc);
    while texts.next(&mut text)? {
        let list = groups_found(alloc, &mut matcher, &mut locations, text.as_str())?;
        found.push(list)?;
    }
    Ok(found)
}
