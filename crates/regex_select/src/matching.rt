//! The selections that the matches of a pattern make.

ghost use Rattle.std.specs.Prelude.{◌≡◌, ◌<◌, ◌≤◌, length, flat_map, IfOk, IfErr};
ghost use Rattle.text_model.specs.declared.TheConstants.{MAX_SELECTIONS};
ghost use Rattle.selection_set.specs.Listing.{ranges_of};
ghost use Rattle.selection_set.specs.Held.{selected, IsHeld};
ghost use Rattle.regex_select.specs.Selecting.{matched_in, split_in, made_each};
ghost use Rattle.regex_select.specs.Taking.{taken_in};
ghost use Rattle.regex_select.specs.Causes.{IsCause};

use crate::error::SelectError;
use crate::searching::spans;
use crate::settling::settled;
use crate::taking::{Take, push_taken};
use line_buffer::Lines;
use regex_ports::Pattern;
use selection_set::Sels;
use smallvec::SmallVec;
use std::alloc::Global;

// What is made of the selections by the matches in each.
fn select<P: Pattern>(
    alloc: Global,
    lines: &Lines,
    sels: &Sels,
    pattern: &P,
    what: Take,
) -> Result<Sels, SelectError>
    requires { IsHeld lines.now sels.now }
    ensures held { IfOk result (λ s. IsHeld lines.now s) }
    ensures selects { IfOk result (λ s. selected lines.now s ≡ made_each (taken_in what (P.source pattern.now) lines.now) (selected lines.now sels.now)) }
    ensures some { IfOk result (λ s. 0 < length (flat_map (taken_in what (P.source pattern.now) lines.now) (ranges_of lines.now sels.now.list))) }
    ensures few { IfOk result (λ s. length (flat_map (taken_in what (P.source pattern.now) lines.now) (ranges_of lines.now sels.now.list)) ≤ MAX_SELECTIONS) }
    ensures refused { IfErr result (λ e. IsCause e (flat_map (taken_in what (P.source pattern.now) lines.now) (ranges_of lines.now sels.now.list))) }
{
    // its contract says that the lines are a text's
    let _stored = lines.len();
    let mut list = SmallVec::new(alloc);
    for n in 0..sels.len() {
        let sel = sels.at(n);
        let matches = spans(alloc, lines, sel, pattern)?;
        push_taken(what, lines, sel, matches.as_slice(), &mut list)?;
    }
    if list.is_empty() {
        return Err(SelectError::NoMatch);
    }
    let main = list.len() - 1;
    Ok(settled(alloc, list, main)?)
}

/// What the matches of a pattern in the selections select, each selection searched by itself. A match selects its range,
/// straight and without a target; an empty match selects the character at its place, and nothing at the selection's end.
/// The last one is the main one.
///
/// `NoMatch` comes exactly where nothing is selected, and `TooMany` exactly where more than `MAX_SELECTIONS` are, before
/// they are settled; but memory may run out before that is found. What is searched is searched once.
pub fn matches_in<P: Pattern>(
    alloc: Global,
    lines: &Lines,
    sels: &Sels,
    pattern: &P,
) -> Result<Sels, SelectError>
    requires { IsHeld lines.now sels.now }
    ensures held { IfOk result (λ s. IsHeld lines.now s) }
    ensures selects { IfOk result (λ s. selected lines.now s ≡ made_each (matched_in (P.source pattern.now) lines.now) (selected lines.now sels.now)) }
    ensures some { IfOk result (λ s. 0 < length (flat_map (matched_in (P.source pattern.now) lines.now) (ranges_of lines.now sels.now.list))) }
    ensures few { IfOk result (λ s. length (flat_map (matched_in (P.source pattern.now) lines.now) (ranges_of lines.now sels.now.list)) ≤ MAX_SELECTIONS) }
    ensures refused { IfErr result (λ e. IsCause e (flat_map (matched_in (P.source pattern.now) lines.now) (ranges_of lines.now sels.now.list))) }
{
    select(alloc, lines, sels, pattern, Take::Matches)
}

/// The parts that the matches of a pattern leave of the selections, each selection searched by itself: what stands before
/// the first match, between two and behind the last, where that isn't empty. An empty match cuts too. The parts are
/// straight and without a target. The last one is the main one.
///
/// `NoMatch` comes exactly where nothing is left, and `TooMany` exactly where more than `MAX_SELECTIONS` parts are, before
/// they are settled; but memory may run out before that is found. What is searched is searched once.
pub fn split_in<P: Pattern>(
    alloc: Global,
    lines: &Lines,
    sels: &Sels,
    pattern: &P,
) -> Result<Sels, SelectError>
    requires { IsHeld lines.now sels.now }
    ensures held { IfOk result (λ s. IsHeld lines.now s) }
    ensures splits { IfOk result (λ s. selected lines.now s ≡ made_each (split_in (P.source pattern.now) lines.now) (selected lines.now sels.now)) }
    ensures some { IfOk result (λ s. 0 < length (flat_map (split_in (P.source pattern.now) lines.now) (ranges_of lines.now sels.now.list))) }
    ensures few { IfOk result (λ s. length (flat_map (split_in (P.source pattern.now) lines.now) (ranges_of lines.now sels.now.list)) ≤ MAX_SELECTIONS) }
    ensures refused { IfErr result (λ e. IsCause e (flat_map (split_in (P.source pattern.now) lines.now) (ranges_of lines.now sels.now.list))) }
{
    select(alloc, lines, sels, pattern, Take::Parts)
}
