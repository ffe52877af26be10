//! The selections that have a match, or have none.

ghost use Rattle.std.specs.Prelude.{◌≡◌, ◌<◌, ◌≤◌, not, if◌then◌else◌, length, take, map, filter, IfOk, IfErr};
ghost use Rattle.selection_set.specs.Listing.{AreInside, ranges_of};
ghost use Rattle.selection_set.specs.Held.{selected, IsHeld};
ghost use Rattle.regex_select.specs.Rows.{is_kept, kept_each};
ghost use Rattle.regex_select.specs.Flags.{flagged, count_set, place_set};
ghost use Rattle.regex_select.specs.Causes.{IsForNone};

use crate::error::SelectError;
use crate::series::SelTexts;
use crate::settling::settled;
use line_buffer::Lines;
use regex_ports::Pattern;
use selection_set::{Sel, Sels};
use smallvec::SmallVec;
use std::alloc::{AllocError, Global};

// Whether a selection is kept that has a match or has none.
fn is_wanted(found: bool, matching: bool) -> bool
    ensures { result ≡ (if matching then found else not found) }
{
    if matching { found } else { !found }
}

// Of each selection whether it is kept, by whether it has a match.
fn wanted(alloc: Global, found: &[bool], matching: bool) -> Result<Vec<bool>, AllocError>
    ensures { IfOk result (λ v. v.items ≡ map (λ has. if matching then has else not has) found.now) }
{
    let mut flags = Vec::new(alloc);
    for has in found {
        flags.push(is_wanted(*has, matching))?;
    }
    Ok(flags)
}

// Of each selection whether it is kept.
fn flags<P: Pattern>(
    alloc: Global,
    lines: &Lines,
    sels: &Sels,
    pattern: &P,
    matching: bool,
) -> Result<Vec<bool>, AllocError>
    requires { AreInside lines.now sels.now.list }
    ensures { IfOk result (λ v. v.items ≡ map (is_kept matching (P.source pattern.now) lines.now) (ranges_of lines.now sels.now.list)) }
{
    let mut texts = SelTexts::new(lines, sels);
    let found = pattern.found_in(alloc, &mut texts)?;
    wanted(alloc, found.as_slice(), matching)
}

// How many of the first so many flags are set.
fn count(flags: &[bool], upto: usize) -> usize
    requires { upto ≤ length flags.now }
    ensures value { result ≡ count_set (take upto flags.now) }
    ensures few { result ≤ upto }
{
    let mut count = 0;
    for i in 0..upto {
        if flags[i] {
            count += 1;
        }
    }
    count
}

// The selections whose flags are set.
fn kept(alloc: Global, sels: &Sels, flags: &[bool]) -> Result<SmallVec<Sel, 4>, AllocError>
    requires { length flags.now ≡ length sels.now.list }
    ensures { IfOk result (λ list. list.items ≡ flagged flags.now sels.now.list) }
{
    let mut list = SmallVec::new(alloc);
    for n in 0..sels.len() {
        if flags[n] {
            list.push(sels.at(n))?;
        }
    }
    Ok(list)
}

// The place of the main one among those whose flags are set, so many; the last place where its flag isn't.
fn main_place(flags: &[bool], main: usize, set: usize) -> usize
    requires main { main < length flags.now }
    requires all { set ≡ count_set flags.now }
    requires some { 0 < set }
    ensures value { result ≡ place_set flags.now main }
    ensures below { result < set }
{
    if flags[main] {
        return count(flags, main);
    }
    set - 1
}

/// The selections that have a match of a pattern, where `matching`, or else those that have none. Each is searched by
/// itself, and an empty match counts, and one at its end too. They stay as they are. The main one stays the main one;
/// where it isn't kept, the last one is.
///
/// `NoMatch` comes exactly where none is kept, but memory may run out before that is found; `TooMany` never comes. Each
/// selection is searched up to its first match, and no memory is taken for it beyond the longest one's characters.
pub fn keep<P: Pattern>(
    alloc: Global,
    lines: &Lines,
    sels: &Sels,
    pattern: &P,
    matching: bool,
) -> Result<Sels, SelectError>
    requires { IsHeld lines.now sels.now }
    ensures held { IfOk result (λ s. IsHeld lines.now s) }
    ensures keeps { IfOk result (λ s. selected lines.now s ≡ kept_each (is_kept matching (P.source pattern.now) lines.now) (selected lines.now sels.now)) }
    ensures some { IfOk result (λ s. 0 < length (filter (is_kept matching (P.source pattern.now) lines.now) (ranges_of lines.now sels.now.list))) }
    ensures refused { IfErr result (λ e. IsForNone e (filter (is_kept matching (P.source pattern.now) lines.now) (ranges_of lines.now sels.now.list))) }
{
    let flags = flags(alloc, lines, sels, pattern, matching)?;
    let list = kept(alloc, sels, flags.as_slice())?;
    if list.is_empty() {
        return Err(SelectError::NoMatch);
    }
    let main = main_place(flags.as_slice(), sels.main(), list.len());
    Ok(settled(alloc, list, main)?)
}
