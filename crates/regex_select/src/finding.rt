//! Searching a text for a pattern, from selections on.
//!
//! The matches are those of the whole text, each searched for behind the one before it. A match is the range that it
//! selects, straight and without a target; an empty match is the character at its place, and at the end of the text it is
//! none. From a selection, a search forward finds the first match that begins behind the selection's last character, or the
//! first match of the text where none does; a search backward finds the last match that begins before the selection's first
//! character, or the last match of the text where none does. So a search goes round the ends of the text, and where the
//! selection is the only match, it is the one that is found.

ghost use Rattle.std.specs.Prelude.{◌≡◌, ◌<◌, ℕ, List, [], length, IfOk, IfErr};
ghost use Rattle.text_model.specs.declared.TheConstants.{MAX_SELECTIONS};
ghost use Rattle.text_model.specs.Texts.{offset};
ghost use Rattle.list_model.specs.Settling.{each_settled};
ghost use Rattle.selection_set.specs.Inside.{range_of, IsInside};
ghost use Rattle.selection_set.specs.Listing.{AreInside, ranges_of, IsPairInside};
ghost use Rattle.selection_set.specs.Held.{selected, IsHeld};
ghost use Rattle.regex_select.specs.Searching.{all_matches, on_the_way, sought, searched, match_from, search_of, main_added, IsMainSettled, IsEachSettled};
ghost use Rattle.regex_select.specs.Causes.{IsForNone, IsForOneMore};
ghost use Rattle.regex_select.specs.Known.{AreMatchesIn, AreAllMatches};
ghost use Rattle.regex_select.specs.declared.error.SelectError.TheVariants.{NoMatch};

use crate::error::SelectError;
use crate::halves::sought_among;
use crate::known::KnownMatches;
use crate::seeking::{selected_by, span_sought};
use crate::settling::settled;
use crate::stretching::{reached, search_each};
use crate::taking::push;
use crate::way::{Search, order};
use crate::whole::all_matches;
use directions::Direction;
use line_buffer::Lines;
use regex_ports::Pattern;
use selection_set::{Pair, Sel, Sels};
use smallvec::SmallVec;
use std::alloc::{AllocError, Global};
use text_model::MAX_SELECTIONS;

// All matches of a pattern in a text, in order: a copy of them where they are known.
fn copied_or_made<P: Pattern>(
    alloc: Global,
    lines: &Lines,
    pattern: &P,
    known: &KnownMatches,
) -> Result<SmallVec<Sel, 4>, AllocError>
    requires { AreMatchesIn lines.now known.now }
    ensures inside { IfOk result (λ v. AreInside lines.now v.items) }
    ensures ranges { IfOk result (λ v. ranges_of lines.now v.items ≡ all_matches (P.source pattern.now) lines.now) }
{
    if known.are_all_of(pattern.text()) {
        return SmallVec::from_slice(alloc, known.as_slice());
    }
    all_matches(alloc, lines, pattern)
}

// The matches of a pattern in a text, in the order of a way.
fn matches<P: Pattern>(
    alloc: Global,
    lines: &Lines,
    pattern: &P,
    direction: Direction,
    known: &KnownMatches,
) -> Result<SmallVec<Sel, 4>, SelectError>
    requires { AreMatchesIn lines.now known.now }
    ensures inside { IfOk result (λ v. AreInside lines.now v.items) }
    ensures ranges { IfOk result (λ v. ranges_of lines.now v.items ≡ on_the_way direction (all_matches (P.source pattern.now) lines.now)) }
    ensures some { IfOk result (λ v. 0 < length v.items) }
    ensures refused { IfErr result (λ e. IsForNone e (all_matches (P.source pattern.now) lines.now)) }
{
    let mut list = copied_or_made(alloc, lines, pattern, known)?;
    if list.is_empty() {
        return Err(SelectError::NoMatch);
    }
    order(list.as_mut_slice(), direction);
    Ok(list)
}

// The match that is found from a selection. The text is written once, and no list of its matches is made.
fn sought_in_text<P: Pattern>(
    alloc: Global,
    lines: &Lines,
    from: Sel,
    pattern: &P,
    direction: Direction,
) -> Result<Sel, SelectError>
    requires { IsInside lines.now from }
    ensures inside { IfOk result (λ s. IsInside lines.now s) }
    ensures seeks { IfOk result (λ s. range_of lines.now s ≡ sought direction (all_matches (P.source pattern.now) lines.now) (range_of lines.now from)) }
    ensures some { IfOk result (λ s. 0 < length (all_matches (P.source pattern.now) lines.now)) }
    ensures refused { IfErr result (λ e. IsForNone e (all_matches (P.source pattern.now) lines.now)) }
{
    // its contract says that the lines are a text's
    let _stored = lines.len();
    match span_sought(alloc, lines, from, pattern, direction)? {
        None => Err(SelectError::NoMatch),
        Some(span) => match selected_by(lines, span) {
            Some(found) => Ok(found),
            None => unreachable!(),
        },
    }
}

// The match that is found from a selection among all matches of a pattern in a text.
fn sought_in(from: Sel, matches: &[Sel], direction: Direction) -> Result<Sel, SelectError>
    ensures inside { IfOk result (λ s. (source text : List ℕ) → IsInside text from → AreAllMatches source text matches.now → IsInside text s) }
    ensures seeks { IfOk result (λ s. (source text : List ℕ) → IsInside text from → AreAllMatches source text matches.now
        → range_of text s ≡ sought direction (all_matches source text) (range_of text from)) }
    ensures some { IfOk result (λ s. 0 < length matches.now) }
    ensures refused { IfErr result (λ e. (e ≡ NoMatch) × (matches.now ≡ [])) }
{
    if matches.is_empty() {
        return Err(SelectError::NoMatch);
    }
    Ok(sought_among(direction, from, matches))
}

// The match that is found from a selection: by halves where all matches of the pattern are known, or else in the text.
fn sought<P: Pattern>(
    alloc: Global,
    lines: &Lines,
    from: Sel,
    pattern: &P,
    direction: Direction,
    known: &KnownMatches,
) -> Result<Sel, SelectError>
    requires inside { IsInside lines.now from }
    requires known { AreMatchesIn lines.now known.now }
    ensures inside { IfOk result (λ s. IsInside lines.now s) }
    ensures seeks { IfOk result (λ s. range_of lines.now s ≡ sought direction (all_matches (P.source pattern.now) lines.now) (range_of lines.now from)) }
    ensures some { IfOk result (λ s. 0 < length (all_matches (P.source pattern.now) lines.now)) }
    ensures refused { IfErr result (λ e. IsForNone e (all_matches (P.source pattern.now) lines.now)) }
{
    if known.are_all_of(pattern.text()) {
        return sought_in(from, known.as_slice(), direction);
    }
    sought_in_text(alloc, lines, from, pattern, direction)
}

// Makes of the main selection what a search makes of it.
fn search_at_main<P: Pattern>(
    alloc: Global,
    lines: &Lines,
    sels: &Sels,
    pattern: &P,
    search: Search,
    known: &KnownMatches,
) -> Result<Sels, SelectError>
    requires held { IsHeld lines.now sels.now }
    requires known { AreMatchesIn lines.now known.now }
    ensures held { IfOk result (λ s. IsHeld lines.now s) }
    ensures searches { IfOk result (IsMainSettled lines.now (search_of search (P.source pattern.now) lines.now) sels.now) }
    ensures some { IfOk result (λ s. 0 < length (all_matches (P.source pattern.now) lines.now)) }
    ensures refused { IfErr result (λ e. IsForNone e (all_matches (P.source pattern.now) lines.now)) }
{
    let main = sels.main();
    let sel = sels.at(main);
    let found = sought(alloc, lines, sel, pattern, search.direction, known)?;
    let mut list = SmallVec::from_slice(alloc, sels.as_slice())?;
    list[main] = reached(sel, found, search.extend);
    Ok(settled(alloc, list, main)?)
}

/// Makes of each selection the match that is found from it, or, where the search extends, the range from the selection's
/// anchor to that match's last character, turned where this is before the anchor, and without a target. The main one stays
/// the main one.
///
/// `NoMatch` comes exactly where the text has no match, but memory may run out before that is found; `TooMany` never
/// comes. Where all matches of the pattern are known, the text isn't looked at, and with one selection they are searched by
/// halves. Else the text is searched once, and selections and matches are gone over once; with one selection no list of the
/// matches is made, and forward the text is searched up to the match behind it.
pub fn search<P: Pattern>(
    alloc: Global,
    lines: &Lines,
    sels: &Sels,
    pattern: &P,
    search: Search,
    known: &KnownMatches,
) -> Result<Sels, SelectError>
    requires held { IsHeld lines.now sels.now }
    requires known { AreMatchesIn lines.now known.now }
    ensures held { IfOk result (λ s. IsHeld lines.now s) }
    ensures searches { IfOk result (IsEachSettled lines.now (search_of search (P.source pattern.now) lines.now) sels.now) }
    ensures some { IfOk result (λ s. 0 < length (all_matches (P.source pattern.now) lines.now)) }
    ensures refused { IfErr result (λ e. IsForNone e (all_matches (P.source pattern.now) lines.now)) }
{
    if sels.len() == 1 {
        return search_at_main(alloc, lines, sels, pattern, search, known);
    }
    let matches = matches(alloc, lines, pattern, search.direction, known)?;
    let mut list = SmallVec::from_slice(alloc, sels.as_slice())?;
    search_each(list.as_mut_slice(), matches.as_slice(), search);
    Ok(settled(alloc, list, sels.main())?)
}

/// Makes of the main selection the match that is found from it; it stays the main one.
///
/// `NoMatch` comes exactly where the text has no match, but memory may run out before that is found; `TooMany` never
/// comes. Where all matches of the pattern are known they are searched by halves, or else the text is searched once.
pub fn search_main<P: Pattern>(
    alloc: Global,
    lines: &Lines,
    sels: &Sels,
    pattern: &P,
    direction: Direction,
    known: &KnownMatches,
) -> Result<Sels, SelectError>
    requires held { IsHeld lines.now sels.now }
    requires known { AreMatchesIn lines.now known.now }
    ensures held { IfOk result (λ s. IsHeld lines.now s) }
    ensures searches { IfOk result (IsMainSettled lines.now (match_from direction (P.source pattern.now) lines.now) sels.now) }
    ensures some { IfOk result (λ s. 0 < length (all_matches (P.source pattern.now) lines.now)) }
    ensures refused { IfErr result (λ e. IsForNone e (all_matches (P.source pattern.now) lines.now)) }
{
    search_at_main(
        alloc,
        lines,
        sels,
        pattern,
        Search {
            direction,
            extend: false,
        },
        known,
    )
}

/// Adds the match that is found from the main selection, which becomes the main one; the others stay.
///
/// `NoMatch` comes exactly where the text has no match, and `TooMany` exactly where it has one and the list has
/// `MAX_SELECTIONS` selections already; but memory may run out before that is found. Where all matches of the pattern are known they are searched by
/// halves, or else the text is searched once.
pub fn add_match<P: Pattern>(
    alloc: Global,
    lines: &Lines,
    sels: &Sels,
    pattern: &P,
    direction: Direction,
    known: &KnownMatches,
) -> Result<Sels, SelectError>
    requires held { IsHeld lines.now sels.now }
    requires known { AreMatchesIn lines.now known.now }
    ensures held { IfOk result (λ s. IsHeld lines.now s) }
    ensures adds { IfOk result (λ s. selected lines.now s ≡ main_added (match_from direction (P.source pattern.now) lines.now) (selected lines.now sels.now)) }
    ensures some { IfOk result (λ s. 0 < length (all_matches (P.source pattern.now) lines.now)) }
    ensures room { IfOk result (λ s. length sels.now.list < MAX_SELECTIONS) }
    ensures refused { IfErr result (λ e. IsForOneMore e (all_matches (P.source pattern.now) lines.now) (length sels.now.list)) }
{
    let found = sought(
        alloc,
        lines,
        sels.at(sels.main()),
        pattern,
        direction,
        known,
    )?;
    let count = sels.len();
    if count == MAX_SELECTIONS {
        return Err(SelectError::TooMany);
    }
    let mut list = SmallVec::from_slice(alloc, sels.as_slice())?;
    push(&mut list, found)?;
    Ok(settled(alloc, list, count)?)
}

/// The match that is found from a selection: its anchor is the match's first character, and its cursor the last one.
///
/// `NoMatch` comes exactly where the text has no match, but memory may run out before that is found; `TooMany` never
/// comes. The text is searched once.
pub fn next_match<P: Pattern>(
    alloc: Global,
    lines: &Lines,
    from: Sel,
    pattern: &P,
    direction: Direction,
) -> Result<Pair, SelectError>
    requires { IsInside lines.now from }
    ensures inside { IfOk result (λ pair. IsPairInside lines.now pair) }
    ensures anchor { IfOk result (λ pair. offset lines.now pair.anchor ≡ (match_from direction (P.source pattern.now) lines.now (range_of lines.now from)).low) }
    ensures cursor { IfOk result (λ pair. offset lines.now pair.cursor ≡ (match_from direction (P.source pattern.now) lines.now (range_of lines.now from)).high) }
    ensures some { IfOk result (λ pair. 0 < length (all_matches (P.source pattern.now) lines.now)) }
    ensures refused { IfErr result (λ e. IsForNone e (all_matches (P.source pattern.now) lines.now)) }
{
    let found = sought_in_text(alloc, lines, from, pattern, direction)?;
    Ok(Pair {
        anchor: found.low,
        cursor: found.high,
    })
}
