//! Searches for a pattern, from selections on.

ghost use Rattle.std.specs.Prelude.{IfOk};
ghost use Rattle.std.specs.List.{AllByRecursion};
ghost use Rattle.selection_set.specs.Listing.{IsPairInside};
ghost use Rattle.selection_set.specs.Held.{IsHeld};
ghost use Rattle.regex_select.specs.Known.{AreMatchesIn};

use directions::Direction;
use kak_text::{Chars, Coord, Text};
use line_buffer::Lines;
use regex_ports::{Made, Pattern, PatternMaker, RegexMaker, RegexPattern};
use regex_select::{KnownMatches, Search, next_match, search, search_main};
use selection_set::{Pair, Sel, Sels};
use std::alloc::Global;
use std::process::Abort;
use std::test::Fail;

fn lines(alloc: Global, text: &str) -> Result<Lines, Fail> {
    let chars = Chars::from_str(alloc, text)?;
    let text = Text::of_chars(alloc, chars.as_slice())?;
    Ok(Lines::of_text(alloc, &text)?)
}

fn pattern<R: Abort>(rt: &R, alloc: Global, text: &str) -> Result<RegexPattern, Fail> {
    match RegexMaker::new().make(alloc, text)? {
        Made::Built(pattern) => Ok(pattern),
        Made::Refused => panic!(rt; "no pattern"),
    }
}

// The ends of a selection, by their offsets.
fn pair<R: Abort>(rt: &R, lines: &Lines, anchor: usize, cursor: usize) -> Pair
    ensures { IsPairInside lines.now result }
{
    assert!(rt; anchor < lines.len());
    assert!(rt; cursor < lines.len());
    Pair {
        anchor: lines.coord_of(anchor),
        cursor: lines.coord_of(cursor),
    }
}

// The selections between some ends.
fn listed<R: Abort>(
    rt: &R,
    alloc: Global,
    lines: &Lines,
    pairs: &[Pair],
    main: usize,
) -> Result<Sels, Fail>
    requires { AllByRecursion (IsPairInside lines.now) pairs.now }
    ensures { IfOk result (λ s. IsHeld lines.now s) }
{
    assert!(rt; main < pairs.len());
    Ok(Sels::of_pairs(alloc, pairs, main)?)
}

fn coord(column: u32) -> Coord {
    Coord { line: 0, column }
}

fn sel(low: u32, high: u32, turned: bool) -> Sel {
    Sel {
        low: coord(low),
        high: coord(high),
        turned,
        target: None,
    }
}

// What is known once a pattern was searched for twice.
fn known_twice(alloc: Global, lines: &Lines, pattern: &RegexPattern) -> KnownMatches
    ensures { AreMatchesIn lines.now result }
{
    let nothing = KnownMatches::nothing(alloc);
    let Some(noted) = nothing.when_searched(alloc, lines, pattern) else {
        return nothing;
    };
    let Some(all) = noted.when_searched(alloc, lines, pattern) else {
        return noted;
    };
    all
}

// A search for `ab` makes just these selections of two, and this main one.
fn assert_found<R: Abort>(
    rt: &R,
    alloc: Global,
    by: Search,
    expected: &[Sel],
    main: usize,
) -> Result<(), Fail> {
    let lines = lines(alloc, "abc ab é ab\n")?;
    let ab = pattern(rt, alloc, "ab")?;
    let pairs = [pair(rt, &lines, 2, 2), pair(rt, &lines, 10, 9)];
    let sels = listed(rt, alloc, &lines, pairs.as_slice(), 1)?;
    let nothing = KnownMatches::nothing(alloc);
    let found = search(alloc, &lines, &sels, &ab, by, &nothing)?;
    assert_eq!(rt; found.as_slice(), expected, "by {by:?}");
    assert_eq!(rt; found.main(), main, "by {by:?}");
    let known = known_twice(alloc, &lines, &ab);
    assert!(rt; known.are_all_of("ab"));
    let found = search(alloc, &lines, &sels, &ab, by, &known)?;
    assert_eq!(rt; found.as_slice(), expected, "by {by:?} among known ones");
    assert_eq!(rt; found.main(), main, "by {by:?} among known ones");
    Ok(())
}

#[test]
fn searches_go_round_the_ends(rt: HostRuntime) -> Result<(), Fail> {
    let both = [sel(0, 1, false), sel(4, 5, false)];
    let search = Search {
        direction: Direction::Forward,
        extend: false,
    };
    assert_found(&rt, rt.alloc(), search, both.as_slice(), 0)?;
    let stretched = [sel(1, 2, true), sel(5, 10, true)];
    let search = Search {
        direction: Direction::Backward,
        extend: true,
    };
    assert_found(&rt, rt.alloc(), search, stretched.as_slice(), 1)
}

// The ends of what is selected by the match that is found from one character on.
fn next_ends<R: Abort>(
    rt: &R,
    alloc: Global,
    lines: &Lines,
    pattern: &RegexPattern,
    from: usize,
    direction: Direction,
) -> Result<(Coord, Coord), Fail> {
    assert!(rt; from < lines.len());
    let from = Sel::only(lines.coord_of(from));
    let found = next_match(alloc, lines, from, pattern, direction)?;
    Ok((found.anchor, found.cursor))
}

// The ends of the match that is found from one character on where all matches are known.
fn known_ends<R: Abort>(
    rt: &R,
    alloc: Global,
    lines: &Lines,
    pattern: &RegexPattern,
    from: usize,
    direction: Direction,
) -> Result<(Coord, Coord), Fail> {
    let known = known_twice(alloc, lines, pattern);
    assert!(rt; known.are_all_of(pattern.text()));
    let pairs = [pair(rt, lines, from, from)];
    let sels = listed(rt, alloc, lines, pairs.as_slice(), 0)?;
    let found = search_main(alloc, lines, &sels, pattern, direction, &known)?;
    let main = found.at(found.main());
    Ok((main.low, main.high))
}

#[test]
fn one_match_is_found_either_way(rt: HostRuntime) -> Result<(), Fail> {
    let alloc = rt.alloc();
    let rows = [
        ("abc ab é ab\n", "é a|b c", 9, Direction::Forward, (7, 9)),
        ("abc ab é ab\n", "ab", 10, Direction::Forward, (0, 1)),
        ("abc ab é ab\n", "ab", 9, Direction::Forward, (0, 1)),
        ("abc ab é ab\n", "ab", 0, Direction::Backward, (9, 10)),
        ("abc ab é ab\n", "ab", 10, Direction::Backward, (9, 10)),
        ("éaéa\n", "a", 1, Direction::Forward, (3, 3)),
        ("éaéa\n", "a", 3, Direction::Backward, (1, 1)),
        ("ab\n", "x*", 0, Direction::Forward, (1, 1)),
        ("ab\n", "x*", 2, Direction::Forward, (0, 0)),
        ("ab\n", "x*", 0, Direction::Backward, (2, 2)),
        ("ab\n", "\n", 0, Direction::Forward, (2, 2)),
    ];
    for (text, source, from, direction, expected) in rows {
        let lines = lines(alloc, text)?;
        let sought = pattern(&rt, alloc, source)?;
        let (low, high) = expected;
        let (anchor, cursor) = next_ends(&rt, alloc, &lines, &sought, from, direction)?;
        assert_eq!(rt; anchor, coord(low), "{source} from {from} of {text}");
        assert_eq!(rt; cursor, coord(high), "{source} from {from} of {text}");
        let (first, last) = known_ends(&rt, alloc, &lines, &sought, from, direction)?;
        assert_eq!(rt; first, coord(low), "known {source} from {from} of {text}");
        assert_eq!(rt; last, coord(high), "known {source} from {from} of {text}");
    }
    Ok(())
}

#[test]
fn what_is_known_is_of_the_pattern_that_was_searched_for_last(rt: HostRuntime) -> Result<(), Fail> {
    let alloc = rt.alloc();
    let lines = lines(alloc, "abc ab\n")?;
    let ab = pattern(&rt, alloc, "ab")?;
    let known = known_twice(alloc, &lines, &ab);
    assert_eq!(rt; known.as_slice().len(), 2);
    assert!(rt; known.when_searched(alloc, &lines, &ab).is_none());
    let other = pattern(&rt, alloc, "abc")?;
    assert!(rt; !known.are_all_of("abc"));
    let Some(noted) = known.when_searched(alloc, &lines, &other) else {
        panic!(rt; "another pattern isn't noted");
    };
    assert!(rt; !noted.are_all_of("ab"));
    assert!(rt; !noted.are_all_of("abc"));
    Ok(())
}
