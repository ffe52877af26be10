//! The matches of patterns, and patterns that are refused.

use byte_texts::Words;
use regex_ports::{
    Made, Pattern, PatternMaker, RefusingMaker, RegexMaker, RegexPattern, Span, Texts,
};
use std::alloc::{AllocError, Global};
use std::process::Abort;
use std::test::Fail;

// The ranges that a pattern finds in a text.
fn shown<M: PatternMaker>(
    alloc: Global,
    maker: &mut M,
    pattern: &str,
    text: &str,
) -> Result<String, AllocError> {
    let mut ranges = String::new(alloc);
    match maker.make(alloc, pattern)? {
        Made::Refused => ranges.push_str("refused")?,
        Made::Built(built) => {
            for span in built.matches(alloc, text)?.as_slice() {
                let start = span.start;
                let end = span.end;
                ranges.push_str(format!(in alloc; "{start}-{end} ")?.as_str())?;
            }
        }
    }
    Ok(ranges)
}

#[test]
fn patterns_find_their_matches(rt: HostRuntime) -> Result<(), Fail> {
    let alloc = rt.alloc();
    let mut maker = RegexMaker::new();
    let rows = [
        ("b", "abcb", "1-2 3-4 "),
        ("a*", "ab", "0-1 2-2 "),
        ("^b$", "a\nb\nc", "2-3 "),
        ("a.b", "xa\nb", "1-4 "),
        ("é", "aé", "1-3 "),
        ("\\bx", "", ""),
        ("(", "x", "refused"),
    ];
    for (pattern, text, wanted) in rows {
        let given = shown(alloc, &mut maker, pattern, text)?;
        assert_eq!(rt; given.as_str(), wanted, "{pattern} in {text}");
    }
    Ok(())
}

#[test]
fn listed_patterns_are_refused(rt: HostRuntime) -> Result<(), Fail> {
    let alloc = rt.alloc();
    let mut listed = Words::new(alloc);
    listed.push(String::from_str(alloc, "b")?)?;
    let mut maker = RefusingMaker::new(listed);
    let refused = shown(alloc, &mut maker, "b", "abc")?;
    assert_eq!(rt; refused.as_str(), "refused");
    let built = shown(alloc, &mut maker, "c", "abc")?;
    assert_eq!(rt; built.as_str(), "2-3 ");
    Ok(())
}

fn pattern<R: Abort>(rt: &R, alloc: Global, text: &str) -> Result<RegexPattern, Fail> {
    match RegexMaker::new().make(alloc, text)? {
        Made::Built(pattern) => Ok(pattern),
        Made::Refused => panic!(rt; "no pattern"),
    }
}

// The ranges of the groups of each match, and a dash for a group that takes no part.
fn shown_groups(alloc: Global, pattern: &RegexPattern, text: &str) -> Result<String, AllocError> {
    let mut ranges = String::new(alloc);
    for groups in pattern.groups(alloc, text)?.as_slice() {
        for span in groups.spans.as_slice() {
            match span {
                None => ranges.push_str("- ")?,
                Some(Span { start, end }) => {
                    ranges.push_str(format!(in alloc; "{start}-{end} ")?.as_str())?;
                }
            }
        }
        ranges.push_str("; ")?;
    }
    Ok(ranges)
}

#[test]
fn groups_take_part_or_not(rt: HostRuntime) -> Result<(), Fail> {
    let alloc = rt.alloc();
    let rows = [
        ("(b)|(c)", "bc", "0-1 0-1 - ; 1-2 - 1-2 ; "),
        ("(é)(x*)", "aé", "1-3 1-3 3-3 ; "),
        ("(a|b)+", "ab", "0-2 1-2 ; "),
        ("b", "ab", "1-2 ; "),
        ("(b)", "a", ""),
    ];
    for (source, text, wanted) in rows {
        let given = shown_groups(alloc, &pattern(&rt, alloc, source)?, text)?;
        assert_eq!(rt; given.as_str(), wanted, "{source} in {text}");
    }
    Ok(())
}

// One text, and no more.
#[derive(Drop)]
struct One<'a> {
    text: &'a str,
    told: bool,
}

impl<'a> Texts for One<'a> {
    ghost use Rattle.std.specs.Prelude.{[], ◌∷◌, if◌then◌else◌};

    ghost left = { λ t. if t.told then [] else t.text.now ∷ [] };

    fn next(&mut self, text: &mut String) -> Result<bool, AllocError> {
        if self.told {
            return Ok(false);
        }
        text.clear();
        text.push_str(self.text)?;
        self.told = true;
        Ok(true)
    }
}

#[test]
fn texts_have_a_match_or_none(rt: HostRuntime) -> Result<(), Fail> {
    let alloc = rt.alloc();
    let rows = [
        ("b", "abc", true),
        ("b", "ac", false),
        ("^b", "a\nb", true),
        ("^b", "ab", false),
        ("x*", "", true),
        ("é$", "aé", true),
    ];
    for (source, text, wanted) in rows {
        let mut texts = One { text, told: false };
        let found = pattern(&rt, alloc, source)?.found_in(alloc, &mut texts)?;
        assert_eq!(rt; found.as_slice(), [wanted].as_slice(), "{source} in {text}");
    }
    Ok(())
}
