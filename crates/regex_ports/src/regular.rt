//! Patterns over the kit's regular expressions.

ghost use Rattle.std.specs.Prelude.{◌≡◌, ◌++◌, [], ◌∷◌, map, IfOk, IfErr, is_some};
ghost use Rattle.std.specs.List.{AllByRecursion};
ghost use Rattle.regex.specs.Patterns.{find_all_str, find_str, span};
ghost use Rattle.regex.specs.Strings.{regex_pattern, regex_source, regex_config, matcher_pattern, IsReadFromSource};
ghost use Rattle.regex_ports.specs.Matching.{options, span_of};
ghost use Rattle.regex_ports.specs.Making.{Rose};
ghost use Rattle.regex_ports.specs.Series.{AreBytes};

use crate::grouping::groups;
use crate::maker::{Made, PatternMaker};
use crate::pattern::{GroupSpan, Groups, Pattern, Span};
use crate::searching::groups_in;
use crate::seeking::{first_behind, last_before};
use crate::texts::Texts;
use regex::{Error, Matcher, Regex, RegexBuilder};
use sequences::Seq;
use std::alloc::{AllocError, Global};
use std::marker::Model;

/// A pattern over a regular expression. Contracts see the text that it was made of.
#[derive(Drop)]
pub struct RegexPattern {
    regex: Regex,
}

impl Model for RegexPattern {
    ghost use Rattle.std.specs.Prelude.{◌≡◌, List, ℕ};
    ghost use Rattle.regex.specs.Strings.{regex_source, regex_config, IsReadFromSource};
    ghost use Rattle.regex_ports.specs.Matching.{options};

    ghost Value = { List ℕ };

    ghost view = { λ p. regex_source p.regex };

    ghost invariant = { λ p. (regex_config p.regex ≡ options) × IsReadFromSource p.regex };
}

// The matches of a regular expression in a text.
fn spans(alloc: Global, regex: &Regex, text: &str) -> Result<Vec<Span>, AllocError>
    ensures { IfOk result (λ v. v.items ≡ map span_of (map span (find_all_str (regex_pattern regex.now) text.now))) }
{
    let mut matcher = regex.matcher(alloc)?;
    let mut found = Vec::new(alloc);
    for m in matcher.find_iter(text) {
        found.push(Span {
            start: m.start(),
            end: m.end(),
        })?;
    }
    Ok(found)
}

// Whether a matcher finds a match in a text.
fn is_found(matcher: &mut Matcher<'_>, text: &str) -> bool
    ensures found { result ≡ is_some (find_str (matcher_pattern matcher.old) text.now 0) }
    ensures same { matcher_pattern matcher.new ≡ matcher_pattern matcher.old }
    ensures bytes { AreBytes text.now }
{
    matcher.is_match(text)
}

// Of each of some texts whether a regular expression has a match in it.
fn found_in<T: Texts>(alloc: Global, regex: &Regex, texts: &mut T) -> Result<Vec<bool>, AllocError>
    ensures found { IfOk result (λ v. v.items ≡ map (λ text. is_some (find_str (regex_pattern regex.now) text 0)) (T.left texts.old)) }
    ensures bytes { IfOk result (λ v. AllByRecursion AreBytes (T.left texts.old)) }
{
    let mut matcher = regex.matcher(alloc)?;
    let mut text = String::new(alloc);
    let mut found = Vec::new(alloc);
    while texts.next(&mut text)? {
        found.push(is_found(&mut matcher, text.as_str()))?;
    }
    Ok(found)
}

impl Pattern for RegexPattern {
    ghost source = { λ p. p };

    fn text(&self) -> &str {
        self.regex.as_str()
    }

    fn matches(&self, alloc: Global, text: &str) -> Result<Vec<Span>, AllocError> {
        spans(alloc, &self.regex, text)
    }

    fn first_behind(
        &self,
        alloc: Global,
        text: &str,
        byte: usize,
    ) -> Result<Option<Span>, AllocError> {
        first_behind(alloc, &self.regex, text, byte)
    }

    fn last_before(
        &self,
        alloc: Global,
        text: &str,
        byte: usize,
    ) -> Result<Option<Span>, AllocError> {
        last_before(alloc, &self.regex, text, byte)
    }

    fn groups(&self, alloc: Global, text: &str) -> Result<Vec<Groups>, AllocError> {
        groups(alloc, &self.regex, text)
    }

    fn found_in<T: Texts>(&self, alloc: Global, texts: &mut T) -> Result<Vec<bool>, AllocError> {
        found_in(alloc, &self.regex, texts)
    }

    fn groups_in<T: Texts>(
        &self,
        alloc: Global,
        texts: &mut T,
    ) -> Result<Vec<Seq<GroupSpan>>, AllocError> {
        groups_in(alloc, &self.regex, texts)
    }
}

/// A maker of patterns over regular expressions, which counts the texts that it refuses.
#[derive(Drop, Debug)]
pub struct RegexMaker {
    refusals: u64,
}

impl RegexMaker {
    /// A maker that has not refused yet.
    pub fn new() -> RegexMaker
        ensures { result.refusals ≡ 0 }
    {
        RegexMaker { refusals: 0 }
    }

    /// Counts one refusal; a count at the end of its range stands still.
    pub(crate) fn refuse(&mut self)
        ensures { Rose self.old.refusals self.new.refusals }
    {
        self.refusals = self.refusals.saturating_add(1);
    }
}

impl PatternMaker for RegexMaker {
    type P = RegexPattern;

    ghost refusals = { λ m. m.refusals };

    fn make(&mut self, alloc: Global, pattern: &str) -> Result<Made<RegexPattern>, AllocError> {
        let built = RegexBuilder::new(pattern)
            .multi_line(true)
            .dot_matches_new_line(true)
            .build(alloc);
        match built {
            Ok(regex) => Ok(Made::Built(RegexPattern { regex })),
            Err(Error::OutOfMemory) => Err(AllocError),
            Err(_) => {
                self.refuse();
                Ok(Made::Refused)
            }
        }
    }
}
