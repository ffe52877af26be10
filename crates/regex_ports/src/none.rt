//! A maker that refuses every text.

ghost use Rattle.std.specs.Prelude.{◌≡◌, [], IfOk, IsOk, OnErr};
ghost use Rattle.regex_ports.specs.Making.{IfBuilt, IsCounted, IsRefused};

use crate::maker::{Made, PatternMaker};
use crate::pattern::{GroupSpan, Groups, Pattern, Span};
use crate::texts::Texts;
use sequences::Seq;
use std::alloc::{AllocError, Global};

/// The pattern of a maker that makes none. It never has the memory to search.
#[derive(Drop)]
pub struct NoPattern {}

impl Pattern for NoPattern {
    ghost use Rattle.std.specs.Prelude.{[]};

    ghost source = { λ p. [] };

    fn text(&self) -> &str {
        ""
    }

    fn matches(&self, alloc: Global, text: &str) -> Result<Vec<Span>, AllocError> {
        Err(AllocError)
    }

    fn first_behind(
        &self,
        alloc: Global,
        text: &str,
        byte: usize,
    ) -> Result<Option<Span>, AllocError> {
        Err(AllocError)
    }

    fn last_before(
        &self,
        alloc: Global,
        text: &str,
        byte: usize,
    ) -> Result<Option<Span>, AllocError> {
        Err(AllocError)
    }

    fn groups(&self, alloc: Global, text: &str) -> Result<Vec<Groups>, AllocError> {
        Err(AllocError)
    }

    fn found_in<T: Texts>(&self, alloc: Global, texts: &mut T) -> Result<Vec<bool>, AllocError> {
        Err(AllocError)
    }

    fn groups_in<T: Texts>(
        &self,
        alloc: Global,
        texts: &mut T,
    ) -> Result<Vec<Seq<GroupSpan>>, AllocError> {
        Err(AllocError)
    }
}

/// A maker of patterns that refuses every text, for sessions that need no pattern.
#[derive(Drop, Debug)]
pub struct NoPatterns {
    refusals: u64,
}

impl NoPatterns {
    /// A maker that has not refused yet.
    pub fn new() -> NoPatterns
        ensures { result.refusals ≡ 0 }
    {
        NoPatterns { refusals: 0 }
    }
}

impl PatternMaker for NoPatterns {
    type P = NoPattern;

    ghost refusals = { λ m. m.refusals };

    fn make(&mut self, alloc: Global, pattern: &str) -> Result<Made<NoPattern>, AllocError>
        ensures built { IfOk result (λ made. IfBuilt made (λ p. [] ≡ pattern.now)) }
        ensures counted { IfOk result (λ made. IsCounted made self.old.refusals self.new.refusals) }
        ensures err { OnErr result (self.new.refusals ≡ self.old.refusals) }
        ensures refuses { IfOk result IsRefused }
        ensures answers { IsOk result }
    {
        self.refusals = self.refusals.saturating_add(1);
        Ok(Made::Refused)
    }
}
