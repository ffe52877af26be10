//! The matches of a pattern in a text, kept beside the text, so that a search that is made again is one by halves.

ghost use Rattle.std.specs.Prelude.{◌≡◌, ℕ, List, string_bytes, IfOk, IfSome, IsTrue};
ghost use Rattle.regex_select.specs.declared.known.Stage.TheVariants.{All};
ghost use Rattle.regex_select.specs.Known.{AreMatchesIn};

use crate::whole::all_matches;
use line_buffer::Lines;
use regex_ports::Pattern;
use selection_set::Sel;
use smallvec::SmallVec;
use std::alloc::{AllocError, Global};
use std::marker::Model;
use text_model::MAX_SELECTIONS;

/// How far the matches of a pattern are known.
#[derive(Clone, Copy, PartialEq, Eq, Debug)]
pub enum Stage {
    /// The pattern was searched for, and its matches weren't made.
    Noted,
    /// All matches are there.
    All,
    /// They are more than `MAX_SELECTIONS`, and none of them is kept.
    TooMany,
}

/// What is known of the matches of one pattern in a text. Contracts see the text that the pattern was made of.
#[derive(Drop, Debug)]
pub struct KnownMatches {
    source: String,
    stage: Stage,
    list: SmallVec<Sel, 4>,
}

impl Model for KnownMatches {
    ghost use Rattle.std.specs.Prelude.{string_bytes};
    ghost use Rattle.regex_select.specs.Known.{Known};

    ghost Value = { Known };

    ghost view = { λ k. record { source = string_bytes k.source; stage = k.stage; list = k.list.items } };
}

impl KnownMatches {
    ghost use Rattle.std.specs.Prelude.{◌≡◌, ℕ, List, string_bytes, IfOk, IfSome, IsTrue};
    ghost use Rattle.regex_select.specs.declared.known.Stage.TheVariants.{All};
    ghost use Rattle.regex_select.specs.Known.{AreMatchesIn};

    /// No matches are known. It is true of each text, and takes no memory.
    pub fn nothing(alloc: Global) -> KnownMatches
        ensures { (text : List ℕ) → AreMatchesIn text result }
    {
        KnownMatches {
            source: String::new(alloc),
            stage: Stage::Noted,
            list: SmallVec::new(alloc),
        }
    }

    // A pattern is noted by the text that it was made of. It is true of each text.
    fn noted(alloc: Global, source: &str) -> Result<KnownMatches, AllocError>
        ensures of { IfOk result (λ known. known.source ≡ source.now) }
        ensures matches { IfOk result (λ known. (text : List ℕ) → AreMatchesIn text known) }
    {
        Ok(KnownMatches {
            source: String::from_str(alloc, source)?,
            stage: Stage::Noted,
            list: SmallVec::new(alloc),
        })
    }

    // All matches of a pattern in a text, or that they are too many. It costs the text.
    fn made<P: Pattern>(
        alloc: Global,
        lines: &Lines,
        pattern: &P,
    ) -> Result<KnownMatches, AllocError>
        ensures of { IfOk result (λ known. known.source ≡ P.source pattern.now) }
        ensures matches { IfOk result (λ known. AreMatchesIn lines.now known) }
    {
        let mut known = KnownMatches::noted(alloc, pattern.text())?;
        let list = all_matches(alloc, lines, pattern)?;
        if list.len() > MAX_SELECTIONS {
            known.stage = Stage::TooMany;
            return Ok(known);
        }
        known.list = list;
        known.stage = Stage::All;
        Ok(known)
    }

    /// What is to be known when a pattern is searched for in a text: it is noted where something is known of another one; where
    /// it was noted, it is searched for again, and all its matches are made. There is nothing else to be known where they were
    /// made, or where memory is wanting, which isn't told.
    pub fn when_searched<P: Pattern>(
        &self,
        alloc: Global,
        lines: &Lines,
        pattern: &P,
    ) -> Option<KnownMatches>
        ensures { IfSome result (λ known. AreMatchesIn lines.now known) }
    {
        if !self.is_of(pattern.text()) {
            return KnownMatches::noted(alloc, pattern.text()).ok();
        }
        match self.stage {
            Stage::Noted => KnownMatches::made(alloc, lines, pattern).ok(),
            Stage::All => None,
            Stage::TooMany => None,
        }
    }

    // Whether it is the pattern of a text of which something is known.
    fn is_of(&self, source: &str) -> bool
        ensures { IsTrue result → self.now.source ≡ source.now }
    {
        self.source.as_str() == source
    }

    /// Whether all matches are known of the pattern of a text.
    pub fn are_all_of(&self, source: &str) -> bool
        ensures all { IsTrue result → self.now.stage ≡ All }
        ensures of { IsTrue result → self.now.source ≡ source.now }
    {
        match self.stage {
            Stage::All => self.is_of(source),
            Stage::Noted => false,
            Stage::TooMany => false,
        }
    }

    /// The matches that are known, in the order of the text.
    pub fn as_slice(&self) -> &[Sel]
        ensures { result.now ≡ self.now.list }
    {
        self.list.as_slice()
    }
}
