//! A maker that refuses planned texts.

ghost use Rattle.std.specs.Prelude.{◌≡◌, ◌==◌, true, IfOk, OnErr};
ghost use Rattle.std.specs.List.{list_any};
ghost use Rattle.std.specs.Str.{bytes_eq};
ghost use Rattle.regex_ports.specs.Making.{IfBuilt, IsCounted, IsRefused};

use crate::maker::{Made, PatternMaker};
use crate::regular::{RegexMaker, RegexPattern};
use byte_texts::Words;
use std::alloc::{AllocError, Global};

/// A maker of patterns over regular expressions that refuses the texts of a list as well.
#[derive(Drop, Debug)]
pub struct RefusingMaker {
    listed: Words,
    maker: RegexMaker,
}

impl RefusingMaker {
    /// A maker that refuses these texts, and has not refused yet.
    pub fn new(listed: Words) -> RefusingMaker
        ensures listed { result.listed ≡ listed }
        ensures refusals { result.maker.refusals ≡ 0 }
    {
        RefusingMaker {
            listed,
            maker: RegexMaker::new(),
        }
    }
}

// Whether a text is in a list.
fn is_listed(listed: &Words, text: &str) -> bool
    ensures { result ≡ list_any (λ word. bytes_eq word text.now) listed.now }
{
    for n in 0..listed.len() {
        if listed.get(n) == text {
            return true;
        }
    }
    false
}

impl PatternMaker for RefusingMaker {
    type P = RegexPattern;

    ghost refusals = { λ m. m.maker.refusals };

    fn make(&mut self, alloc: Global, pattern: &str) -> Result<Made<RegexPattern>, AllocError>
        ensures built { IfOk result (λ made. IfBuilt made (λ p. p ≡ pattern.now)) }
        ensures counted { IfOk result (λ made. IsCounted made self.old.maker.refusals self.new.maker.refusals) }
        ensures err { OnErr result (self.new.maker.refusals ≡ self.old.maker.refusals) }
        ensures refuses { IfOk result (λ made. list_any (λ word. bytes_eq word pattern.now) self.old.listed ≡ true → IsRefused made) }
    {
        if is_listed(&self.listed, pattern) {
            self.maker.refuse();
            return Ok(Made::Refused);
        }
        self.maker.make(alloc, pattern)
    }
}
