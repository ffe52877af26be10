//! What makes patterns of texts.

ghost use Rattle.std.specs.Prelude.{◌≡◌, ℕ, IfOk, OnErr};
ghost use Rattle.regex_ports.specs.Making.{IfBuilt, IsCounted};

use crate::pattern::Pattern;
use std::alloc::{AllocError, Global};

/// What a maker answers.
#[derive(Drop)]
pub enum Made<P: Drop> {
    /// The pattern.
    Built(P),
    /// The text is no pattern, or one that is too big, and the count of refusals rose.
    Refused,
}

/// A maker of patterns.
pub trait PatternMaker {
    type P: Pattern;

    // How often it has refused. It never falls.
    ghost refusals: { Self → ℕ };

    /// The pattern of a text. A pattern that was built is that of this text. An `Err` leaves the count.
    fn make(&mut self, alloc: Global, pattern: &str) -> Result<Made<Self::P>, AllocError>
        ensures built { IfOk result (λ made. IfBuilt made (λ p. Self.P.source p ≡ pattern.now)) }
        ensures counted { IfOk result (λ made. IsCounted made (refusals self.old) (refusals self.new)) }
        ensures err { OnErr result (refusals self.new ≡ refusals self.old) };
}
