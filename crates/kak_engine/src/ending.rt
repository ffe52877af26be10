//! How the parts of a step end.

ghost use Rattle.std.specs.Prelude.{◌≡◌, ℕ, IfOk, IsErr};
ghost use Rattle.kak_world.specs.Flat.{Flat};
ghost use Rattle.kak_engine.specs.Doing.{end_by_error, end_still};
ghost use Rattle.kak_engine.specs.Steps.{told};
ghost use Rattle.kak_engine.specs.Seen.{end_seen, limit_text, told_as};

use kak_text::Chars;
use kak_world::{EditError, Fault};
use std::alloc::{AllocError, Global};

// The status text of a step that would have gone deeper than it may.
const NESTED_TOO_DEEP: &str = "given up: nested too deep";

/// At what a step is given up.
#[derive(Clone, Copy, PartialEq, Eq, Debug)]
pub enum Limit {
    /// No unit was left.
    Units,
    /// It would have gone deeper than it may.
    Depth,
}

/// How something ended.
#[derive(Drop, Debug)]
pub enum Ending {
    /// Well.
    Fine,
    /// With an error.
    Failed(Fault),
    /// It was given up.
    GivenUp(Limit),
}

/// What a client is told of how its step ended.
#[derive(Drop, Debug)]
pub(crate) enum Told {
    /// Nothing.
    Nothing,
    /// An error, unless one of a hook that arose behind it was told already.
    Fault(Fault),
    /// That it was given up.
    GivenUp(Chars),
}

impl Ending {
    /// What the client is told of it.
    pub(crate) fn told(self, alloc: Global) -> Result<Told, AllocError>
        ensures { IfOk result (λ t. (who : ℕ) (flat : Flat) → told_as t who flat ≡ told who (end_seen self) flat) }
    {
        match self {
            Ending::Fine => Ok(Told::Nothing),
            Ending::Failed(fault) => Ok(Told::Fault(fault)),
            Ending::GivenUp(limit) => Ok(Told::GivenUp(limit.text(alloc)?)),
        }
    }

    /// The end of something behind which another thing was done: its own, unless the step was given up by that.
    pub(crate) fn still(self, next: Ending) -> Ending
        ensures { end_seen result ≡ end_still (end_seen self) (end_seen next) }
    {
        match next {
            Ending::Fine => self,
            Ending::Failed(_) => self,
            Ending::GivenUp(limit) => Ending::GivenUp(limit),
        }
    }
}

impl Limit {
    /// The status text of a step that is given up at it.
    pub(crate) fn text(self, alloc: Global) -> Result<Chars, AllocError>
        ensures { IfOk result (λ text. text ≡ limit_text self) }
    {
        match self {
            Limit::Units => EditError::BudgetSpent.text(alloc),
            Limit::Depth => Chars::from_str(alloc, NESTED_TOO_DEEP),
        }
    }
}

/// How something ends that was refused when so many errors of hooks had been told.
pub(crate) fn ending_of(alloc: Global, at: u64, error: EditError) -> Result<Ending, AllocError>
    ensures ends { IfOk result (λ ending. end_seen ending ≡ end_by_error at error) }
    ensures memory { error ≡ EditError.NoMemory → IsErr result }
{
    match error {
        EditError::BudgetSpent => Ok(Ending::GivenUp(Limit::Units)),
        error => {
            let text = error.text(alloc)?;
            Ok(Ending::Failed(Fault { at, text }))
        }
    }
}
