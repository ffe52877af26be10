//! Something to be run once.

use std::sync::Wait;

/// Something to be run once, which then has a result.
pub trait Job: Drop {
    /// What it gives when it has ended.
    type Gives: Drop;

    // When it may be run.
    ghost ready: { Self → Type 0 };

    // Its promise: what it may give.
    ghost gives: { Self → Self.Gives → Type 0 };

    /// Runs it to its end.
    fn run<R: Wait>(self, rt: &R) -> Self::Gives
        requires { ready self }
        ensures { gives self result };
}
