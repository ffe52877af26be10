//! Who reads lines as requests.

ghost use Rattle.std.specs.Prelude.{◌≡◌, Ok, IfOk, IfErr};
ghost use Rattle.requests.specs.Reading.{Reads, IsLineError};

use crate::request::{LineError, Request};
use std::alloc::Global;

/// Who reads lines as requests. Nothing is kept from one line to the next.
pub trait Reader {
    // Which request a line is, or why it is refused.
    ghost reads: { Reads };

    /// The request of a line, without its newline, or why it is refused. Where memory is wanting, that is told instead.
    fn read(alloc: Global, line: &[u8]) -> Result<Request, LineError>
        ensures request { IfOk result (λ r. reads line.now ≡ Ok r) }
        ensures error { IfErr result (λ e. IsLineError e (reads line.now)) };
}
