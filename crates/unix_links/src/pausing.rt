//! Readers and writers that make their caller wait, and when a reader does.

ghost use Rattle.std.specs.Prelude.{IfErr, IsTrue};
ghost use Rattle.std.specs.Io.{ReadsAtMost};
ghost use Rattle.std.specs.Io.KnownBytes.{ReadConsumes};
ghost use Rattle.std.specs.IoError.{error_kind};
ghost use Rattle.client_links.specs.Wires.{IsNotAtEnd};
ghost use Rattle.unix_links.specs.Pauses.{IsPause};

use std::io;
use std::io::{ErrorKind, Read};

/// A reader that makes its caller wait only where something is still to come, if it tells what.
pub trait PausingRead: Read {
    /// Reads as `read` does. A call that would have had to wait for longer is an error of the kind of a pause, and then
    /// the reader isn't at its end.
    fn read_or_pause(&mut self, buf: &mut [u8]) -> io::Result<usize>
        ensures bound { ReadsAtMost result buf.new }
        ensures bytes { ReadConsumes (Self.remaining self.old) (Self.remaining self.new) result buf.new }
        ensures waits { IfErr result (λ e. IsPause (error_kind e) → IsNotAtEnd (Self.remaining self.old)) };
}

/// Whether a call would have had to wait for longer, which is no fault.
pub(crate) fn is_pause(error: &io::Error) -> bool
    ensures { IsTrue result → IsPause (error_kind error.now) }
{
    matches!(
        error.kind(),
        ErrorKind::WouldBlock | ErrorKind::TimedOut | ErrorKind::Interrupted
    )
}
