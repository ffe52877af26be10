//! How the serving of a link ends.

ghost use Rattle.std.specs.Prelude.{◌≡◌};
ghost use Rattle.link_lines.specs.Endings.{ended_of};

use session_lines::{InputEnd, Stop};

/// How the serving of a link ended.
#[derive(Clone, Copy, PartialEq, Eq, Debug)]
pub enum Ended {
    /// The client was let go.
    Left,
    /// The other side ended, and every line was answered.
    Closed,
    /// Receiving failed.
    LinkRead,
    /// Sending failed; the client left.
    LinkWrite,
    /// The link said more bytes than are taken.
    InputFull,
    /// The history takes no further entry.
    HistoryFull,
    /// The session has as many clients as it may have; the client didn't come.
    Full,
    /// The session is broken, since so many entries stood.
    Broken(u64),
    /// Memory ran out.
    NoMemory,
}

/// How a serving ends of which so much was played, where the client leaves behind it.
pub fn ended_of(played: Result<InputEnd, Stop>) -> Ended
    ensures { result ≡ ended_of played }
{
    match played {
        Ok(InputEnd::Left) => Ended::Left,
        Ok(InputEnd::Ended) => Ended::Closed,
        Ok(InputEnd::ReadFault) => Ended::LinkRead,
        Ok(InputEnd::Full) => Ended::InputFull,
        Err(Stop::WriteFault) => Ended::LinkWrite,
        Err(Stop::HistoryFull) => Ended::HistoryFull,
        Err(Stop::Broken(at)) => Ended::Broken(at),
        Err(Stop::NoMemory) => Ended::NoMemory,
    }
}
