//! Why a step is refused.

use thiserror::Error;

/// Why a step was refused. It changed nothing but the mark.
#[derive(Clone, Copy, PartialEq, Eq, Debug, Error)]
pub enum StepFault {
    /// An earlier step found no memory, when so many entries stood. No step is taken any more.
    #[error("the session is broken since entry {0}")]
    Broken(u64),
    /// That client isn't joined.
    #[error("client {0} isn't joined")]
    NoClient(u32),
    /// That client has joined before.
    #[error("client {0} has joined before")]
    Joined(u32),
    /// The history has as many entries as it may have; only leaving is still possible.
    #[error("the history is full")]
    HistoryFull,
    /// As many clients are joined as may be.
    #[error("the session is full")]
    Full,
    /// Memory ran out. The session is broken from now on.
    #[error("out of memory")]
    NoMemory,
}
