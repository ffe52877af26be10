//! Links and an acceptor over a Unix socket, which stands in the current folder as `<session>.kak`: the edge of what is
//! proved. They count their faults, and tell nothing of the bytes.
#![tactic(auto)]

pub mod acceptor;
pub mod bell;
mod door;
pub mod link;
mod paths;
pub mod pausing;
pub mod socket;

pub use acceptor::UnixAcceptor;
pub use bell::Bell;
pub use link::{ClosedLink, StreamLink, UnixLink};
pub use pausing::PausingRead;
pub use socket::{SocketReader, SocketWriter};
