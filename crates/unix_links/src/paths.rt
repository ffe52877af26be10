//! Where the files of a session stand: in the current folder.

use std::alloc::{AllocError, Global};

/// The paths of a session's files.
#[derive(Drop, Debug)]
pub struct Paths {
    /// The socket.
    pub socket: String,
    /// The file that a server has locked for as long as it lives.
    pub lock: String,
    /// The folder in which the socket is made.
    pub folder: String,
    /// The socket while it is made.
    pub fresh: String,
}

impl Paths {
    /// The paths of a session. An `Err` is want of memory.
    pub(crate) fn of(alloc: Global, session: &str) -> Result<Paths, AllocError> {
        Ok(Paths {
            socket: format!(in alloc; "{session}.kak")?,
            lock: format!(in alloc; "{session}.kak.lock")?,
            folder: format!(in alloc; "{session}.kak.new")?,
            fresh: format!(in alloc; "{session}.kak.new/socket")?,
        })
    }
}
