//! What wakes the links that wait.

use mio::net::UnixStream;
use mio::unix::SourceFd;
use mio::{Interest, Registry, Token};
use std::alloc::Global;
use std::io;
use std::io::{Read, Write};
use std::net::Net;
use std::os::fd::AsRawFd;
use std::sync::Arc;

/// How many rings are taken back at once from a bell that is full of them.
const MOST_TAKEN: usize = 4_096;

// Two ends of a connection to oneself: a ring is a byte that goes from one to the other, and is left there.
#[derive(Drop)]
struct Ends {
    rung: UnixStream,
    heard: UnixStream,
}

/// Wakes all links that wait for bytes. A clone is the same bell.
#[derive(Drop, Clone)]
pub struct Bell {
    ends: Arc<Ends>,
}

impl Bell {
    /// A bell that nobody hears yet. The handle is for its descriptors. An `Err` is of the system, or want of memory.
    pub fn new<H: Net>(net: &H, alloc: Global) -> io::Result<Bell> {
        let (rung, heard) = UnixStream::pair(net)?;
        Ok(Bell {
            ends: Arc::new(alloc, Ends { rung, heard })?,
        })
    }

    /// Has each ring from now on end a wait on these sources, as an event with the token. The bell has to live as long.
    pub(crate) fn wake_by(&self, sources: &Registry, token: Token) -> io::Result<()> {
        let heard = self.ends.heard.as_raw_fd();
        sources.register(&mut SourceFd(&heard), token, Interest::READABLE)
    }

    // Puts a ring behind those before. There may be no room for it.
    fn put(&self) -> io::Result<usize> {
        let mut rung = &self.ends.rung;
        rung.write(&[0])
    }

    // Takes back the rings of before, which have been heard or are by the next one.
    fn take_back(&self) {
        let mut heard = &self.ends.heard;
        let _ = heard.read(&mut [0; MOST_TAKEN]);
    }

    /// Wakes all links that wait; one that doesn't wait now won't the next time. Nothing is claimed of it, and it never
    /// waits itself.
    pub fn ring(&self) {
        if self.put().is_err() {
            self.take_back();
            let _ = self.put();
        }
    }
}
