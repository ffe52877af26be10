//! The two directions of a socket: a reader that waits for bytes or for a bell, and a writer that waits for room.

ghost use Rattle.std.specs.Io.{ReadsAtMost};

use crate::bell::Bell;
use crate::pausing::{PausingRead, is_pause};
use mio::net::UnixStream;
use mio::{Events, Interest, Poll, Token};
use std::alloc::Global;
use std::io;
use std::io::{ErrorKind, Read, Write};
use std::net::Net;
use std::time::Duration;

/// How long a reader waits at most for bytes or for its bell, in milliseconds.
pub const HEARING_MILLIS: u64 = 2_000;

/// How long a writer waits at once for the other side to read, in milliseconds.
pub const PAUSE_MILLIS: u64 = 100;

// What a wait may end by.
const SOCKET: Token = Token(0);

const BELL: Token = Token(1);

/// What comes over a socket. Nothing is told of it. It rings where it is first asked, behind the first drawing of who came: the
/// others look at once that somebody is there.
#[derive(Drop)]
pub struct SocketReader {
    stream: UnixStream,
    poll: Poll,
    events: Events,
    bell: Bell,
    has_rung: bool,
}

impl SocketReader {
    /// A reader of a stream that doesn't wait by itself. An `Err` is of the system, or want of memory.
    pub(crate) fn new<H: Net>(
        net: &H,
        alloc: Global,
        mut stream: UnixStream,
        bell: Bell,
    ) -> io::Result<SocketReader> {
        let poll = Poll::new(net)?;
        poll.registry()
            .register(&mut stream, SOCKET, Interest::READABLE)?;
        bell.wake_by(poll.registry(), BELL)?;
        Ok(SocketReader {
            stream,
            poll,
            events: Events::with_capacity(alloc, 2)?,
            bell,
            has_rung: false,
        })
    }

    // Rings, the first time.
    fn ring_once(&mut self) {
        if !self.has_rung {
            self.has_rung = true;
            self.bell.ring();
        }
    }

    // Waits a while until something comes or the bell rings, and tells whether something came.
    fn has_come(&mut self) -> io::Result<bool> {
        let wait = Duration::from_millis(HEARING_MILLIS);
        self.poll.poll(&mut self.events, Some(wait))?;
        for event in self.events.iter() {
            if event.token() == SOCKET {
                return Ok(true);
            }
        }
        Ok(false)
    }

    // Reads, and where nothing is there waits a while for something and tries once more.
    fn hear(&mut self, buf: &mut [u8]) -> io::Result<usize>
        ensures { ReadsAtMost result buf.new }
    {
        match self.stream.read(buf) {
            Err(error) if is_pause(&error) => {}
            read => return read,
        }
        if self.has_come()? {
            self.stream.read(buf)
        } else {
            Err(io::Error::from(ErrorKind::WouldBlock))
        }
    }
}

impl Read for SocketReader {
    fn read(&mut self, buf: &mut [u8]) -> io::Result<usize> {
        self.stream.read(buf)
    }
}

/// A socket tells nothing.
impl PausingRead for SocketReader {
    fn read_or_pause(&mut self, buf: &mut [u8]) -> io::Result<usize> {
        self.ring_once();
        self.hear(buf)
    }
}

/// What goes over a socket. Nothing is told of it.
#[derive(Drop)]
pub struct SocketWriter {
    stream: UnixStream,
    poll: Poll,
    events: Events,
}

impl SocketWriter {
    /// A writer to a stream that doesn't wait by itself. An `Err` is of the system, or want of memory.
    pub(crate) fn new<H: Net>(
        net: &H,
        alloc: Global,
        mut stream: UnixStream,
    ) -> io::Result<SocketWriter> {
        let poll = Poll::new(net)?;
        poll.registry()
            .register(&mut stream, SOCKET, Interest::WRITABLE)?;
        Ok(SocketWriter {
            stream,
            poll,
            events: Events::with_capacity(alloc, 1)?,
        })
    }
}

impl Write for SocketWriter {
    // Where there is no room it waits a while for some, and tries once more.
    fn write(&mut self, buf: &[u8]) -> io::Result<usize> {
        match self.stream.write(buf) {
            Err(error) if is_pause(&error) => {}
            written => return written,
        }
        let wait = Duration::from_millis(PAUSE_MILLIS);
        self.poll.poll(&mut self.events, Some(wait))?;
        self.stream.write(buf)
    }

    fn flush(&mut self) -> io::Result<()> {
        Ok(())
    }
}
