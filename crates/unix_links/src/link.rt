//! A link over a reader and a writer, which over a Unix socket are its two directions.

ghost use Rattle.std.specs.Prelude.{◌≡◌, ◌≤◌, length, drop, IfOk};
ghost use Rattle.kak_ports.specs.Ports.{Puts};
ghost use Rattle.client_links.specs.Wires.{IsFresh};
ghost use Rattle.unix_links.specs.Streams.{told_since, StaysTold, faultless_outlet, stream_wire};

use crate::bell::Bell;
use crate::pausing::{PausingRead, is_pause};
use crate::socket::{SocketReader, SocketWriter};
use client_links::{Heard, Link};
use kak_ports::Put;
use mio::net::UnixStream;
use std::alloc::Global;
use std::io;
use std::io::{Read, Write};
use std::net::Net;
use std::os::unix::net;
use std::snapshot::Snapshot;
use std::sync::Wait;

/// How often a `send` waits at most for the other side to read before it fails. Over a socket each wait is one of
/// `PAUSE_MILLIS`.
pub const MOST_PAUSES: u32 = 100;

/// What is left of a link that was closed: how often it failed. Each count stands still at its end. Contracts also see
/// what its streams told.
#[derive(Drop)]
pub struct ClosedLink<R, W> {
    first_reader: Snapshot<R>,
    first_writer: Snapshot<W>,
    reader: Snapshot<R>,
    writer: Snapshot<W>,
    read_faults: u64,
    send_faults: u64,
}

/// A connection: what the reader gives is received, and what is sent is written by the writer. It tells what they tell,
/// which for the directions of a socket is nothing. They are dropped, and so closed, where the link is. It is a link where
/// the reader makes its caller wait only before its end (`PausingRead`).
#[derive(Drop)]
pub struct StreamLink<R: Read, W: Write> {
    reader: R,
    writer: W,
    first_reader: Snapshot<R>,
    first_writer: Snapshot<W>,
    read_faults: u64,
    send_faults: u64,
    ghost left: { StaysTold (R.remaining first_reader.value) (R.remaining reader) },
    ghost sent: { StaysTold (W.contents first_writer.value) (W.contents writer) },
}

/// A connection over a Unix socket.
pub type UnixLink = StreamLink<SocketReader, SocketWriter>;

// The bytes behind the first `count`.
fn all_after(bytes: &[u8], count: usize) -> &[u8]
    requires { count ≤ length bytes.now }
    ensures { result.now ≡ drop count bytes.now }
{
    &bytes[count..]
}

// Writes all bytes. It gives up after an error, and after many pauses.
fn write_all<W: Write>(writer: &mut W, bytes: &[u8]) -> Put
    ensures { Puts result (faultless_outlet (W.contents writer.old)) (faultless_outlet (W.contents writer.new)) bytes.now }
{
    let mut rest = bytes;
    let mut pauses = 0;
    while !rest.is_empty() {
        match writer.write(rest) {
            Ok(0) => return Put::Failed,
            Ok(count) => rest = all_after(rest, count),
            Err(error) if is_pause(&error) && pauses < MOST_PAUSES => pauses += 1,
            Err(_) => return Put::Failed,
        }
    }
    Put::Done
}

impl<R: PausingRead + Drop, W: Write + Drop> StreamLink<R, W> {
    /// A link over a reader and a writer, which has not failed yet.
    pub fn new(reader: R, writer: W) -> StreamLink<R, W>
        ensures left { (⟦<StreamLink<R, W> as Link>⟧.wire result).left ≡ R.remaining reader }
        ensures sent { (⟦<StreamLink<R, W> as Link>⟧.wire result).outlet.told ≡ W.contents writer }
        ensures read_faults { result.read_faults ≡ 0 }
        ensures send_faults { result.send_faults ≡ 0 }
    {
        StreamLink {
            first_reader: Snapshot::of(&reader),
            first_writer: Snapshot::of(&writer),
            reader,
            writer,
            read_faults: 0,
            send_faults: 0,
        }
    }
}

impl<R: PausingRead + Drop, W: Write + Drop> Link for StreamLink<R, W> {
    type Spent = ClosedLink<R, W>;

    ghost wire = { λ link. stream_wire (told_since (R.remaining link.first_reader.value) (R.remaining link.reader)) (told_since (W.contents link.first_writer.value) (W.contents link.writer)) link.read_faults link.send_faults };

    ghost spent = { λ closed. stream_wire (told_since (R.remaining closed.first_reader.value) (R.remaining closed.reader.value)) (told_since (W.contents closed.first_writer.value) (W.contents closed.writer.value)) closed.read_faults closed.send_faults };

    fn recv<H: Wait>(&mut self, _rt: &H, into: &mut [u8]) -> Heard {
        match self.reader.read_or_pause(into) {
            Ok(0) => Heard::End,
            Ok(count) => Heard::Got(count),
            Err(error) if is_pause(&error) => Heard::Idle,
            Err(_) => {
                self.read_faults = self.read_faults.saturating_add(1);
                Heard::Failed
            }
        }
    }

    fn send<H: Wait>(&mut self, _rt: &H, bytes: &[u8]) -> Put {
        let put = write_all(&mut self.writer, bytes);
        if let Put::Failed = put {
            self.send_faults = self.send_faults.saturating_add(1);
        }
        put
    }

    fn finish(self) -> ClosedLink<R, W> {
        let StreamLink {
            reader,
            writer,
            first_reader,
            first_writer,
            read_faults,
            send_faults,
        } = self;
        ClosedLink {
            first_reader,
            first_writer,
            reader: Snapshot::of(&reader),
            writer: Snapshot::of(&writer),
            read_faults,
            send_faults,
        }
    }
}

/// A link over a stream that was just accepted, which the bell wakes where it waits. An `Err` is of the system, and closes
/// the stream.
pub(crate) fn over_socket<H: Net>(
    net: &H,
    alloc: Global,
    stream: net::UnixStream,
    bell: &Bell,
) -> io::Result<UnixLink>
    ensures { IfOk result (λ link. IsFresh (⟦<UnixLink as Link>⟧.wire link)) }
{
    stream.set_nonblocking(true)?;
    let other = UnixStream::from_std(stream.try_clone()?);
    let writer = SocketWriter::new(net, alloc, other)?;
    let reader = SocketReader::new(net, alloc, UnixStream::from_std(stream), bell.clone()?)?;
    Ok(StreamLink::new(reader, writer))
}
