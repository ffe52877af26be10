//! Ports over std's readers and writers: the edge of what is proved.

ghost use Rattle.std.specs.Prelude.{◌≡◌, ◌≤◌, ◌^◌, length, drop, true};
ghost use Rattle.kak_ports.specs.Plans.{faults_after};

use crate::sink::{Put, Sink};
use crate::source::{Source, Took};
use std::io::{Read, Write};

/// A source over a reader. It tells what the reader tells, which for a file, a pipe or a terminal is nothing.
#[derive(Drop)]
pub struct ReadSource<R> {
    reader: R,
    faults: u64,
}

impl<R: Read> ReadSource<R> {
    /// A source that has not failed yet.
    pub fn new(reader: R) -> ReadSource<R>
        ensures reader { result.reader ≡ reader }
        ensures faults { result.faults ≡ 0 }
    {
        ReadSource { reader, faults: 0 }
    }

    // Counts a fault.
    fn fail(&mut self) -> Took
        ensures failed { result ≡ Took.Failed }
        ensures reader { self.new.reader ≡ self.old.reader }
        ensures counted { self.new.faults ≡ faults_after true self.old.faults }
    {
        self.faults = self.faults.saturating_add(1);
        Took::Failed
    }
}

impl<R: Read> Source for ReadSource<R> {
    ghost inlet = { λ s. record { left = R.remaining s.reader; most = 2 ^ 64; faults = s.faults } };

    fn take(&mut self, into: &mut [u8]) -> Took {
        match self.reader.read(into) {
            Ok(0) => Took::End,
            Ok(count) => Took::Got(count),
            Err(_) => self.fail(),
        }
    }
}

// The bytes behind the first `count`.
fn all_after(bytes: &[u8], count: usize) -> &[u8]
    requires { count ≤ length bytes.now }
    ensures { result.now ≡ drop count bytes.now }
{
    &bytes[count..]
}

/// A sink over a writer. It tells what the writer tells, which for a file, a pipe or a terminal is nothing.
#[derive(Drop)]
pub struct WriteSink<W> {
    writer: W,
    faults: u64,
}

impl<W: Write> WriteSink<W> {
    /// A sink that has not failed yet.
    pub fn new(writer: W) -> WriteSink<W>
        ensures writer { result.writer ≡ writer }
        ensures faults { result.faults ≡ 0 }
    {
        WriteSink { writer, faults: 0 }
    }

    // Counts a fault.
    fn fail(&mut self) -> Put
        ensures failed { result ≡ Put.Failed }
        ensures writer { self.new.writer ≡ self.old.writer }
        ensures counted { self.new.faults ≡ faults_after true self.old.faults }
    {
        self.faults = self.faults.saturating_add(1);
        Put::Failed
    }
}

impl<W: Write> Sink for WriteSink<W> {
    ghost outlet = { λ s. record { told = W.contents s.writer; faults = s.faults } };

    fn put(&mut self, bytes: &[u8]) -> Put {
        let mut rest = bytes;
        while !rest.is_empty() {
            match self.writer.write(rest) {
                Ok(0) => return self.fail(),
                Ok(count) => rest = all_after(rest, count),
                Err(_) => return self.fail(),
            }
        }
        match self.writer.flush() {
            Ok(()) => Put::Done,
            Err(_) => self.fail(),
        }
    }
}
