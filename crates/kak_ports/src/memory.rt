//! Ports over memory, with calls that are planned to fail.

ghost use Rattle.std.specs.Prelude.{◌≡◌, ◌+◌, ◌<◌, ◌≤◌, [], ◌++◌, length, take, drop, IfOk};
ghost use Rattle.kak_ports.specs.Ports.{Takes, TakeIsCounted, Puts, PutIsCounted};
ghost use Rattle.kak_ports.specs.Plans.{is_planned, after_call, faults_after};
ghost use Rattle.kak_ports.specs.Memory.{memory_inlet, taken_from, memory_outlet, put_into, fails_at, held_behind};

use crate::kept::{MemSink, MemSource};
use crate::sink::{Put, Sink};
use crate::source::{Source, Took};
use byte_texts::Octets;
use std::alloc::{AllocError, Global};

/// Which calls of a port are to fail: the first call has the number 0.
#[derive(Drop, Debug)]
pub struct FailingCalls {
    made: u64,
    failing: Vec<u64>,
}

impl FailingCalls {
    /// No call fails.
    pub fn none(alloc: Global) -> FailingCalls
        ensures made { result.made ≡ 0 }
        ensures failing { result.failing.items ≡ [] }
    {
        FailingCalls {
            made: 0,
            failing: Vec::new(alloc),
        }
    }

    /// The calls with these numbers fail.
    pub fn at(failing: Vec<u64>) -> FailingCalls
        ensures made { result.made ≡ 0 }
        ensures failing { result.failing ≡ failing }
    {
        FailingCalls { made: 0, failing }
    }

    /// Counts a call, and tells whether it is to fail.
    pub fn is_next(&mut self) -> bool
        ensures planned { result ≡ is_planned self.old }
        ensures counted { self.new ≡ after_call self.old }
    {
        let number = self.made;
        self.made = number.saturating_add(1);
        self.failing.as_slice().contains(&number)
    }
}

impl MemSource {
    /// A source that gives these bytes, at most `piece` of them at once. A take fails where it is planned to.
    pub fn new(bytes: Vec<u8>, piece: usize, plan: FailingCalls) -> MemSource
        requires { 0 < piece }
        ensures left { drop result.at result.bytes ≡ bytes.items }
        ensures piece { result.piece ≡ piece }
        ensures plan { result.plan ≡ plan }
        ensures faults { result.faults ≡ 0 }
    {
        MemSource {
            bytes: Octets::of_vec(bytes),
            at: 0,
            piece,
            plan,
            faults: 0,
        }
    }
}

// Copies the first `count` bytes.
fn copy_front(into: &mut [u8], from: &[u8], count: usize)
    requires into_room { count ≤ length into.old }
    requires from_room { count ≤ length from.now }
    ensures { take count into.new ≡ take count from.now }
{
    into[..count].copy_from_slice(&from[..count]);
}

impl Source for MemSource {
    ghost inlet = { memory_inlet };

    /// Takes the next bytes. It fails where it is planned to, and only there.
    fn take(&mut self, into: &mut [u8]) -> Took
        requires { 0 < length into.old }
        ensures answers { result ≡ taken_from self.old (length into.old) }
        ensures takes { Takes result (memory_inlet self.old) (memory_inlet self.new) into.new }
        ensures counted { TakeIsCounted result (memory_inlet self.old) (memory_inlet self.new) }
        ensures faults { self.new.faults ≡ faults_after (is_planned self.old.plan) self.old.faults }
        ensures most { self.new.piece ≡ self.old.piece }
        ensures plan { self.new.plan ≡ after_call self.old.plan }
    {
        if self.plan.is_next() {
            self.faults = self.faults.saturating_add(1);
            return Took::Failed;
        }
        let rest = &self.bytes.as_slice()[self.at..];
        if rest.is_empty() {
            return Took::End;
        }
        let count = rest.len().min(into.len()).min(self.piece);
        copy_front(into, rest, count);
        self.at += count;
        Took::Got(count)
    }
}

impl MemSink {
    /// A sink with room for so many bytes. A put that doesn't fit fails, as one does that is planned to; a front of it
    /// is then added: its first half, as far as there is room.
    pub fn new(alloc: Global, room: usize, plan: FailingCalls) -> Result<MemSink, AllocError>
        ensures told { IfOk result (λ s. s.bytes.items ≡ []) }
        ensures room { IfOk result (λ s. s.room ≡ room) }
        ensures plan { IfOk result (λ s. s.plan ≡ plan) }
        ensures faults { IfOk result (λ s. s.faults ≡ 0) }
    {
        Ok(MemSink {
            bytes: Vec::with_capacity(alloc, room)?,
            room,
            plan,
            faults: 0,
        })
    }

    /// The bytes that were put.
    pub fn contents(&self) -> &[u8]
        ensures { result.now ≡ self.now.bytes.items }
    {
        self.bytes.as_slice()
    }

    // Adds bytes, for which there is room.
    fn add(&mut self, bytes: &[u8])
        requires { length self.old.bytes.items + length bytes.now ≤ self.old.room }
        ensures added { self.new.bytes.items ≡ self.old.bytes.items ++ bytes.now }
        ensures room { self.new.room ≡ self.old.room }
        ensures plan { self.new.plan ≡ self.old.plan }
        ensures faults { self.new.faults ≡ self.old.faults }
    {
        let _ = self.bytes.extend_from_slice(bytes);
    }
}

impl Sink for MemSink {
    ghost outlet = { memory_outlet };

    /// Adds bytes at the end. It fails where they don't fit or where it is planned to, and only there.
    fn put(&mut self, bytes: &[u8]) -> Put
        ensures answers { result ≡ put_into self.old bytes.now }
        ensures puts { Puts result (memory_outlet self.old) (memory_outlet self.new) bytes.now }
        ensures counted { PutIsCounted result (memory_outlet self.old) (memory_outlet self.new) }
        ensures faults { self.new.faults ≡ faults_after (fails_at self.old (length bytes.now)) self.old.faults }
        ensures held { self.new.bytes.items ≡ held_behind self.old bytes.now }
        ensures room { self.new.room ≡ self.old.room }
        ensures plan { self.new.plan ≡ after_call self.old.plan }
    {
        let room = self.room.saturating_sub(self.bytes.len());
        let fits = bytes.len() <= room;
        if self.plan.is_next() || !fits {
            self.faults = self.faults.saturating_add(1);
            self.add(&bytes[..room.min(bytes.len() / 2)]);
            return Put::Failed;
        }
        self.add(bytes);
        Put::Done
    }
}
