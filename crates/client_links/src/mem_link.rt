//! A link over memory.

ghost use Rattle.std.specs.Prelude.{◌≡◌, ◌+◌, ◌≤◌, ◌<◌, [], length, map, min, take, drop, IfOk, Some};
ghost use Rattle.std.specs.List.{flat_map};
ghost use Rattle.kak_ports.specs.Ports.{Puts, PutIsCounted};
ghost use Rattle.kak_ports.specs.Plans.{after_call};
ghost use Rattle.kak_ports.specs.Memory.{put_into, held_behind};
ghost use Rattle.client_links.specs.Wires.{Gets, Hears, HearingTakesPauses, HearingIsCounted, IsFresh, IsSameHearing, TellsNoMore};
ghost use Rattle.client_links.specs.Memory.{memory_wire, empty_among, heard_from};

use crate::kept::MemLink;
use crate::link::{Heard, Link};
use crate::planned::PlannedCalls;
use byte_texts::Octets;
use kak_ports::{FailingCalls, MemSink, Put, Sink};
use std::alloc::{AllocError, Global};
use std::collections::VecDeque;
use std::sync::Wait;

// Copies so many bytes from a place on.
fn copy_from(into: &mut [u8], bytes: &[u8], at: usize, count: usize)
    requires into_room { count ≤ length into.old }
    requires bytes_room { at + count ≤ length bytes.now }
    ensures { take count into.new ≡ take count (drop at bytes.now) }
{
    into[..count].copy_from_slice(&bytes[at..at + count]);
}

impl MemLink {
    /// A link whose client sends the pieces of a script, one after another; an empty one stands for a while in which
    /// nothing comes. There is room for so many bytes that are sent to the client: a `send` that doesn't fit fails, as
    /// one does that is planned to. A `recv` fails where it is planned to. An `Err` is want of memory.
    pub fn new(
        alloc: Global,
        script: &[&[u8]],
        room: usize,
        hearing: FailingCalls,
        sending: FailingCalls,
    ) -> Result<MemLink, AllocError>
        ensures fresh { IfOk result (λ link. IsFresh (memory_wire link)) }
        ensures received { IfOk result (λ link. (memory_wire link).received ≡ Some []) }
        ensures left { IfOk result (λ link. (memory_wire link).left ≡ Some (flat_map (λ piece. piece.now) script.now)) }
        ensures pieces { IfOk result (λ link. link.later.items ≡ map (λ piece. length piece.now) script.now) }
        ensures none_at_hand { IfOk result (λ link. link.piece ≡ 0) }
        ensures sent { IfOk result (λ link. link.sent.bytes.items ≡ []) }
        ensures room { IfOk result (λ link. link.sent.room ≡ room) }
        ensures hearing { IfOk result (λ link. link.hearing.plan ≡ hearing) }
        ensures sending { IfOk result (λ link. link.sent.plan ≡ sending) }
    {
        let mut bytes = Vec::new(alloc);
        let mut sizes = Vec::with_capacity(alloc, script.len())?;
        for piece in script {
            bytes.extend_from_slice(*piece)?;
            sizes.push(piece.len())?;
        }
        Ok(MemLink {
            bytes: Octets::of_vec(bytes),
            at: 0,
            piece: 0,
            later: VecDeque::from_vec(sizes),
            hearing: PlannedCalls::new(hearing),
            sent: MemSink::new(alloc, room, sending)?,
        })
    }

    /// The bytes that were received.
    pub fn received(&self) -> &[u8]
        ensures { (memory_wire self.now).received ≡ Some result.now }
    {
        &self.bytes.as_slice()[..self.at]
    }

    /// The bytes that were sent.
    pub fn contents(&self) -> &[u8]
        ensures { (memory_wire self.now).outlet.told ≡ Some result.now }
    {
        self.sent.contents()
    }

    // Gives the next bytes of the piece at hand.
    fn give(&mut self, into: &mut [u8]) -> Heard
        requires some { 0 < self.old.piece }
        requires room { 0 < length into.old }
        ensures answer { result ≡ Heard.Got (min self.old.piece (length into.old)) }
        ensures gets { Gets (min self.old.piece (length into.old)) (memory_wire self.old) (memory_wire self.new) into.new }
        ensures later { self.new.later ≡ self.old.later }
        ensures hearing { self.new.hearing ≡ self.old.hearing }
        ensures sent { self.new.sent ≡ self.old.sent }
    {
        let count = self.piece.min(into.len());
        copy_from(into, self.bytes.as_slice(), self.at, count);
        self.at += count;
        self.piece -= count;
        Heard::Got(count)
    }
}

impl Link for MemLink {
    type Spent = MemLink;

    ghost wire = { memory_wire };

    ghost spent = { memory_wire };

    /// Takes the next bytes of the piece at hand, or of the next one.
    fn recv<R: Wait>(&mut self, _rt: &R, into: &mut [u8]) -> Heard
        requires { 0 < length into.old }
        ensures answers { result ≡ heard_from self.old (length into.old) }
        ensures hears { Hears result (memory_wire self.old) (memory_wire self.new) into.new }
        ensures pauses { HearingTakesPauses result (memory_wire self.old).pauses (memory_wire self.new).pauses }
        ensures counted { HearingIsCounted result (memory_wire self.old) (memory_wire self.new) }
        ensures sent { (memory_wire self.new).outlet ≡ (memory_wire self.old).outlet }
        ensures told { TellsNoMore (memory_wire self.old) (memory_wire self.new) }
        ensures plan { self.new.hearing.plan ≡ after_call self.old.hearing.plan }
        ensures sink { self.new.sent ≡ self.old.sent }
    {
        if self.hearing.is_next_failing() {
            return Heard::Failed;
        }
        if self.piece > 0 {
            return self.give(into);
        }
        match self.later.pop_front() {
            None => Heard::End,
            Some(0) => Heard::Idle,
            Some(size) => {
                self.piece = size;
                self.give(into)
            }
        }
    }

    /// Keeps the bytes that are sent.
    fn send<R: Wait>(&mut self, _rt: &R, bytes: &[u8]) -> Put
        ensures answers { result ≡ put_into self.old.sent bytes.now }
        ensures puts { Puts result (memory_wire self.old).outlet (memory_wire self.new).outlet bytes.now }
        ensures counted { PutIsCounted result (memory_wire self.old).outlet (memory_wire self.new).outlet }
        ensures held { self.new.sent.bytes.items ≡ held_behind self.old.sent bytes.now }
        ensures heard { IsSameHearing (memory_wire self.old) (memory_wire self.new) }
        ensures pauses { (memory_wire self.new).pauses ≡ (memory_wire self.old).pauses }
        ensures told { TellsNoMore (memory_wire self.old) (memory_wire self.new) }
        ensures plan { self.new.sent.plan ≡ after_call self.old.sent.plan }
        ensures hearing { self.new.hearing ≡ self.old.hearing }
    {
        self.sent.put(bytes)
    }

    fn finish(self) -> MemLink
        ensures { result ≡ self }
    {
        self
    }
}
