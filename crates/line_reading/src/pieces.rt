//! The bytes that one take gave.

ghost use Rattle.std.specs.Prelude.{◌≡◌, ◌<◌, ◌≤◌, [], length, take, drop};
ghost use Rattle.kak_ports.specs.Ports.{Takes, TakeIsCounted};
ghost use Rattle.client_links.specs.Wires.{Hears, HearingIsCounted, TellsNoMore};
ghost use Rattle.line_reading.specs.Pieces.{Fills};
ghost use Rattle.line_reading.specs.Hearing.{FillsFrom};

use client_links::{Heard, Link};
use kak_ports::{Source, Took};
use std::marker::Model;
use std::sync::Wait;

/// Bytes that were taken at once and not looked at yet, seen as their list.
#[derive(Drop)]
pub(crate) struct TakenPiece {
    bytes: [u8; 4096],
    from: usize,
    to: usize,
}

impl Model for TakenPiece {
    ghost use Rattle.std.specs.Prelude.{List, ℕ, ◌≤◌, slice_range};

    ghost Value = { List ℕ };

    ghost view = { λ p. slice_range p.bytes p.from p.to };

    ghost invariant = { λ p. (p.from ≤ p.to) × (p.to ≤ 4096) };
}

impl TakenPiece {
    /// No bytes.
    pub(crate) fn new() -> TakenPiece
        ensures { result ≡ [] }
    {
        TakenPiece {
            bytes: [0; 4096],
            from: 0,
            to: 0,
        }
    }

    /// The bytes as a slice.
    pub(crate) fn as_slice(&self) -> &[u8]
        ensures { result.now ≡ self.now }
    {
        &self.bytes[self.from..self.to]
    }

    /// Leaves out the first bytes.
    pub(crate) fn skip(&mut self, count: usize)
        requires { count ≤ length self.old }
        ensures { self.new ≡ drop count self.old }
    {
        self.from += count;
    }

    /// Takes the next bytes of a source in place of those here, at most so many.
    pub(crate) fn fill<I: Source>(&mut self, source: &mut I, room: usize) -> Took
        requires some { 0 < room }
        requires inside { room ≤ 4096 }
        ensures fills { Fills result (I.inlet source.old) (I.inlet source.new) room self.new }
        ensures counted { TakeIsCounted result (I.inlet source.old) (I.inlet source.new) }
        ensures most { (I.inlet source.new).most ≡ (I.inlet source.old).most }
    {
        self.from = 0;
        self.to = 0;
        match take_front(source, &mut self.bytes, room) {
            Took::Got(count) => {
                self.to = count;
                Took::Got(count)
            }
            Took::End => Took::End,
            Took::Failed => Took::Failed,
        }
    }

    /// Receives the next bytes of a link in place of those here, at most so many.
    pub(crate) fn hear<R: Wait, L: Link>(&mut self, rt: &R, link: &mut L, room: usize) -> Heard
        requires some { 0 < room }
        requires inside { room ≤ 4096 }
        ensures fills { FillsFrom result (L.wire link.old) (L.wire link.new) room self.new }
        ensures counted { HearingIsCounted result (L.wire link.old) (L.wire link.new) }
        ensures sent { (L.wire link.new).outlet ≡ (L.wire link.old).outlet }
        ensures told { TellsNoMore (L.wire link.old) (L.wire link.new) }
    {
        self.from = 0;
        self.to = 0;
        match hear_front(rt, link, &mut self.bytes, room) {
            Heard::Got(count) => {
                self.to = count;
                Heard::Got(count)
            }
            Heard::End => Heard::End,
            Heard::Idle => Heard::Idle,
            Heard::Failed => Heard::Failed,
        }
    }
}

// Takes the next bytes of a source into the front of a slice, at most so many.
fn take_front<I: Source>(source: &mut I, into: &mut [u8], room: usize) -> Took
    requires some { 0 < room }
    requires inside { room ≤ length into.old }
    ensures takes { Takes result (I.inlet source.old) (I.inlet source.new) (take room into.new) }
    ensures counted { TakeIsCounted result (I.inlet source.old) (I.inlet source.new) }
    ensures most { (I.inlet source.new).most ≡ (I.inlet source.old).most }
    ensures size { length into.new ≡ length into.old }
{
    source.take(&mut into[..room])
}

// Receives the next bytes of a link into the front of a slice, at most so many.
fn hear_front<R: Wait, L: Link>(rt: &R, link: &mut L, into: &mut [u8], room: usize) -> Heard
    requires some { 0 < room }
    requires inside { room ≤ length into.old }
    ensures hears { Hears result (L.wire link.old) (L.wire link.new) (take room into.new) }
    ensures counted { HearingIsCounted result (L.wire link.old) (L.wire link.new) }
    ensures sent { (L.wire link.new).outlet ≡ (L.wire link.old).outlet }
    ensures told { TellsNoMore (L.wire link.old) (L.wire link.new) }
    ensures size { length into.new ≡ length into.old }
{
    link.recv(rt, &mut into[..room])
}
