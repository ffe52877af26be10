//! What ports over memory keep.

ghost use Rattle.std.specs.Prelude.{◌<◌, ◌≤◌, length, vec_capacity};

use crate::memory::FailingCalls;
use byte_texts::Octets;

/// A source over bytes in memory, which gives them in pieces.
#[derive(Drop, Debug)]
pub struct MemSource {
    pub(crate) bytes: Octets,
    pub(crate) at: usize,
    pub(crate) piece: usize,
    pub(crate) plan: FailingCalls,
    pub(crate) faults: u64,
    ghost within: { at ≤ length bytes },
    ghost gives: { 0 < piece },
}

/// A sink into memory, with room for a number of bytes that is taken when it is made.
#[derive(Drop, Debug)]
pub struct MemSink {
    pub(crate) bytes: Vec<u8>,
    pub(crate) room: usize,
    pub(crate) plan: FailingCalls,
    pub(crate) faults: u64,
    ghost fits: { (length bytes.items ≤ room) × (room ≤ vec_capacity bytes) },
}
