//! What files in memory keep.

ghost use Rattle.std.specs.Prelude.{◌≡◌, ◌+◌, ◌<◌, ◌≤◌, length, IsTrue, string_bytes, vec_capacity};
ghost use Rattle.kak_files.specs.Memory.{are_within, room_taken};

use byte_texts::{Octets, Utf8Text};
use kak_ports::FailingCalls;

/// A file of files in memory.
#[derive(Drop, Debug)]
pub struct MemFile {
    pub(crate) name: Utf8Text,
    pub(crate) bytes: Octets,
}

impl MemFile {
    /// A file of that name which holds these bytes; both are taken over.
    pub fn new(name: String, bytes: Vec<u8>) -> MemFile
        ensures { result ≡ record { name = string_bytes name; bytes = bytes.items } }
    {
        MemFile {
            name: Utf8Text::of_string(name),
            bytes: Octets::of_vec(bytes),
        }
    }
}

// A write: where its name begins among all bytes that were written, how long that is, and how many bytes follow it.
#[derive(Clone, Copy, Debug)]
pub(crate) struct WritePiece {
    pub(crate) at: usize,
    pub(crate) name: usize,
    pub(crate) count: usize,
}

/// Files in memory, which tell all that they hold. A write that fails leaves the file as it was.
#[derive(Drop)]
pub struct MemFiles {
    pub(crate) opening: Vec<MemFile>,
    pub(crate) bytes: Vec<u8>,
    pub(crate) pieces: Vec<WritePiece>,
    pub(crate) room: usize,
    pub(crate) reads: FailingCalls,
    pub(crate) writes: FailingCalls,
    pub(crate) faults: u64,
    ghost within: { IsTrue (are_within (length bytes.items) pieces.items) },
    ghost fits: { room_taken (length bytes.items) (length pieces.items) ≤ room },
    ghost bytes_room: { room ≤ vec_capacity bytes },
    ghost pieces_room: { room < room_taken 0 (vec_capacity pieces + 1) },
}
