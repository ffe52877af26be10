//! What files are asked, and what they answer.

ghost use Rattle.std.specs.Prelude.{◌≡◌, IfOk, OnErr};
ghost use Rattle.kak_files.specs.Files.{Shelf, Reads, IsWithin, ReadIsCounted, Writes, WriteIsCounted};

use byte_texts::Octets;
use kak_ports::Put;
use std::alloc::{AllocError, Global};

/// The most bytes that are asked of a file: those of the longest text in UTF-8, with a mark of the byte order before it.
pub const MAX_FILE: usize = 67_108_867;

/// What a `read` answers.
#[derive(Drop, Debug)]
pub enum FileRead {
    /// All that the file holds.
    Bytes(Octets),
    /// There is no file of that name.
    NotThere,
    /// The file holds more bytes than were asked for.
    TooBig,
    /// The read failed, and the count of faults rose by one.
    Failed,
}

/// Files, each of which has a name.
pub trait Files {
    // What they held when they were made and what they hold, where that is told, and how often a call failed.
    ghost shelf: { Self → Shelf };

    /// What the file of a name holds, where that is at most `max` bytes. An `Err` leaves the files and their count.
    fn read(&mut self, alloc: Global, name: &str, max: usize) -> Result<FileRead, AllocError>
        ensures reads { IfOk result (λ answer. Reads answer name.now max (shelf self.old).told) }
        ensures within { IfOk result (λ answer. IsWithin max answer) }
        ensures keeps { (shelf self.new).told ≡ (shelf self.old).told }
        ensures counted { IfOk result (λ answer. ReadIsCounted answer (shelf self.old).faults (shelf self.new).faults) }
        ensures err { OnErr result (shelf self.new ≡ shelf self.old) };

    /// Makes the file of a name hold these bytes and no others; where there is none, it is made. `Done` says that it
    /// holds them. After `Failed` the count of faults rose by one, and nothing is known of what the file holds, unless the
    /// files tell that a failed write leaves it as it was. Files of other names keep what they hold.
    fn write(&mut self, name: &str, bytes: &[u8]) -> Put
        ensures writes { Writes result name.now bytes.now (shelf self.old).told (shelf self.new).told }
        ensures counted { WriteIsCounted result (shelf self.old).faults (shelf self.new).faults };
}
