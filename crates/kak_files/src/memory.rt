//! Files in memory, with calls that are planned to fail.

ghost use Rattle.std.specs.Prelude.{◌≡◌, ◌+◌, ◌<◌, ◌≤◌, ◌++◌, ◌∷◌, [], length, map, vec_capacity, IfOk, OnErr, IfSome, IfNone, IsTrue};
ghost use Rattle.kak_ports.specs.Plans.{is_planned, after_call};
ghost use Rattle.kak_files.specs.Files.{content_of, Missing, Holds, one_more, Reads, IsWithin, ReadIsCounted, Writes, WriteIsCounted};
ghost use Rattle.kak_files.specs.Memory.{opening_row, written_row, is_piece_within};
ghost use Rattle.kak_files.specs.MemoryShelf.{opening_of, held_by, shelf_of, has_room, written_to, ReadIsPlanned};

use crate::files::{FileRead, Files};
use crate::kept::{MemFile, MemFiles, WritePiece};
use byte_texts::Octets;
use kak_ports::{FailingCalls, Put};
use std::alloc::{AllocError, Global};

// What a write takes of the room beside its name and its bytes.
const PIECE_BYTES: usize = 24;

// The name that was written.
fn piece_name(bytes: &[u8], piece: WritePiece) -> &[u8]
    requires { IsTrue (is_piece_within (length bytes.now) piece) }
    ensures { result.now ≡ (written_row bytes.now piece).name }
{
    &bytes[piece.at..][..piece.name]
}

// What was written under it.
fn piece_bytes(bytes: &[u8], piece: WritePiece) -> &[u8]
    requires { IsTrue (is_piece_within (length bytes.now) piece) }
    ensures { Holds result.now ≡ (written_row bytes.now piece).content }
{
    &bytes[piece.at + piece.name..][..piece.count]
}

impl MemFiles {
    /// Files that hold these at the beginning, each name once, with room for so many bytes, of which each write takes its
    /// name, its bytes and 24 more. The room is taken here. A write past it fails; so do the reads and writes that are
    /// planned to.
    pub fn new(
        alloc: Global,
        opening: Vec<MemFile>,
        room: usize,
        reads: FailingCalls,
        writes: FailingCalls,
    ) -> Result<MemFiles, AllocError>
        ensures opening { IfOk result (λ f. opening_of f ≡ map opening_row opening.items) }
        ensures held { IfOk result (λ f. held_by f ≡ map opening_row opening.items) }
        ensures faults { IfOk result (λ f. f.faults ≡ 0) }
        ensures nothing_written { IfOk result (λ f. f.bytes.items ≡ []) }
        ensures room { IfOk result (λ f. f.room ≡ room) }
        ensures reads { IfOk result (λ f. f.reads ≡ reads) }
        ensures writes { IfOk result (λ f. f.writes ≡ writes) }
    {
        Ok(MemFiles {
            opening,
            bytes: Vec::with_capacity(alloc, room)?,
            pieces: Vec::with_capacity(alloc, room / PIECE_BYTES)?,
            room,
            reads,
            writes,
            faults: 0,
        })
    }

    // What was last written under a name.
    fn written(&self, name: &str) -> Option<&[u8]>
        ensures some { IfSome result (λ b. content_of name.now (held_by self.now) ≡ Holds b.now) }
        ensures none { IfNone result (content_of name.now (held_by self.now) ≡ content_of name.now (opening_of self.now)) }
    {
        let bytes = self.bytes.as_slice();
        for piece in self.pieces.as_slice() {
            if piece_name(bytes, *piece) == name.as_bytes() {
                return Some(piece_bytes(bytes, *piece));
            }
        }
        None
    }

    // What the file of a name held at the beginning.
    fn opened(&self, name: &str) -> Option<&[u8]>
        ensures some { IfSome result (λ b. content_of name.now (opening_of self.now) ≡ Holds b.now) }
        ensures none { IfNone result (content_of name.now (opening_of self.now) ≡ Missing) }
    {
        for file in self.opening.as_slice() {
            if file.name.as_str() == name {
                return Some(file.bytes.as_slice());
            }
        }
        None
    }

    /// What the file of a name holds, where there is one.
    pub fn contents(&self, name: &str) -> Option<&[u8]>
        ensures some { IfSome result (λ b. content_of name.now (held_by self.now) ≡ Holds b.now) }
        ensures none { IfNone result (content_of name.now (held_by self.now) ≡ Missing) }
    {
        match self.written(name) {
            Some(bytes) => Some(bytes),
            None => self.opened(name),
        }
    }
}

// Adds a name and what it holds behind other bytes, for which there is room.
fn add_both(bytes: &mut Vec<u8>, name: &str, held: &[u8])
    requires { length bytes.old.items + length name.now + length held.now ≤ vec_capacity bytes.old }
    ensures added { bytes.new.items ≡ bytes.old.items ++ (name.now ++ held.now) }
    ensures capacity { vec_capacity bytes.old ≤ vec_capacity bytes.new }
{
    let _ = bytes.extend_from_slice(name.as_bytes());
    let _ = bytes.extend_from_slice(held);
}

// Puts a piece before all others, for which there is room.
fn add_piece(pieces: &mut Vec<WritePiece>, piece: WritePiece)
    requires { length pieces.old.items < vec_capacity pieces.old }
    ensures added { pieces.new.items ≡ piece ∷ pieces.old.items }
    ensures capacity { vec_capacity pieces.old ≤ vec_capacity pieces.new }
{
    let _ = pieces.insert(0, piece);
}

impl MemFiles {
    // Counts a fault.
    fn count_fault(&mut self)
        ensures { self.new ≡ record self.old { faults = one_more self.old.faults } }
    {
        self.faults = self.faults.saturating_add(1);
    }

    // Whether a write of a name and some bytes has room.
    fn has_room(&self, name: usize, count: usize) -> bool
        ensures { result ≡ has_room self.now name count }
    {
        let left = self.room - self.bytes.len() - PIECE_BYTES * self.pieces.len();
        name as u128 + count as u128 + PIECE_BYTES as u128 <= left as u128
    }

    // Puts a name and what it holds before all others, for which there is room.
    fn add(&mut self, name: &str, bytes: &[u8])
        requires { IsTrue (has_room self.old (length name.now) (length bytes.now)) }
        ensures added { held_by self.new ≡ record { name = name.now; content = Holds bytes.now } ∷ held_by self.old }
        ensures opening { self.new.opening ≡ self.old.opening }
        ensures room { self.new.room ≡ self.old.room }
        ensures reads { self.new.reads ≡ self.old.reads }
        ensures writes { self.new.writes ≡ self.old.writes }
        ensures faults { self.new.faults ≡ self.old.faults }
    {
        let piece = WritePiece {
            at: self.bytes.len(),
            name: name.len(),
            count: bytes.len(),
        };
        add_both(&mut self.bytes, name, bytes);
        add_piece(&mut self.pieces, piece);
    }
}

impl Files for MemFiles {
    ghost shelf = { shelf_of };

    /// What the file of a name holds. It fails where it is planned to.
    fn read(&mut self, alloc: Global, name: &str, max: usize) -> Result<FileRead, AllocError>
        ensures planned { IfOk result (λ answer. ReadIsPlanned answer (is_planned self.old.reads)) }
        ensures reads { IfOk result (λ answer. Reads answer name.now max (shelf_of self.old).told) }
        ensures within { IfOk result (λ answer. IsWithin max answer) }
        ensures keeps { (shelf_of self.new).told ≡ (shelf_of self.old).told }
        ensures counted { IfOk result (λ answer. ReadIsCounted answer (shelf_of self.old).faults (shelf_of self.new).faults) }
        ensures err { OnErr result (shelf_of self.new ≡ shelf_of self.old) }
        ensures plan { self.new.reads ≡ after_call self.old.reads }
        ensures writes { self.new.writes ≡ self.old.writes }
        ensures room { self.new.room ≡ self.old.room }
    {
        if self.reads.is_next() {
            self.count_fault();
            return Ok(FileRead::Failed);
        }
        let Some(bytes) = self.contents(name) else {
            return Ok(FileRead::NotThere);
        };
        if bytes.len() > max {
            return Ok(FileRead::TooBig);
        }
        let bytes = Vec::from_slice(alloc, bytes)?;
        Ok(FileRead::Bytes(Octets::of_vec(bytes)))
    }

    /// Makes the file of a name hold these bytes. It fails where it is planned to, or where there is no room.
    fn write(&mut self, name: &str, bytes: &[u8]) -> Put
        ensures answers { result ≡ written_to self.old (length name.now) (length bytes.now) }
        ensures writes { Writes result name.now bytes.now (shelf_of self.old).told (shelf_of self.new).told }
        ensures counted { WriteIsCounted result (shelf_of self.old).faults (shelf_of self.new).faults }
        ensures plan { self.new.writes ≡ after_call self.old.writes }
        ensures reads { self.new.reads ≡ self.old.reads }
        ensures room { self.new.room ≡ self.old.room }
    {
        if self.writes.is_next() || !self.has_room(name.len(), bytes.len()) {
            self.count_fault();
            return Put::Failed;
        }
        self.add(name, bytes);
        Put::Done
    }
}
