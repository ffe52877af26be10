//! Buffers that are opened, each under the least number that no other has.

ghost use Rattle.std.specs.Prelude.{◌≡◌, ◌≤◌, [], true, IfOk, OnOk, OnErr, Err, length};
ghost use Rattle.kak_world.specs.Keeping.{KeepsClients};
ghost use Rattle.list_shelf.specs.declared.holder.Holder.{Holder};
ghost use Rattle.kak_world.specs.Seen.{all_seen, AllKeepUp, AllLeave};
ghost use Rattle.kak_world.specs.Showing.{first_gap, buffer_placed, buffer_opened, buffer_count, has_all_buffers};
ghost use Rattle.kak_world.specs.declared.slots.TheConstants.{MAX_BUFFERS};
ghost use Rattle.kak_world.specs.declared.slots.WorldError.TheVariants.{TooManyBuffers, NoMemory};

use crate::buffer::WorldBuffer;
use crate::command_error::TOO_MANY_BUFFERS;
use crate::turn::Turn;
use crate::world::World;
use kak_text::Chars;
use line_buffer::Lines;
use regex_ports::Pattern;
use std::alloc::{AllocError, Global};
use thiserror::Error;

/// The most buffers that there can be at once.
pub const MAX_BUFFERS: usize = 1024;

/// Why a buffer can't be opened.
#[derive(Drop, Debug, Error)]
pub enum WorldError {
    /// There are as many buffers as there can be.
    #[error("{text}", text = TOO_MANY_BUFFERS)]
    TooManyBuffers,
    /// Memory ran out.
    #[error("out of memory")]
    NoMemory,
}

impl From<AllocError> for WorldError {
    ghost from_gives = { λ _ e. e ≡ NoMemory };

    fn from(_e: AllocError) -> WorldError {
        WorldError::NoMemory
    }
}

// The least number that no buffer has.
fn first_gap(buffers: &[Option<WorldBuffer>]) -> usize
    ensures { result ≡ first_gap (all_seen buffers.now) }
{
    for (i, buffer) in buffers.iter().enumerate() {
        if buffer.is_none() {
            return i;
        }
    }
    buffers.len()
}

// Puts a buffer, with nobody's list on it, at the least number that no other has.
fn put_buffer(
    buffers: &mut Vec<Option<WorldBuffer>>,
    at: usize,
    buffer: WorldBuffer,
) -> Result<(), AllocError>
    requires gap { at ≡ first_gap (all_seen buffers.old.items) }
    requires bare { buffer.shelf.rows ≡ [] }
    requires fresh { buffer.since.is_new ≡ true }
    ensures ok { OnOk result (all_seen buffers.new.items ≡ buffer_placed buffer.seen (all_seen buffers.old.items)) }
    ensures up { OnOk result (AllKeepUp buffers.old.items buffers.new.items) }
    ensures leaves { OnOk result ((other : Holder) → AllLeave other buffers.old.items buffers.new.items) }
    ensures err { OnErr result (buffers.new.items ≡ buffers.old.items) }
{
    if at < buffers.len() {
        buffers[at] = Some(buffer);
        return Ok(());
    }
    buffers.push(Some(buffer))?;
    Ok(())
}

impl<P: Pattern, T: Turn> World<P, T> {
    /// Whether there are as many buffers as there can be.
    pub fn has_all_buffers(&self) -> bool
        ensures { result ≡ has_all_buffers self.now.flat }
    {
        first_gap(self.buffers.as_slice()) >= MAX_BUFFERS
    }

    /// Opens a buffer, with nobody's list on it, under the least number that no other has, and tells the number. It is
    /// refused exactly where there are as many buffers as there can be. An `Err` leaves the world.
    pub fn open(
        &mut self,
        alloc: Global,
        name: Chars,
        is_file: bool,
        lines: Lines,
    ) -> Result<u32, WorldError>
        ensures number { IfOk result (λ n. n ≡ first_gap self.old.flat.buffers) }
        ensures ok { OnOk result (self.new.flat ≡ buffer_opened name is_file lines self.old.flat) }
        ensures keeps { OnOk result (KeepsClients self.old.flat self.new.flat) }
        ensures full { buffer_count self.old.flat.buffers ≡ MAX_BUFFERS → result ≡ Err TooManyBuffers }
        ensures refused { result ≡ Err TooManyBuffers → buffer_count self.old.flat.buffers ≡ MAX_BUFFERS }
        ensures err { OnErr result (self.new.flat ≡ self.old.flat) }
    {
        let n = first_gap(self.buffers.as_slice());
        if n >= MAX_BUFFERS {
            return Err(WorldError::TooManyBuffers);
        }
        self.may_pend = true;
        self.may_differ = true;
        let buffer = WorldBuffer::new(alloc, name, is_file, lines)?;
        put_buffer(&mut self.buffers, n, buffer)?;
        Ok(n as u32)
    }
}
