//! Buffers that are dropped, with all lists on them.

ghost use Rattle.std.specs.Prelude.{◌≡◌, ◌≤◌, true, not, is_some, length, option_map, IfOk, OnOk, OnErr};
ghost use Rattle.std.specs.List.{list_any};
ghost use Rattle.kak_world.specs.Flat.{is_there, lowest, scratch};
ghost use Rattle.list_shelf.specs.declared.holder.Holder.{Holder};
ghost use Rattle.kak_world.specs.Seen.{slot_seen, all_seen, SlotLeaves, AllLeave};
ghost use Rattle.kak_world.specs.Dropping.{emptied, left_without, listed_for_viewers, buffers_dropped, dropped, KeepsJoined};

use crate::buffer::WorldBuffer;
use crate::clients::Client;
use crate::turn::Turn;
use crate::turning::bring_turn_up;
use crate::world::{World, scratch_buffer};
use regex_ports::Pattern;
use std::alloc::{AllocError, Global};

// The least number of a buffer that isn't that of a number, or how many numbers there are where none is another's.
fn lowest_other(buffers: &[Option<WorldBuffer>], n: usize) -> usize
    ensures { result ≡ lowest (emptied n (all_seen buffers.now)) }
{
    for (i, buffer) in buffers.iter().enumerate() {
        if i == n {
            continue;
        }
        if buffer.is_some() {
            return i;
        }
    }
    buffers.len()
}

// Gives each client that sees the buffer of a number a list on the one in a slot, where there is one.
fn list_viewers_in(
    slot: &mut Option<WorldBuffer>,
    alloc: Global,
    n: u32,
    clients: &[Client],
) -> Result<(), AllocError>
    ensures ok { OnOk result (slot_seen slot.new ≡ option_map (listed_for_viewers n clients.now) (slot_seen slot.old)) }
    ensures leaves { OnOk result ((other : Holder) → SlotLeaves other slot.old slot.new) }
    ensures err { OnErr result (slot.new ≡ slot.old) }
{
    match slot {
        None => Ok(()),
        Some(buffer) => buffer.list_viewers(alloc, n, clients),
    }
}

// The buffer that is there when nothing else is, with a list for each client that sees the buffer of a number.
fn scratch_for_viewers(alloc: Global, n: u32, clients: &[Client]) -> Result<WorldBuffer, AllocError>
    ensures seen { IfOk result (λ b. b.seen ≡ listed_for_viewers n clients.now scratch) }
    ensures fresh { IfOk result (λ b. b.since.is_new ≡ true) }
{
    let mut buffer = scratch_buffer(alloc)?;
    buffer.list_viewers(alloc, n, clients)?;
    Ok(buffer)
}

// Drops the last buffer: a new one is made for those that saw it. An `Err` leaves the buffers.
fn drop_last(
    buffers: &mut Vec<Option<WorldBuffer>>,
    alloc: Global,
    n: u32,
    clients: &[Client],
) -> Result<(), AllocError>
    requires there { is_there n (all_seen buffers.old.items) ≡ true }
    requires last { length buffers.old.items ≤ lowest (emptied n (all_seen buffers.old.items)) }
    ensures ok { OnOk result (all_seen buffers.new.items ≡ buffers_dropped n clients.now (all_seen buffers.old.items)) }
    ensures leaves { OnOk result ((other : Holder) → AllLeave other buffers.old.items buffers.new.items) }
    ensures err { OnErr result (buffers.new.items ≡ buffers.old.items) }
{
    let buffer = scratch_for_viewers(alloc, n, clients)?;
    buffers[n as usize] = None;
    buffers[0] = Some(buffer);
    Ok(())
}

// Drops the buffer of a number, and tells the least number then: that of the buffer on which those that saw it have
// lists. An `Err` leaves the buffers.
fn drop_at(
    buffers: &mut Vec<Option<WorldBuffer>>,
    alloc: Global,
    n: u32,
    clients: &[Client],
) -> Result<u32, AllocError>
    requires there { is_there n (all_seen buffers.old.items) ≡ true }
    requires few { length buffers.old.items ≤ 1024 }
    ensures ok { OnOk result (all_seen buffers.new.items ≡ buffers_dropped n clients.now (all_seen buffers.old.items)) }
    ensures leaves { OnOk result ((other : Holder) → AllLeave other buffers.old.items buffers.new.items) }
    ensures number { IfOk result (λ to. to ≡ lowest (left_without n (all_seen buffers.old.items))) }
    ensures err { OnErr result (buffers.new.items ≡ buffers.old.items) }
{
    let to = lowest_other(buffers.as_slice(), n as usize);
    if to >= buffers.len() {
        drop_last(buffers, alloc, n, clients)?;
        return Ok(0);
    }
    list_viewers_in(&mut buffers[to], alloc, n, clients)?;
    buffers[n as usize] = None;
    Ok(to as u32)
}

impl<P: Pattern, T: Turn> World<P, T> {
    /// Whether the buffer of a number is the only one.
    pub fn is_only(&self, n: u32) -> bool
        ensures { result ≡ not (list_any is_some (emptied n self.now.flat.buffers)) }
    {
        lowest_other(self.buffers.as_slice(), n as usize) >= self.buffers.len()
    }

    /// Drops a buffer, with all lists on it and what is kept of it and of the windows on it: clients that saw it see the buffer
    /// with the least number then, with the list that they have there or the one to begin with. Where no buffer is left, a new
    /// `*scratch*` is made, which takes the number 0. An `Err` leaves the world.
    pub fn drop_buffer(&mut self, alloc: Global, n: u32) -> Result<(), AllocError>
        requires { is_there n self.old.flat.buffers ≡ true }
        ensures ok { OnOk result (self.new.flat ≡ dropped n self.old.flat) }
        ensures keeps { OnOk result (KeepsJoined self.old.flat self.new.flat) }
        ensures err { OnErr result (self.new.flat ≡ self.old.flat) }
    {
        self.may_pend = true;
        self.may_differ = true;
        let to = drop_at(&mut self.buffers, alloc, n, self.clients.as_slice())?;
        self.clients.move_on(n, to);
        bring_turn_up(&mut self.buffers, &self.clients, self.rest.step.turn);
        self.rest.options.clear_buffer(n);
        self.highlighters.clear_buffer(n);
        self.tables.clear_buffer(n);
        Ok(())
    }
}
