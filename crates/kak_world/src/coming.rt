//! Clients that come and go.

ghost use Rattle.std.specs.Prelude.{◌≡◌, ◌<◌, true, false, length, map, option_map, OnOk, OnErr};
ghost use Rattle.kak_world.specs.Flat.{is_here, is_joined, joined_by, left_by_client, left_behind, lowest};
ghost use Rattle.list_shelf.specs.declared.holder.Holder.TheVariants.{Of};
ghost use Rattle.kak_world.specs.Seen.{slot_seen, all_seen, SlotLeaves, AllLeave};
ghost use Rattle.kak_world.specs.Stored.{IsStepOf};
ghost use Rattle.kak_world.specs.declared.world.TheConstants.{MAX_CLIENTS};

use crate::buffer::WorldBuffer;
use crate::showing::add_list_in;
use crate::turn::Turn;
use crate::turning::bring_turn_up;
use crate::world::{MAX_CLIENTS, World};
use list_shelf::Holder;
use regex_ports::Pattern;
use std::alloc::{AllocError, Global};

// The least number of a buffer, or how many numbers there are where none is a buffer's.
fn lowest(buffers: &[Option<WorldBuffer>]) -> usize
    ensures { result ≡ lowest (all_seen buffers.now) }
{
    for (i, buffer) in buffers.iter().enumerate() {
        if buffer.is_some() {
            return i;
        }
    }
    buffers.len()
}

// Commits a client's pending group in a buffer, and takes its lists off it, where there is one.
fn leave_buffer(slot: &mut Option<WorldBuffer>, who: u32)
    ensures seen { slot_seen slot.new ≡ option_map (left_behind who) (slot_seen slot.old) }
    ensures leaves { SlotLeaves (Of who) slot.old slot.new }
{
    match slot {
        None => {}
        Some(buffer) => {
            buffer.commit(who);
            buffer.drop_lists(Holder::Of(who));
        }
    }
}

// So in each buffer.
fn leave_buffers(buffers: &mut Vec<Option<WorldBuffer>>, who: u32)
    ensures seen { all_seen buffers.new.items ≡ map (option_map (left_behind who)) (all_seen buffers.old.items) }
    ensures leaves { AllLeave (Of who) buffers.old.items buffers.new.items }
{
    for n in 0..buffers.len() {
        leave_buffer(&mut buffers[n], who);
    }
}

impl<P: Pattern, T: Turn> World<P, T> {
    /// A client comes: it sees the buffer with the least number, and is named by the least number that no other client
    /// has. An `Err` leaves the world.
    pub fn join(&mut self, alloc: Global, who: u32) -> Result<(), AllocError>
        requires away { is_here who self.old.flat.clients ≡ false }
        requires few { length self.old.flat.clients < MAX_CLIENTS }
        ensures ok { OnOk result (self.new.flat ≡ joined_by who self.old.flat) }
        ensures joined { OnOk result (is_joined who self.new.flat ≡ true) }
        ensures err { OnErr result (self.new.flat ≡ self.old.flat) }
    {
        self.may_pend = true;
        self.may_differ = true;
        let n = lowest(self.buffers.as_slice());
        self.clients.add(alloc, who, n as u32)?;
        match add_list_in(&mut self.buffers[n], alloc, Holder::Of(who)) {
            Ok(()) => {
                bring_turn_up(&mut self.buffers, &self.clients, self.rest.step.turn);
                Ok(())
            }
            Err(error) => {
                self.clients.remove(who);
                Err(error)
            }
        }
    }

    /// A client goes, with all that is its own, its lists, and what is kept of its windows; what was pending of it is committed. Takes no memory.
    pub fn leave(&mut self, who: u32)
        requires { IsStepOf who T.began }
        ensures { self.new.flat ≡ left_by_client who self.old.flat }
    {
        self.may_pend = true;
        self.may_differ = true;
        self.clients.remove(who);
        leave_buffers(&mut self.buffers, who);
        bring_turn_up(&mut self.buffers, &self.clients, self.rest.step.turn);
        self.rest.options.clear_client(who);
        self.highlighters.clear_client(who);
        self.tables.clear_client(who);
    }
}
