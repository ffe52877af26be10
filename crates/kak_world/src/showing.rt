//! Clients that are shown another buffer.

ghost use Rattle.std.specs.Prelude.{◌≡◌, true, option_map, OnOk, OnErr};
ghost use Rattle.kak_world.specs.Flat.{is_there, acts, listed_for};
ghost use Rattle.kak_world.specs.Keeping.{KeepsClients};
ghost use Rattle.list_shelf.specs.declared.holder.Holder.{Holder};
ghost use Rattle.kak_world.specs.Seen.{slot_seen, SlotLeaves};
ghost use Rattle.kak_world.specs.Showing.{shows};

use crate::buffer::WorldBuffer;
use crate::turn::Turn;
use crate::turning::bring_turn_up;
use crate::world::World;
use list_shelf::Holder;
use regex_ports::Pattern;
use std::alloc::{AllocError, Global};

/// Gives a holder that has no list on a buffer the one to begin with, where there is a buffer. An `Err` leaves the buffer.
pub(crate) fn add_list_in(
    slot: &mut Option<WorldBuffer>,
    alloc: Global,
    holder: Holder,
) -> Result<(), AllocError>
    ensures ok { OnOk result (slot_seen slot.new ≡ option_map (listed_for holder) (slot_seen slot.old)) }
    ensures leaves { OnOk result ((other : Holder) → SlotLeaves other slot.old slot.new) }
    ensures err { OnErr result (slot.new ≡ slot.old) }
{
    match slot {
        None => Ok(()),
        Some(buffer) => buffer.add_list(alloc, holder),
    }
}

impl<P: Pattern, T: Turn> World<P, T> {
    /// Shows a client whose turn it is the buffer of a number, with the list and the window that it has there, or those to begin with; its
    /// lists on other buffers stay. An `Err` leaves the world.
    pub fn show(&mut self, alloc: Global, who: u32, n: u32) -> Result<(), AllocError>
        requires acts { acts who self.old.flat ≡ true }
        requires there { is_there n self.old.flat.buffers ≡ true }
        ensures ok { OnOk result (self.new.flat ≡ shows who n self.old.flat) }
        ensures keeps { OnOk result (KeepsClients self.old.flat self.new.flat) }
        ensures err { OnErr result (self.new.flat ≡ self.old.flat) }
    {
        self.may_pend = true;
        self.may_differ = true;
        add_list_in(&mut self.buffers[n as usize], alloc, Holder::Of(who))?;
        self.clients.set_shown(who, n);
        bring_turn_up(&mut self.buffers, &self.clients, self.rest.step.turn);
        Ok(())
    }
}
