//! The list of whose turn it is, which is up to date on the buffer that it sees.

ghost use Rattle.std.specs.Prelude.{◌≡◌, ℕ};
ghost use Rattle.list_shelf.specs.declared.holder.Holder.TheVariants.{Of};
ghost use Rattle.kak_world.specs.Seen.{slot_seen, all_seen, SlotIsUp, TurnIsUp, SlotLeaves, AllLeave, SlotIsCalm, AreCalm};
ghost use Rattle.kak_world.specs.Stored.{IsTurnAtMost};

use crate::buffer::WorldBuffer;
use crate::clients::Clients;
use list_shelf::Holder;

// Brings a holder's list on a buffer up to date, where there is one.
fn enter_slot(slot: &mut Option<WorldBuffer>, holder: Holder)
    ensures seen { slot_seen slot.new ≡ slot_seen slot.old }
    ensures up { SlotIsUp holder slot.new }
    ensures leaves { SlotLeaves holder slot.old slot.new }
    ensures calm { SlotIsCalm slot.old → SlotIsCalm slot.new }
{
    match slot {
        None => {}
        Some(buffer) => buffer.enter(holder),
    }
}

/// Brings the list of whose turn it is up to date on the buffer that it sees. Lists of others, and its own on other buffers,
/// are left as they are stored. Takes no memory.
pub(crate) fn bring_turn_up(
    buffers: &mut Vec<Option<WorldBuffer>>,
    clients: &Clients,
    turn: Option<u32>,
)
    ensures seen { all_seen buffers.new.items ≡ all_seen buffers.old.items }
    ensures up { TurnIsUp turn clients.now buffers.new.items }
    ensures leaves { (k : ℕ) → IsTurnAtMost k turn → AllLeave (Of k) buffers.old.items buffers.new.items }
    ensures calm { AreCalm buffers.old.items → AreCalm buffers.new.items }
{
    let Some(who) = turn else {
        return;
    };
    if !clients.is_here(who) {
        return;
    }
    let client = clients.client(who);
    let n = client.shown as usize;
    if n >= buffers.len() {
        return;
    }
    enter_slot(&mut buffers[n], Holder::Of(who));
}
