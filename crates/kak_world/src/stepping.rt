//! Worlds that are taken into a step, and out of it.

ghost use Rattle.std.specs.Prelude.{◌≡◌, false, map, option_map, Some, None};
ghost use Rattle.kak_world.specs.Flat.{turn_of};
ghost use Rattle.kak_world.specs.Seen.{begun_in, AreCalm};
ghost use Rattle.kak_world.specs.Stored.{LeavesSince};

use crate::buffer::WorldBuffer;
use crate::turn::{AnyTurn, Turn};
use crate::world::World;
use regex_ports::Pattern;
use std::marker::PhantomData;

// A step begins for a buffer, where there is one.
fn begin_in(slot: &mut Option<WorldBuffer>)
    ensures { slot.new ≡ option_map begun_in slot.old }
{
    match slot {
        None => {}
        Some(buffer) => buffer.begin_step(),
    }
}

// A step begins for each buffer.
fn begin_all(buffers: &mut Vec<Option<WorldBuffer>>)
    ensures { buffers.new.items ≡ map (option_map begun_in) buffers.old.items }
{
    for n in 0..buffers.len() {
        begin_in(&mut buffers[n]);
    }
}

// The same, where something may have become of a buffer since the last step began.
fn begin_where(buffers: &mut Vec<Option<WorldBuffer>>, may_differ: bool)
    requires { may_differ ≡ false → AreCalm buffers.old.items }
    ensures { buffers.new.items ≡ map (option_map begun_in) buffers.old.items }
{
    if !may_differ {
        return;
    }
    begin_all(buffers);
}

impl<P: Pattern> World<P, AnyTurn> {
    /// Takes a world between steps into a step of a client, of which is said what is stored now. Takes no memory, and looks at no
    /// buffer where none was opened, dropped or shown, and no log began again, since the last step began.
    pub fn into_step<S: Turn>(self, who: u32) -> World<P, S>
        requires began { S.began ≡ Some (record { who = who; stored = self.stored }) }
        requires nobody { turn_of self.flat ≡ None }
        ensures { result.flat ≡ self.flat }
    {
        let World {
            mut buffers,
            clients,
            rest,
            highlighters,
            tables,
            may_pend,
            may_differ,
            step: _,
        } = self;
        begin_where(&mut buffers, may_differ);
        World {
            buffers,
            clients,
            rest,
            highlighters,
            tables,
            may_pend,
            may_differ: false,
            step: PhantomData,
        }
    }
}

impl<P: Pattern, T: Turn> World<P, T> {
    /// Takes a world out of its step: what others had stored when it began, they have stored still.
    pub fn out_of_step(self) -> World<P, AnyTurn>
        ensures flat { result.flat ≡ self.flat }
        ensures stored { result.stored ≡ self.stored }
        ensures others { LeavesSince T.began result.stored }
    {
        let World {
            buffers,
            clients,
            rest,
            highlighters,
            tables,
            may_pend,
            may_differ,
            step: _,
        } = self;
        World {
            buffers,
            clients,
            rest,
            highlighters,
            tables,
            may_pend,
            may_differ,
            step: PhantomData,
        }
    }
}
