//! The rescue of an engine's texts: what may differ from what was saved is written beside its own file.

ghost use Rattle.std.specs.Prelude.{◌≡◌, ◌<◌, ◌≤◌, ◌+◌, ◌^◌, ◌||◌, length, true, false, slice_index_or, IfOk, OnErr, None};
ghost use Rattle.kak_ports.specs.Ports.{Rose};
ghost use Rattle.command_set.specs.Files.{saved_bytes};
ghost use Rattle.kak_engine.specs.Honesty.{WritesFile};
ghost use Rattle.kak_engine.specs.Rescue.{rescue_file, rescuing, due_of, due, AreTried, Rescues};
ghost use Rattle.kak_engine.specs.Seating.{IsRescuedIf};

use crate::asking::write;
use crate::engine::Engine;
use crate::outside::Outside;
use byte_texts::Utf8Text;
use kak_ports::Put;
use kak_world::{AnyTurn, MAX_BUFFERS, Saving, World};
use key_rows::string_of;
use std::alloc::{AllocError, Global};

// How texts were tried: how many of them were written, and whether memory was wanting for one.
#[derive(Clone, Copy)]
struct Tally {
    done: u32,
    wanting: bool,
}

// The file to which the text of a buffer of some name is rescued.
fn rescue_file(alloc: Global, name: &[char]) -> Result<Utf8Text, AllocError>
    ensures { IfOk result (λ file. file ≡ rescue_file name.now) }
{
    let mut file = string_of(alloc, name)?;
    file.push_str(".kak-rescue")?;
    Ok(Utf8Text::of_string(file))
}

// Two tallies together.
fn both(tally: Tally, more: Tally) -> Tally
    requires { tally.done + more.done < 2 ^ 32 }
    ensures done { result.done ≡ tally.done + more.done }
    ensures wanting { result.wanting ≡ (tally.wanting || more.wanting) }
{
    Tally {
        done: tally.done + more.done,
        wanting: tally.wanting || more.wanting,
    }
}

// Has the text of the buffer of a number, which has a name, written to its rescue file.
fn write_rescue<O: Outside>(
    alloc: Global,
    world: &World<O::P, AnyTurn>,
    outside: &mut O,
    n: u32,
    name: &[char],
) -> Result<Put, AllocError>
    ensures honest { IfOk result (λ put. WritesFile put (rescue_file name.now) (saved_bytes (rescuing n name.now) world.now.flat) (O.seen outside.old) (O.seen outside.new)) }
    ensures err { OnErr result (O.seen outside.new ≡ O.seen outside.old) }
{
    let saving = Saving {
        file: rescue_file(alloc, name)?,
        buffer: n,
        name: Utf8Text::of_string(String::new(alloc)),
        quits: false,
    };
    write(alloc, world, outside, &saving)
}

// Tries to rescue the text of the buffer of a number, where there is one and its text may differ from what was saved.
fn try_rescue<O: Outside>(
    alloc: Global,
    world: &World<O::P, AnyTurn>,
    outside: &mut O,
    n: u32,
) -> Tally
    ensures tried { AreTried (due_of n world.now.flat (slice_index_or world.now.flat.buffers n None)) result.done result.wanting (O.seen outside.old) (O.seen outside.new) }
    ensures one { result.done ≤ 1 }
{
    let Some(buffer) = world.buffer(n) else {
        return Tally {
            done: 0,
            wanting: false,
        };
    };
    if !buffer.is_modified() {
        return Tally {
            done: 0,
            wanting: false,
        };
    }
    match write_rescue(alloc, world, outside, n, buffer.name()) {
        Ok(Put::Done) => Tally {
            done: 1,
            wanting: false,
        },
        Ok(Put::Failed) => Tally {
            done: 0,
            wanting: false,
        },
        Err(_) => Tally {
            done: 0,
            wanting: true,
        },
    }
}

// Tries to rescue the text of each buffer, also where one failed before.
fn try_all<O: Outside>(alloc: Global, world: &World<O::P, AnyTurn>, outside: &mut O) -> Tally
    ensures { AreTried (due world.now.flat) result.done result.wanting (O.seen outside.old) (O.seen outside.new) }
{
    let mut tally = Tally {
        done: 0,
        wanting: false,
    };
    for n in 0..MAX_BUFFERS as u32 {
        let one = try_rescue(alloc, world, outside, n);
        tally = both(tally, one);
    }
    tally
}

/// Rescues the texts of a world: each that may differ from what was saved is written to its rescue file, in order of the buffers'
/// numbers, whatever becomes of those before. Gives how many were written; an `Err` is that memory was wanting for the bytes or
/// the name of one. Memory is taken for one text at a time.
pub(crate) fn rescue_texts<O: Outside>(
    alloc: Global,
    world: &World<O::P, AnyTurn>,
    outside: &mut O,
) -> Result<u32, AllocError>
    ensures rescues { Rescues world.now.flat result (O.seen outside.old) (O.seen outside.new) }
    ensures fewer { IfOk result (λ done. done < length (due world.now.flat) → Rose (O.seen outside.old).shelf.faults (O.seen outside.new).shelf.faults) }
{
    let tally = try_all(alloc, world, outside);
    if tally.wanting {
        return Err(AllocError);
    }
    Ok(tally.done)
}

impl<O: Outside> Engine<O> {
    /// Rescues the texts of the buffers: each that may differ from what was saved is written to the file of the buffer's name with
    /// `.kak-rescue` behind, in the form in which it would be saved, in order of the buffers' numbers and whatever becomes of
    /// those before; nothing else is asked of the outside. Gives how many were written, which are all unless the files'
    /// count of faults rose. An `Err` is that memory was wanting for one of them; all others were tried. Memory is taken for the
    /// bytes and the name of one text at a time. An engine that broke has the texts that the step left which broke it.
    pub fn rescue(&mut self, alloc: Global) -> Result<u32, AllocError>
        ensures rescues { Rescues self.old.inside result self.old.outside self.new.outside }
        ensures fewer { IfOk result (λ done. done < length (due self.old.inside) → Rose self.old.outside.shelf.faults self.new.outside.shelf.faults) }
        ensures same { self.new ≡ record self.old { outside = self.new.outside; rescued = true } }
    {
        self.rescued = true;
        rescue_texts(alloc, self.world.get(), &mut self.outside)
    }

    /// Rescues the texts of an engine that is broken; to any other one it does nothing.
    pub fn rescue_if_broken(&mut self, alloc: Global)
        ensures { IsRescuedIf self.old.mark self.old self.new }
    {
        if self.mark.is_some() {
            let _tried = self.rescue(alloc);
        }
    }
}
