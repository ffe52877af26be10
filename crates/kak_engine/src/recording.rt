//! What a client records, as its keys are struck.
#![tactic(auto, using(kak_world::proofs::WorldLaws::world_laws))]

ghost use Rattle.std.specs.Prelude.{◌≡◌, true, false, option_map, None, OnOk, OnErr};
ghost use Rattle.kak_world.specs.Flat.{acts, is_joined, with_own};
ghost use Rattle.kak_world.specs.declared.own.StatusText.TheVariants.{Quiet};
ghost use Rattle.kak_engine.specs.Recording.{listens, with_struck, recorded};

use kak_world::{Recording, StatusText, Turn, World};
use key_names::Key;
use regex_ports::Pattern;
use std::alloc::AllocError;

// What is recorded takes the key that begins.
fn listens(recording: &mut Option<Recording>)
    ensures { recording.new ≡ listens recording.old }
{
    match recording {
        None => {}
        Some(recording) => recording.listens = true,
    }
}

/// A key of a client begins: its status and its box are cleared, it is dragging no more, and what it records takes the key.
pub(crate) fn listen<P: Pattern, T: Turn>(world: &mut World<P, T>, who: u32)
    requires { is_joined who world.old.flat ≡ true }
    ensures { world.new.flat ≡ with_own who (λ o. record o { status = Quiet; info = None; dragging = false; recording = listens o.recording }) world.old.flat }
{
    let own = world.own_mut(who);
    own.status = StatusText::Quiet;
    own.info = None;
    own.dragging = false;
    listens(&mut own.recording);
}

// Puts a key behind those that were struck, where it is taken. An `Err` leaves them.
fn take_key(recording: &mut Option<Recording>, key: Key) -> Result<(), AllocError>
    ensures ok { OnOk result (recording.new ≡ option_map (with_struck key) recording.old) }
    ensures err { OnErr result (recording.new ≡ recording.old) }
{
    match recording {
        None => Ok(()),
        Some(recording) => {
            if !recording.listens {
                return Ok(());
            }
            recording.struck.push(key)
        }
    }
}

/// Puts a key behind those that a client records, where it did so when the key began. An `Err` leaves the world.
pub(crate) fn record_key<P: Pattern, T: Turn>(
    world: &mut World<P, T>,
    who: u32,
    key: Key,
) -> Result<(), AllocError>
    requires { acts who world.old.flat ≡ true }
    ensures ok { OnOk result (world.new.flat ≡ recorded who key world.old.flat) }
    ensures err { OnErr result (world.new.flat ≡ world.old.flat) }
{
    take_key(&mut world.own_mut(who).recording, key)
}
