//! Macros: keys that are recorded.
#![tactic(auto, using(kak_world::proofs::WorldLaws::world_laws))]

ghost use Rattle.std.specs.Prelude.{◌≡◌, true, is_some, string_bytes, encode_utf8_all, IfOk, IsErrOf};
ghost use Rattle.kak_world.specs.declared.ask.EditError.TheVariants.{NoMemory};
ghost use Rattle.kak_world.specs.Flat.{acts};
ghost use Rattle.kak_world.specs.Rows.{GivesRow};
ghost use Rattle.normal_keys.specs.Recording.{macro_register, macro_of, recording_of, recording_begun, not_recording, struck_text, recording_kept, recording_ended, recording_turned};

use crate::prefixes::Prefix;
use byte_texts::Words;
use kak_world::{Ask, EditError, Macro, Recording, Turn, World};
use key_names::{Key, Keys, print_key};
use regex_ports::Pattern;
use std::alloc::{AllocError, Global};

// The register of a macro: the one that was chosen, or `@`.
fn macro_register(chosen: Option<char>) -> char
    ensures { result ≡ macro_register chosen }
{
    chosen.unwrap_or('@')
}

/// The macro that a key runs, by what stands before it.
pub(crate) fn macro_of(prefix: Prefix) -> Macro
    ensures { result ≡ macro_of prefix }
{
    Macro {
        register: macro_register(prefix.register),
        further: prefix.count.saturating_sub(1),
    }
}

// The text of keys that were struck.
fn struck_text(alloc: Global, keys: &[Key]) -> Result<String, AllocError>
    ensures { IfOk result (λ text. string_bytes text ≡ encode_utf8_all (struck_text keys.now)) }
{
    let mut text = String::new(alloc);
    for key in keys {
        text.push_str(print_key(alloc, *key)?.as_str())?;
    }
    Ok(text)
}

// Has a client record its keys from now on.
fn begin_recording<P: Pattern, T: Turn>(
    alloc: Global,
    world: &mut World<P, T>,
    who: u32,
    register: Option<char>,
)
    requires { acts who world.old.flat ≡ true }
    ensures { world.new.flat ≡ recording_begun register who world.old.flat }
{
    let register = macro_register(register);
    world.own_mut(who).recording = Some(Recording {
        register,
        struck: Keys::new(alloc),
        listens: false,
    });
}

// Has a register hold what was recorded for it. An error leaves the world.
fn keep_recording<P: Pattern, T: Turn>(
    alloc: Global,
    world: &mut World<P, T>,
    recording: Option<Recording>,
) -> Result<Ask, EditError>
    ensures row { GivesRow result world.new.flat (recording_kept recording world.old.flat) }
    ensures wanting { IsErrOf result NoMemory → world.new.flat ≡ world.old.flat }
    ensures few { IsErrOf result NoMemory → is_some recording ≡ true }
{
    let Some(recording) = recording else {
        return Ok(Ask::Nothing);
    };
    let mut strings = Words::new(alloc);
    strings.push(struck_text(alloc, recording.struck.as_slice())?)?;
    world.set_register(recording.register, strings)?;
    Ok(Ask::Nothing)
}

/// Ends what a client records, and has its register hold that. Where it records nothing, no memory is taken.
pub(crate) fn end_recording<P: Pattern, T: Turn>(
    alloc: Global,
    world: &mut World<P, T>,
    who: u32,
) -> Result<Ask, EditError>
    requires { acts who world.old.flat ≡ true }
    ensures row { GivesRow result world.new.flat (recording_ended (recording_of who world.old.flat) who world.old.flat) }
    ensures wanting { IsErrOf result NoMemory → world.new.flat ≡ not_recording who world.old.flat }
    ensures few { IsErrOf result NoMemory → is_some (recording_of who world.old.flat) ≡ true }
{
    let own = world.own_mut(who);
    let recording = std::mem::replace(&mut own.recording, None);
    keep_recording(alloc, world, recording)
}

/// Has a client record its keys where it doesn't, which takes no memory, and else ends what it records.
pub(crate) fn turn_recording<P: Pattern, T: Turn>(
    alloc: Global,
    world: &mut World<P, T>,
    who: u32,
    register: Option<char>,
) -> Result<Ask, EditError>
    requires { acts who world.old.flat ≡ true }
    ensures row { GivesRow result world.new.flat (recording_turned (recording_of who world.old.flat) register who world.old.flat) }
    ensures wanting { IsErrOf result NoMemory → world.new.flat ≡ not_recording who world.old.flat }
    ensures few { IsErrOf result NoMemory → is_some (recording_of who world.old.flat) ≡ true }
{
    match world.own(who).recording {
        None => {
            begin_recording(alloc, world, who, register);
            Ok(Ask::Nothing)
        }
        Some(_) => end_recording(alloc, world, who),
    }
}
