//! Keys that are asked for: those of a text, and those of a macro.
#![tactic(auto, using(kak_world::proofs::WorldLaws::world_laws))]

ghost use Rattle.std.specs.Prelude.{◌≡◌, true, slice_index_or, []};
ghost use Rattle.std.specs.Str.{chars};
ghost use Rattle.kak_world.specs.Flat.{Flat, acts};
ghost use Rattle.key_rows.specs.Playing.{GivesPlay, text_played, run_further, row_macro};

use crate::reading::register_strings;
use byte_texts::Words;
use kak_world::{CommandError, EditError, Macro, PlayKeys, Turn, World};
use key_names::{KeyError, Keys, read_keys};
use regex_ports::Pattern;
use std::alloc::Global;

/// The keys of a text, to be run: they stand for those that they are mapped to, hooks are run of what they do, and a macro comes
/// behind them, if one does. `BadKey` tells the character of the text, from 0, at which no key can be read.
pub fn play_text(alloc: Global, text: &str, again: Option<Macro>) -> Result<PlayKeys, EditError>
    ensures { (flat : Flat) → GivesPlay result flat (text_played (chars text.now) again flat) }
{
    match read_keys(alloc, text) {
        Ok(keys) => Ok(PlayKeys {
            keys: Keys::of_vec(keys),
            hooks: true,
            maps: true,
            again,
        }),
        Err(KeyError::BadKey(at)) => Err(EditError::Command(CommandError::BadKey(at))),
        Err(KeyError::NoMemory) => Err(EditError::NoMemory),
    }
}

// A macro that is run so often more, where that is any more.
fn run_further(register: char, further: u32) -> Option<Macro>
    ensures { result ≡ run_further register further }
{
    if further == 0 {
        return None;
    }
    Some(Macro {
        register,
        further: further - 1,
    })
}

// The first of some strings, or an empty one.
fn first_of(strings: &Words) -> &str
    ensures { result.now ≡ slice_index_or strings.now 0 [] }
{
    if strings.len() == 0 {
        return "";
    }
    strings.get(0)
}

/// The first string of a macro's register, to be run as keys. `NoSuchRegister` comes where there is no such register, and
/// `BadKey` where the string is no keys.
#[tactic(auto, using(kak_world::proofs::WorldLaws::world_laws), unfolding(crate::specs::Playing::row_macro))]
pub fn run_macro<P: Pattern, T: Turn>(
    alloc: Global,
    world: &World<P, T>,
    who: u32,
    again: Macro,
) -> Result<PlayKeys, EditError>
    requires { acts who world.now.flat ≡ true }
    ensures { GivesPlay result world.now.flat (row_macro again who world.now.flat) }
{
    let register = again.register;
    match register_strings(alloc, world, who, register)? {
        None => Err(EditError::NoSuchRegister(register)),
        Some(strings) => {
            let further = run_further(register, again.further);
            play_text(alloc, first_of(&strings), further)
        }
    }
}
