//! What commands have run: keys, and texts as commands.
#![tactic(auto, using(kak_world::proofs::WorldLaws::world_laws))]

ghost use Rattle.std.specs.Prelude.{◌≡◌, map, string_bytes, IfOk};
ghost use Rattle.kak_world.specs.Rows.{GivesRow};
ghost use Rattle.scope_tables.specs.Definitions.{definition_of};
ghost use Rattle.command_set.specs.Running.{play_row, eval_row, try_row, call_row};
ghost use Rattle.kak_world.specs.Flat.{tables_of};

use crate::session_tables::keys_told;
use byte_texts::{Utf8Text, Words};
use command_forms::{PlayOrder, TryOrder};
use kak_text::Chars;
use kak_world::{Ask, CallText, CommandError, EditError, PlayKeys, TryTexts, Turn, World};
use key_names::Keys;
use regex_ports::Pattern;
use std::alloc::{AllocError, Global};

/// Has keys run. `BadKey` comes where they can't be read.
pub(crate) fn play<P: Pattern, T: Turn>(
    alloc: Global,
    world: &World<P, T>,
    order: &PlayOrder,
) -> Result<Ask, EditError>
    ensures row { GivesRow result world.now.flat (play_row order.now world.now.flat) }
{
    let keys = keys_told(alloc, order.keys.as_str())?;
    Ok(Ask::Play(PlayKeys {
        keys: Keys::of_vec(keys),
        hooks: order.hooks,
        maps: order.maps,
        again: None,
    }))
}

/// Has a text run as commands.
pub(crate) fn eval<P: Pattern, T: Turn>(
    alloc: Global,
    world: &World<P, T>,
    text: &Utf8Text,
) -> Result<Ask, EditError>
    ensures row { GivesRow result world.now.flat (eval_row text.now world.now.flat) }
{
    Ok(Ask::Eval(Chars::from_str(alloc, text.as_str())?))
}

/// Has a text run as commands, and another one where that fails.
pub(crate) fn try_texts<P: Pattern, T: Turn>(
    alloc: Global,
    world: &World<P, T>,
    order: &TryOrder,
) -> Result<Ask, EditError>
    ensures row { GivesRow result world.now.flat (try_row order.now world.now.flat) }
{
    Ok(Ask::Try(TryTexts {
        first: Chars::from_str(alloc, order.first.as_str())?,
        catching: Chars::from_str(alloc, order.catching.as_str())?,
    }))
}

// Copies of words.
fn words_of(alloc: Global, words: &[String]) -> Result<Words, AllocError>
    ensures { IfOk result (λ ws. ws ≡ map (λ w. string_bytes w) words.now) }
{
    let mut copies = Vec::with_capacity(alloc, words.len())?;
    for word in words {
        copies.push(String::from_str(alloc, word.as_str())?)?;
    }
    Ok(Words::of_vec(copies))
}

/// Has what a word was defined as run. `NoSuchCommand` comes where it wasn't defined, and `WrongArgumentCount` where it may not be
/// given so many words; the word that is told is the one that was typed.
pub(crate) fn call<P: Pattern, T: Turn>(
    alloc: Global,
    world: &World<P, T>,
    name: &str,
    typed: &str,
    words: &[String],
) -> Result<Ask, EditError>
    ensures row { GivesRow result world.now.flat (call_row (definition_of name.now (tables_of world.now.flat).definitions) typed.now (map (λ w. string_bytes w) words.now) world.now.flat) }
{
    let Some(definition) = world.tables().defined(name) else {
        let word = Utf8Text::from_str(alloc, typed)?;
        return Err(EditError::Command(CommandError::NoSuchCommand(word)));
    };
    if !definition.allowed.is_allowed(words.len()) {
        return Err(EditError::Command(CommandError::WrongArgumentCount));
    }
    Ok(Ask::Call(CallText {
        text: Chars::from_str(alloc, definition.commands.as_str())?,
        arguments: words_of(alloc, words)?,
    }))
}
