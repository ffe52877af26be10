//! The rows of normal mode.
#![tactic(auto, using(kak_world::proofs::WorldLaws::world_laws))]

ghost use Rattle.std.specs.Prelude.{◌≡◌, ◌≤◌, true, false, length, IsErrOf, IsOk, OnOk, OnErr};
ghost use Rattle.kak_world.specs.Flat.{acts, sels_of, pending_of};
ghost use Rattle.kak_world.specs.Rows.{GivesRow, does};
ghost use Rattle.kak_world.specs.Events.{has_hooks};
ghost use Rattle.key_rows.specs.Each.{each_changed};
ghost use Rattle.normal_keys.specs.Rows.{open_prompt, go_to_line, acted, sought_character, chosen_register, answered, row_pending, row_normal};
ghost use Rattle.normal_keys.specs.Recording.{recording_of};
ghost use Rattle.normal_keys.specs.Growing.{action_grows, answer_grows, key_grows, IsWantedToGrow};
ghost use Rattle.normal_keys.specs.Wanting.{is_part_of_seeking, IsPartOfAction, IsPartOfAnswer, IsPartOfKey, IsPartOfNormal};

use crate::actions::{Action, Repeated, action_of};
use crate::awaited::{character_of, object_of, place_of};
use crate::lists::change_list;
use crate::prefixes::{Prefix, set_prefix, take_prefix, wait, with_digit};
use crate::recording::{end_recording, macro_of, turn_recording};
use crate::runs::run_often;
use edit_line::EditLine;
use kak_world::{Ask, EditError, Mode, Purpose, Turn, Use, World};
use key_names::Key;
use key_rows::{
    Each, ask_for_last, change_each, edit_texts, enter_insert, fill, register_named, remember_main,
    run_macro,
};
use motion_keys::{CharSearch, Motion, Place, Reach};
use regex_ports::Pattern;
use std::alloc::{AllocError, Global};

// Does something to each selection once.
fn change<P: Pattern, T: Turn>(
    alloc: Global,
    world: &mut World<P, T>,
    who: u32,
    change: Each,
) -> Result<Ask, EditError>
    requires { acts who world.old.flat ≡ true }
    ensures row { GivesRow result world.new.flat (does (each_changed change who world.old.flat)) }
    ensures wanting { IsErrOf result EditError.NoMemory → world.new.flat ≡ world.old.flat }
    ensures few { length (sels_of who world.old.flat).list ≤ 4 → ¬ IsErrOf result EditError.NoMemory }
{
    change_each(alloc, world, who, change)?;
    Ok(Ask::Nothing)
}

// Opens an empty prompt. An `Err` leaves the world, and comes only where a hook is held.
fn begin_prompt<P: Pattern, T: Turn>(
    alloc: Global,
    world: &mut World<P, T>,
    who: u32,
    purpose: Purpose,
) -> Result<(), AllocError>
    requires { acts who world.old.flat ≡ true }
    ensures opens { OnOk result (world.new.flat ≡ open_prompt purpose who world.old.flat) }
    ensures err { OnErr result (world.new.flat ≡ world.old.flat) }
    ensures calm { has_hooks world.old.flat ≡ false → IsOk result }
{
    world.note_entered(alloc, who, Mode::Prompt)?;
    let own = world.own_mut(who);
    own.mode = Mode::Prompt;
    own.purpose = purpose;
    own.prompt = EditLine::new(alloc);
    Ok(())
}

// Goes to the line that a count says, or waits for the name of a place.
fn go<P: Pattern, T: Turn>(
    alloc: Global,
    world: &mut World<P, T>,
    who: u32,
    count: u32,
    key: Key,
    reach: Reach,
) -> Result<Ask, EditError>
    requires { acts who world.old.flat ≡ true }
    ensures row { GivesRow result world.new.flat (does (go_to_line key reach count who world.old.flat)) }
    ensures wanting { IsErrOf result EditError.NoMemory → world.new.flat ≡ world.old.flat }
    ensures few { length (sels_of who world.old.flat).list ≤ 4 → ¬ IsErrOf result EditError.NoMemory }
{
    if count == 0 {
        wait(world, who, key, 0);
        return Ok(Ask::Nothing);
    }
    let line = Motion::To(Place::Line(count - 1));
    change(alloc, world, who, Each::Moved(line, reach))
}

// Does what a key does, by its action, with what stands before it.
fn act<P: Pattern, T: Turn>(
    alloc: Global,
    world: &mut World<P, T>,
    who: u32,
    prefix: Prefix,
    key: Key,
    action: Action,
) -> Result<Ask, EditError>
    requires { acts who world.old.flat ≡ true }
    ensures row { GivesRow result world.new.flat (acted key action prefix who world.old.flat) }
    ensures wanting { IsErrOf result EditError.NoMemory → IsPartOfAction action prefix who world.old.flat world.new.flat }
    ensures few { IsWantedToGrow result (action_grows (recording_of who world.old.flat) action) who world.old.flat }
{
    let Prefix { count, register } = prefix;
    match action {
        Action::Nothing => Ok(Ask::Nothing),
        Action::Digit(digit) => {
            set_prefix(world, who, with_digit(count, digit), register);
            Ok(Ask::Nothing)
        }
        Action::ChoosesRegister | Action::Seeks(_, _) | Action::Fills | Action::SelectsObject(_) =>
            {
                wait(world, who, key, count);
                Ok(Ask::Nothing)
            }
        Action::Repeats(what) => run_often(alloc, world, who, prefix, what),
        Action::MovesOnce(motion, reach) => {
            change(alloc, world, who, Each::Moved(motion, reach))
        }
        Action::Goes(reach) => go(alloc, world, who, count, key, reach),
        Action::Shapes(shape) => change(alloc, world, who, Each::Reshaped(shape)),
        Action::Lists(change) => change_list(alloc, world, who, change),
        Action::Edits(edit) => {
            edit_texts(alloc, world, who, edit, register)?;
            Ok(Ask::Nothing)
        }
        Action::Inserts(entry) => {
            enter_insert(alloc, world, who, entry, register)?;
            Ok(Ask::Nothing)
        }
        Action::Prompts(purpose) => {
            begin_prompt(alloc, world, who, purpose)?;
            Ok(Ask::Nothing)
        }
        Action::StepsToMatch(direction) => {
            ask_for_last(alloc, world, Use::Step(direction, count.saturating_sub(1)))
        }
        Action::AddsMatch(direction) => {
            ask_for_last(alloc, world, Use::Add(direction, count.saturating_sub(1)))
        }
        Action::Remembers(bounds) => {
            remember_main(alloc, world, who, bounds)?;
            Ok(Ask::Nothing)
        }
        Action::Records => turn_recording(alloc, world, who, register),
        Action::EndsRecording => end_recording(alloc, world, who),
        Action::Plays => Ok(Ask::Play(run_macro(alloc, world, who, macro_of(prefix))?)),
    }
}

// Chooses a register for the next key, and leaves the count to it; a key that names none chooses none.
fn choose_register<P: Pattern, T: Turn>(
    world: &mut World<P, T>,
    who: u32,
    count: u32,
    name: Option<char>,
)
    requires { acts who world.old.flat ≡ true }
    ensures { does world.new.flat ≡ chosen_register count who name world.old.flat }
{
    if let Some(name) = name {
        set_prefix(world, who, count, Some(name));
    }
}

// Goes to a character, as often as the count says; without one nothing is done.
fn seek<P: Pattern, T: Turn>(
    alloc: Global,
    world: &mut World<P, T>,
    who: u32,
    count: u32,
    search: CharSearch,
    reach: Reach,
    c: Option<char>,
) -> Result<Ask, EditError>
    requires { acts who world.old.flat ≡ true }
    ensures row { GivesRow result world.new.flat (sought_character search reach count who c world.old.flat) }
    ensures wanting { IsErrOf result EditError.NoMemory → is_part_of_seeking search reach count who c world.old.flat world.new.flat }
    ensures few { length (sels_of who world.old.flat).list ≤ 4 → ¬ IsErrOf result EditError.NoMemory }
{
    match c {
        None => Ok(Ask::Nothing),
        Some(c) => {
            let prefix = Prefix {
                count,
                register: None,
            };
            let motion = Motion::Character(search, c);
            run_often(alloc, world, who, prefix, Repeated::Moves(motion, reach))
        }
    }
}

// Does what a key does for which another one waited, by the action of that one; one that doesn't fit does nothing.
fn answer<P: Pattern, T: Turn>(
    alloc: Global,
    world: &mut World<P, T>,
    who: u32,
    count: u32,
    waited: Action,
    key: Key,
) -> Result<Ask, EditError>
    requires { acts who world.old.flat ≡ true }
    ensures row { GivesRow result world.new.flat (answered waited key count who world.old.flat) }
    ensures wanting { IsErrOf result EditError.NoMemory → IsPartOfAnswer waited key count who world.old.flat world.new.flat }
    ensures few { length (sels_of who world.old.flat).list ≤ 4 → IsErrOf result EditError.NoMemory → answer_grows waited ≡ true }
{
    match waited {
        Action::Seeks(search, reach) => {
            seek(alloc, world, who, count, search, reach, character_of(key))
        }
        Action::Goes(reach) => match place_of(key) {
            Some(place) => change(alloc, world, who, Each::Moved(Motion::To(place), reach)),
            None => Ok(Ask::Nothing),
        },
        Action::SelectsObject(extent) => match object_of(key) {
            Some(object) => change(alloc, world, who, Each::Object(extent, object)),
            None => Ok(Ask::Nothing),
        },
        Action::Fills => {
            if let Some(c) = character_of(key) {
                fill(alloc, world, who, c)?;
            }
            Ok(Ask::Nothing)
        }
        Action::ChoosesRegister => {
            choose_register(world, who, count, register_named(key));
            Ok(Ask::Nothing)
        }
        _ => Ok(Ask::Nothing),
    }
}

// A key, by the one that waits for it, if one does.
fn run_pending<P: Pattern, T: Turn>(
    alloc: Global,
    world: &mut World<P, T>,
    who: u32,
    prefix: Prefix,
    pending: Option<Key>,
    key: Key,
) -> Result<Ask, EditError>
    requires { acts who world.old.flat ≡ true }
    ensures row { GivesRow result world.new.flat (row_pending pending key prefix who world.old.flat) }
    ensures wanting { IsErrOf result EditError.NoMemory → IsPartOfKey pending key prefix who world.old.flat world.new.flat }
    ensures few { IsWantedToGrow result (key_grows (recording_of who world.old.flat) pending key) who world.old.flat }
{
    match pending {
        None => act(alloc, world, who, prefix, key, action_of(key)),
        Some(waits) => answer(alloc, world, who, prefix.count, action_of(waits), key),
    }
}

/// Runs one key of normal mode, on each selection of a client. A refusal leaves the world behind the runs of the key before
/// it, and takes what stood before the key away; its text is what the user is told. `BudgetSpent` comes where a further run was
/// due and no unit was left. For at most four selections, and where no hook is held, only a key that edits or keeps texts, moves in
/// the history, can add selections, handles a pattern, runs a macro or ends a recording takes memory.
#[tactic(auto, unfolding(crate::specs::Rows::row_normal), using(kak_world::proofs::WorldLaws::world_laws))]
pub fn normal_key<P: Pattern, T: Turn>(
    alloc: Global,
    world: &mut World<P, T>,
    who: u32,
    key: Key,
) -> Result<Ask, EditError>
    requires { acts who world.old.flat ≡ true }
    ensures row { GivesRow result world.new.flat (row_normal key who world.old.flat) }
    ensures wanting { IsErrOf result EditError.NoMemory → IsPartOfNormal key who world.old.flat world.new.flat }
    ensures few { IsWantedToGrow result (key_grows (recording_of who world.old.flat) (pending_of who world.old.flat) key) who world.old.flat }
{
    let (prefix, pending) = take_prefix(world, who);
    run_pending(alloc, world, who, prefix, pending, key)
}
