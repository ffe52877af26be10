//! Keys that are run.
#![tactic(auto, using(kak_world::proofs::WorldLaws::world_laws))]

ghost use Rattle.std.specs.Prelude.{◌≡◌, true, IsErrOf, OnOk, OnErr};
ghost use Rattle.kak_world.specs.declared.ask.EditError.TheVariants.{NoMemory};
ghost use Rattle.kak_world.specs.declared.ask.Ask.TheVariants.{Play};
ghost use Rattle.kak_world.specs.Flat.{acts};
ghost use Rattle.kak_world.specs.Rows.{GivesRow};
ghost use Rattle.kak_engine.specs.Doing.{Do, each, and_then, normal_again, row_key, task_settled, strike, play_key, play_once, play_nested, do_ask, top};
ghost use Rattle.kak_engine.specs.Course.{RunsKey, GoesNormal};
ghost use Rattle.kak_engine.specs.Wanting.{IsPartOfTask};
ghost use Rattle.kak_engine.specs.Seen.{PartEnds, under_way};

use crate::asks::{go_on, settle_and_fail};
use crate::ending::{Ending, Limit};
use crate::hooking::{Struck, hear_key, settle};
use crate::outside::Outside;
use crate::place::Place;
use edit_line::EditLine;
use insert_prompt::{insert_key, prompt_key};
use kak_world::{Ask, EditError, Mode, PlayKeys, Turn, World};
use key_names::Key;
use key_rows::run_macro;
use normal_keys::normal_key;
use regex_ports::Pattern;
use session_events::Answers;
use std::alloc::{AllocError, Global};

// The row of a key, by the mode of its client.
fn run_row<P: Pattern, T: Turn>(
    alloc: Global,
    world: &mut World<P, T>,
    who: u32,
    key: Key,
) -> Result<Ask, EditError>
    requires { acts who world.old.flat ≡ true }
    ensures row { GivesRow result world.new.flat (row_key key who world.old.flat) }
    ensures wanting { IsErrOf result NoMemory → IsPartOfTask (RunsKey key) who world.old.flat world.new.flat }
{
    let mode = world.own(who).mode;
    match mode {
        Mode::Normal => normal_key(alloc, world, who, key),
        Mode::Insert => insert_key(alloc, world, who, key),
        Mode::Prompt => prompt_key(alloc, world, who, key),
    }
}

// Brings a client to normal mode with nothing begun, which hooks are to hear where it was in another one. An `Err` leaves the world.
fn go_normal<P: Pattern, T: Turn>(
    alloc: Global,
    world: &mut World<P, T>,
    who: u32,
) -> Result<(), AllocError>
    requires { acts who world.old.flat ≡ true }
    ensures ok { OnOk result (world.new.flat ≡ normal_again who world.old.flat) }
    ensures err { OnErr result (world.new.flat ≡ world.old.flat) }
{
    let mode = world.own(who).mode;
    world.note_left(alloc, who, mode)?;
    let own = world.own_mut(who);
    own.mode = Mode::Normal;
    own.count = 0;
    own.register = None;
    own.pending = None;
    own.appending = false;
    own.prompt = EditLine::new(alloc);
    Ok(())
}

// Brings a client to normal mode, and runs the hooks of that.
#[cycle(nested)]
fn settle_normal<O: Outside, T: Turn>(
    alloc: Global,
    world: &mut World<O::P, T>,
    outside: &mut O,
    answers: &mut Answers,
    place: Place,
) -> Result<Ending, AllocError>
    requires { acts place.who world.old.flat ≡ true }
    ensures does { PartEnds result (λ m. task_settled Do place GoesNormal m) (under_way world.old.flat answers.old (O.seen outside.old)) (under_way world.new.flat answers.new (O.seen outside.new)) }
{
    go_normal(alloc, world, place.who)?;
    settle(alloc, world, outside, answers, place)
}

// Runs one key, which takes a unit. Behind it, also where it failed, its hooks are run.
#[cycle(nested)]
fn strike<O: Outside, T: Turn>(
    alloc: Global,
    world: &mut World<O::P, T>,
    outside: &mut O,
    answers: &mut Answers,
    place: Place,
    key: Key,
) -> Result<Ending, AllocError>
    requires { acts place.who world.old.flat ≡ true }
    ensures does { PartEnds result (λ m. strike Do place key m) (under_way world.old.flat answers.old (O.seen outside.old)) (under_way world.new.flat answers.new (O.seen outside.new)) }
{
    let mode = world.own(place.who).mode;
    let struck = Struck { mode, key };
    if !world.take_unit() {
        return Ok(Ending::GivenUp(Limit::Units));
    }
    let row = run_row(alloc, world, place.who, key);
    match go_on(alloc, world, outside, answers, place, row)? {
        Ending::Fine => {
            let heard = hear_key(alloc, world, outside, answers, place, struck)?;
            Ok(Ending::Fine.still(heard))
        }
        Ending::Failed(fault) => {
            let heard = hear_key(alloc, world, outside, answers, place, struck)?;
            Ok(Ending::Failed(fault).still(heard))
        }
        Ending::GivenUp(limit) => Ok(Ending::GivenUp(limit)),
    }
}

// Runs keys, up to the first that doesn't end well.
#[cycle(nested)]
fn strike_each<O: Outside, T: Turn>(
    alloc: Global,
    world: &mut World<O::P, T>,
    outside: &mut O,
    answers: &mut Answers,
    place: Place,
    keys: &[Key],
) -> Result<Ending, AllocError>
    requires { acts place.who world.old.flat ≡ true }
    ensures does { PartEnds result (λ m. each (strike Do place) keys.now m) (under_way world.old.flat answers.old (O.seen outside.old)) (under_way world.new.flat answers.new (O.seen outside.new)) }
{
    for key in keys {
        match strike(alloc, world, outside, answers, place, *key)? {
            Ending::Fine => {}
            Ending::Failed(text) => return Ok(Ending::Failed(text)),
            Ending::GivenUp(limit) => return Ok(Ending::GivenUp(limit)),
        }
    }
    Ok(Ending::Fine)
}

// Runs a key, or those that it is mapped to, one deeper.
#[cycle(nested)]
fn strike_mapped<O: Outside, T: Turn>(
    alloc: Global,
    world: &mut World<O::P, T>,
    outside: &mut O,
    answers: &mut Answers,
    place: Place,
    key: Key,
) -> Result<Ending, AllocError>
    requires { acts place.who world.old.flat ≡ true }
    ensures does { PartEnds result (λ m. play_key Do place true key m) (under_way world.old.flat answers.old (O.seen outside.old)) (under_way world.new.flat answers.new (O.seen outside.new)) }
{
    let Some(keys) = world.keys_mapped(alloc, place.who, key)? else {
        return strike(alloc, world, outside, answers, place, key);
    };
    let Some(inner) = place.deeper() else {
        return Ok(Ending::GivenUp(Limit::Depth));
    };
    strike_each(alloc, world, outside, answers, inner, keys.as_slice())
}

// Runs keys, or those that they are mapped to, up to the first that doesn't end well.
#[cycle(nested)]
fn play_each<O: Outside, T: Turn>(
    alloc: Global,
    world: &mut World<O::P, T>,
    outside: &mut O,
    answers: &mut Answers,
    place: Place,
    keys: &[Key],
) -> Result<Ending, AllocError>
    requires { acts place.who world.old.flat ≡ true }
    ensures does { PartEnds result (λ m. each (play_key Do place true) keys.now m) (under_way world.old.flat answers.old (O.seen outside.old)) (under_way world.new.flat answers.new (O.seen outside.new)) }
{
    for key in keys {
        match strike_mapped(alloc, world, outside, answers, place, *key)? {
            Ending::Fine => {}
            Ending::Failed(text) => return Ok(Ending::Failed(text)),
            Ending::GivenUp(limit) => return Ok(Ending::GivenUp(limit)),
        }
    }
    Ok(Ending::Fine)
}

// Runs the keys of a play.
#[cycle(nested)]
fn play_keys<O: Outside, T: Turn>(
    alloc: Global,
    world: &mut World<O::P, T>,
    outside: &mut O,
    answers: &mut Answers,
    place: Place,
    play: &PlayKeys,
) -> Result<Ending, AllocError>
    requires { acts place.who world.old.flat ≡ true }
    ensures does { PartEnds result (λ m. each (play_key Do place play.now.maps) play.now.keys m) (under_way world.old.flat answers.old (O.seen outside.old)) (under_way world.new.flat answers.new (O.seen outside.new)) }
{
    if play.maps {
        return play_each(alloc, world, outside, answers, place, play.keys.as_slice());
    }
    strike_each(alloc, world, outside, answers, place, play.keys.as_slice())
}

// Brings a client to normal mode, and runs the keys of a play from there on.
#[cycle(nested)]
fn play_from_normal<O: Outside, T: Turn>(
    alloc: Global,
    world: &mut World<O::P, T>,
    outside: &mut O,
    answers: &mut Answers,
    place: Place,
    play: &PlayKeys,
) -> Result<Ending, AllocError>
    requires { acts place.who world.old.flat ≡ true }
    ensures does { PartEnds result (λ m. and_then (task_settled Do place GoesNormal m) (each (play_key Do place play.now.maps) play.now.keys)) (under_way world.old.flat answers.old (O.seen outside.old)) (under_way world.new.flat answers.new (O.seen outside.new)) }
{
    match settle_normal(alloc, world, outside, answers, place)? {
        Ending::Fine => play_keys(alloc, world, outside, answers, place, play),
        Ending::Failed(fault) => Ok(Ending::Failed(fault)),
        Ending::GivenUp(limit) => Ok(Ending::GivenUp(limit)),
    }
}

// Runs the keys of a play from normal mode on. Behind them, however they ended, the client is in normal mode again; where the step was
// given up, no hook is run of that.
#[cycle(nested)]
fn play_once<O: Outside, T: Turn>(
    alloc: Global,
    world: &mut World<O::P, T>,
    outside: &mut O,
    answers: &mut Answers,
    place: Place,
    play: &PlayKeys,
) -> Result<Ending, AllocError>
    requires { acts place.who world.old.flat ≡ true }
    ensures does { PartEnds result (λ m. play_once Do place play.now m) (under_way world.old.flat answers.old (O.seen outside.old)) (under_way world.new.flat answers.new (O.seen outside.new)) }
{
    match play_from_normal(alloc, world, outside, answers, place, play)? {
        Ending::Fine => {
            let left = settle_normal(alloc, world, outside, answers, place)?;
            Ok(Ending::Fine.still(left))
        }
        Ending::Failed(fault) => {
            let left = settle_normal(alloc, world, outside, answers, place)?;
            Ok(Ending::Failed(fault).still(left))
        }
        Ending::GivenUp(limit) => {
            go_normal(alloc, world, place.who)?;
            Ok(Ending::GivenUp(limit))
        }
    }
}

// Runs the keys of a play one deeper, where hooks are run if they are asked for.
#[cycle(nested)]
fn play_deeper<O: Outside, T: Turn>(
    alloc: Global,
    world: &mut World<O::P, T>,
    outside: &mut O,
    answers: &mut Answers,
    place: Place,
    play: &PlayKeys,
) -> Result<Ending, AllocError>
    requires { acts place.who world.old.flat ≡ true }
    ensures does { PartEnds result (λ m. play_nested Do place play.now m) (under_way world.old.flat answers.old (O.seen outside.old)) (under_way world.new.flat answers.new (O.seen outside.new)) }
{
    let Some(inner) = place.deeper() else {
        return Ok(Ending::GivenUp(Limit::Depth));
    };
    let inner = inner.quiet_unless(play.hooks);
    play_once(alloc, world, outside, answers, inner, play)
}

/// Runs keys one deeper, and as often more as the macro is to be run that they are: each time its register is read anew.
#[cycle(nested)]
pub(crate) fn play<O: Outside, T: Turn>(
    alloc: Global,
    world: &mut World<O::P, T>,
    outside: &mut O,
    answers: &mut Answers,
    place: Place,
    play: PlayKeys,
) -> Result<Ending, AllocError>
    requires { acts place.who world.old.flat ≡ true }
    ensures does { PartEnds result (λ m. do_ask Do place (Play play) m) (under_way world.old.flat answers.old (O.seen outside.old)) (under_way world.new.flat answers.new (O.seen outside.new)) }
{
    let mut play = play;
    'runs: loop {
        match play_deeper(alloc, world, outside, answers, place, &play)? {
            Ending::Fine => {}
            Ending::Failed(text) => return Ok(Ending::Failed(text)),
            Ending::GivenUp(limit) => return Ok(Ending::GivenUp(limit)),
        }
        let Some(again) = play.again else {
            return Ok(Ending::Fine);
        };
        if !world.take_unit() {
            return Ok(Ending::GivenUp(Limit::Units));
        }
        match run_macro(alloc, world, place.who, again) {
            Ok(next) => {
                match settle(alloc, world, outside, answers, place)? {
                    Ending::Fine => {}
                    Ending::Failed(fault) => return Ok(Ending::Failed(fault)),
                    Ending::GivenUp(limit) => return Ok(Ending::GivenUp(limit)),
                }
                play = next;
            }
            Err(error) => {
                return settle_and_fail(alloc, world, outside, answers, place, error);
            }
        }
    }
}

/// Runs a key of a client whose turn it is, and stays, or the keys that it is mapped to. What the outside answers is added to the
/// answers. An `Err` comes only for want of memory; the world may then have been changed in part.
pub fn strike_key<O: Outside, T: Turn>(
    alloc: Global,
    world: &mut World<O::P, T>,
    outside: &mut O,
    answers: &mut Answers,
    who: u32,
    key: Key,
) -> Result<Ending, AllocError>
    requires { acts who world.old.flat ≡ true }
    ensures does { PartEnds result (λ m. play_key Do (top who) true key m) (under_way world.old.flat answers.old (O.seen outside.old)) (under_way world.new.flat answers.new (O.seen outside.new)) }
    ensures acts { OnOk result (acts who world.new.flat ≡ true) }
{
    strike_mapped(alloc, world, outside, answers, Place::top(who), key)
}
