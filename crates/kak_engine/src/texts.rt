//! Texts that are run as commands.
#![tactic(auto, using(kak_world::proofs::WorldLaws::world_laws))]

ghost use Rattle.std.specs.Prelude.{◌≡◌, true};
ghost use Rattle.kak_world.specs.Flat.{acts};
ghost use Rattle.kak_world.specs.declared.ask.Ask.TheVariants.{Try, Call};
ghost use Rattle.kak_engine.specs.Doing.{Do, each, run_command as one, run_text, run_deeper, run_with, do_ask};
ghost use Rattle.kak_engine.specs.Seen.{PartEnds, under_way};

use crate::asks::go_on;
use crate::ending::{Ending, Limit, ending_of};
use crate::outside::Outside;
use crate::place::Place;
use command_set::{read, run_command};
use kak_words::Command;
use kak_world::{CallText, TryTexts, Turn, World};
use session_events::Answers;
use std::alloc::{AllocError, Global};

// Runs one command.
#[cycle(nested)]
fn run_one<O: Outside, T: Turn>(
    alloc: Global,
    world: &mut World<O::P, T>,
    outside: &mut O,
    answers: &mut Answers,
    place: Place,
    command: &Command,
) -> Result<Ending, AllocError>
    requires { acts place.who world.old.flat ≡ true }
    ensures does { PartEnds result (λ m. one Do place command.now m) (under_way world.old.flat answers.old (O.seen outside.old)) (under_way world.new.flat answers.new (O.seen outside.new)) }
{
    if !world.take_unit() {
        return Ok(Ending::GivenUp(Limit::Units));
    }
    let row = run_command(alloc, world, place.who, command);
    go_on(alloc, world, outside, answers, place, row)
}

// Runs commands, up to the first that doesn't end well.
#[cycle(nested)]
fn run_each<O: Outside, T: Turn>(
    alloc: Global,
    world: &mut World<O::P, T>,
    outside: &mut O,
    answers: &mut Answers,
    place: Place,
    commands: &[Command],
) -> Result<Ending, AllocError>
    requires { acts place.who world.old.flat ≡ true }
    ensures does { PartEnds result (λ m. each (one Do place) commands.now m) (under_way world.old.flat answers.old (O.seen outside.old)) (under_way world.new.flat answers.new (O.seen outside.new)) }
{
    for command in commands {
        match run_one(alloc, world, outside, answers, place, command)? {
            Ending::Fine => {}
            Ending::Failed(text) => return Ok(Ending::Failed(text)),
            Ending::GivenUp(limit) => return Ok(Ending::GivenUp(limit)),
        }
    }
    Ok(Ending::Fine)
}

/// Runs a text as commands.
#[cycle(nested)]
pub(crate) fn run_text<O: Outside, T: Turn>(
    alloc: Global,
    world: &mut World<O::P, T>,
    outside: &mut O,
    answers: &mut Answers,
    place: Place,
    text: &[char],
) -> Result<Ending, AllocError>
    requires { acts place.who world.old.flat ≡ true }
    ensures does { PartEnds result (λ m. run_text Do place text.now m) (under_way world.old.flat answers.old (O.seen outside.old)) (under_way world.new.flat answers.new (O.seen outside.new)) }
{
    match read(alloc, text) {
        Ok(commands) => run_each(alloc, world, outside, answers, place, commands.as_slice()),
        Err(error) => ending_of(alloc, world.faults(), error),
    }
}

/// Runs a text as commands one deeper.
#[cycle(nested)]
pub(crate) fn run_deeper<O: Outside, T: Turn>(
    alloc: Global,
    world: &mut World<O::P, T>,
    outside: &mut O,
    answers: &mut Answers,
    place: Place,
    text: &[char],
) -> Result<Ending, AllocError>
    requires { acts place.who world.old.flat ≡ true }
    ensures does { PartEnds result (λ m. run_deeper Do place text.now m) (under_way world.old.flat answers.old (O.seen outside.old)) (under_way world.new.flat answers.new (O.seen outside.new)) }
{
    let Some(inner) = place.deeper() else {
        return Ok(Ending::GivenUp(Limit::Depth));
    };
    run_text(alloc, world, outside, answers, inner, text)
}

/// Runs a text as commands, and another one where that ends with an error.
#[cycle(nested)]
pub(crate) fn try_texts<O: Outside, T: Turn>(
    alloc: Global,
    world: &mut World<O::P, T>,
    outside: &mut O,
    answers: &mut Answers,
    place: Place,
    texts: TryTexts,
) -> Result<Ending, AllocError>
    requires { acts place.who world.old.flat ≡ true }
    ensures does { PartEnds result (λ m. do_ask Do place (Try texts) m) (under_way world.old.flat answers.old (O.seen outside.old)) (under_way world.new.flat answers.new (O.seen outside.new)) }
{
    let first = texts.first.as_slice();
    let caught = texts.catching.as_slice();
    match run_deeper(alloc, world, outside, answers, place, first)? {
        Ending::Fine => Ok(Ending::Fine),
        Ending::Failed(_) => run_deeper(alloc, world, outside, answers, place, caught),
        Ending::GivenUp(limit) => Ok(Ending::GivenUp(limit)),
    }
}

// Runs what a command was defined as, with the words that it was given as arguments; those of before stand behind it.
#[cycle(nested)]
fn run_with<O: Outside, T: Turn>(
    alloc: Global,
    world: &mut World<O::P, T>,
    outside: &mut O,
    answers: &mut Answers,
    place: Place,
    call: CallText,
) -> Result<Ending, AllocError>
    requires { acts place.who world.old.flat ≡ true }
    ensures does { PartEnds result (λ m. run_with Do place call.arguments call.text m) (under_way world.old.flat answers.old (O.seen outside.old)) (under_way world.new.flat answers.new (O.seen outside.new)) }
{
    let former = world.set_arguments(Some(call.arguments));
    let ending = run_text(alloc, world, outside, answers, place, call.text.as_slice())?;
    let _given = world.set_arguments(former);
    Ok(ending)
}

/// Runs what a command was defined as one deeper.
#[cycle(nested)]
pub(crate) fn call_text<O: Outside, T: Turn>(
    alloc: Global,
    world: &mut World<O::P, T>,
    outside: &mut O,
    answers: &mut Answers,
    place: Place,
    call: CallText,
) -> Result<Ending, AllocError>
    requires { acts place.who world.old.flat ≡ true }
    ensures does { PartEnds result (λ m. do_ask Do place (Call call) m) (under_way world.old.flat answers.old (O.seen outside.old)) (under_way world.new.flat answers.new (O.seen outside.new)) }
{
    let Some(inner) = place.deeper() else {
        return Ok(Ending::GivenUp(Limit::Depth));
    };
    run_with(alloc, world, outside, answers, inner, call)
}
