//! What comes behind a row: the hooks of what it did, and what it asks for, with what the outside answers.
#![tactic(auto, using(kak_world::proofs::WorldLaws::world_laws))]

ghost use Rattle.std.specs.Prelude.{◌≡◌, true, IfSome, Err};
ghost use Rattle.kak_world.specs.Flat.{acts};
ghost use Rattle.kak_world.specs.Rows.{GivesRow, RowEnd, Asks, row_of};
ghost use Rattle.kak_world.specs.declared.ask.Ask.TheVariants.{Make, Read, Write, Then};
ghost use Rattle.kak_engine.specs.Doing.{Failed, Do, granted, done_as, and_then, settle, do_ask as ask_done, go_on as rest_of};
ghost use Rattle.kak_engine.specs.Seen.{ActsBehind, PartEnds, under_way};

use crate::asking::{made_told, make, put_told, read_told, write};
use crate::ending::{Ending, ending_of};
use crate::hooking::settle;
use crate::outside::Outside;
use crate::place::Place;
use crate::playing::play;
use crate::texts::{call_text, run_deeper, run_text, try_texts};
use byte_texts::Utf8Text;
use command_set::{finish, go_later, note_saved, open_read};
use kak_world::{Ask, EditError, Fault, Later, PatternUse, Saving, Turn, World};
use regex_ports::Pattern;
use session_events::Answers;
use std::alloc::{AllocError, Global};

// Grants a client to leave.
fn grant_leave<P: Pattern, T: Turn>(world: &mut World<P, T>, who: u32)
    requires { acts who world.old.flat ≡ true }
    ensures { world.new.flat ≡ granted who world.old.flat }
{
    world.own_mut(who).leaving = true;
}

/// Runs the hooks of what a row did, and then does what it asks for, or ends with its error.
#[cycle(nested)]
pub(crate) fn go_on<O: Outside, T: Turn>(
    alloc: Global,
    world: &mut World<O::P, T>,
    outside: &mut O,
    answers: &mut Answers,
    place: Place,
    row: Result<Ask, EditError>,
) -> Result<Ending, AllocError>
    requires { ActsBehind row place.who world.old.flat }
    ensures does { (end : RowEnd) → GivesRow row world.old.flat end → PartEnds result (λ m. rest_of Do place end m) (under_way world.old.flat answers.old (O.seen outside.old)) (under_way world.new.flat answers.new (O.seen outside.new)) }
{
    match row {
        Ok(ask) => settle_and_do(alloc, world, outside, answers, place, ask),
        Err(error) => settle_and_fail(alloc, world, outside, answers, place, error),
    }
}

// Runs the hooks of what a row did, and then does what it asks for.
#[cycle(nested)]
fn settle_and_do<O: Outside, T: Turn>(
    alloc: Global,
    world: &mut World<O::P, T>,
    outside: &mut O,
    answers: &mut Answers,
    place: Place,
    ask: Ask,
) -> Result<Ending, AllocError>
    requires { acts place.who world.old.flat ≡ true }
    ensures does { PartEnds result (λ m. Do place (Asks ask) m) (under_way world.old.flat answers.old (O.seen outside.old)) (under_way world.new.flat answers.new (O.seen outside.new)) }
{
    match settle(alloc, world, outside, answers, place)? {
        Ending::Fine => do_ask(alloc, world, outside, answers, place, ask),
        Ending::Failed(fault) => Ok(Ending::Failed(fault)),
        Ending::GivenUp(limit) => Ok(Ending::GivenUp(limit)),
    }
}

/// Runs the hooks of what a row did that was refused, and ends with its error, which arose before them. Where units were spent, or
/// memory was wanting, none is run.
#[cycle(nested)]
pub(crate) fn settle_and_fail<O: Outside, T: Turn>(
    alloc: Global,
    world: &mut World<O::P, T>,
    outside: &mut O,
    answers: &mut Answers,
    place: Place,
    error: EditError,
) -> Result<Ending, AllocError>
    requires { IfSome (row_of error) (λ row. acts place.who world.old.flat ≡ true) }
    ensures does { (end : RowEnd) → GivesRow (Err error) world.old.flat end → PartEnds result (λ m. rest_of Do place end m) (under_way world.old.flat answers.old (O.seen outside.old)) (under_way world.new.flat answers.new (O.seen outside.new)) }
{
    match ending_of(alloc, world.faults(), error)? {
        Ending::Fine => Ok(Ending::Fine),
        Ending::Failed(fault) => settle_fault(alloc, world, outside, answers, place, fault),
        Ending::GivenUp(limit) => Ok(Ending::GivenUp(limit)),
    }
}

// Runs the hooks of what a row did, and ends with an error.
#[cycle(nested)]
fn settle_fault<O: Outside, T: Turn>(
    alloc: Global,
    world: &mut World<O::P, T>,
    outside: &mut O,
    answers: &mut Answers,
    place: Place,
    fault: Fault,
) -> Result<Ending, AllocError>
    requires { acts place.who world.old.flat ≡ true }
    ensures does { PartEnds result (λ m. and_then (settle Do place m) (done_as (Failed fault))) (under_way world.old.flat answers.old (O.seen outside.old)) (under_way world.new.flat answers.new (O.seen outside.new)) }
{
    match settle(alloc, world, outside, answers, place)? {
        Ending::Fine => Ok(Ending::Failed(fault)),
        Ending::Failed(other) => Ok(Ending::Failed(other)),
        Ending::GivenUp(limit) => Ok(Ending::GivenUp(limit)),
    }
}

// Does what an ask says.
#[cycle(nested)]
fn do_ask<O: Outside, T: Turn>(
    alloc: Global,
    world: &mut World<O::P, T>,
    outside: &mut O,
    answers: &mut Answers,
    place: Place,
    ask: Ask,
) -> Result<Ending, AllocError>
    requires { acts place.who world.old.flat ≡ true }
    ensures does { PartEnds result (λ m. ask_done Do place ask m) (under_way world.old.flat answers.old (O.seen outside.old)) (under_way world.new.flat answers.new (O.seen outside.new)) }
{
    match ask {
        Ask::Nothing => Ok(Ending::Fine),
        Ask::Commands(text) => run_text(alloc, world, outside, answers, place, text.as_slice()),
        Ask::Play(keys) => play(alloc, world, outside, answers, place, keys),
        Ask::Eval(text) => run_deeper(alloc, world, outside, answers, place, text.as_slice()),
        Ask::Try(texts) => try_texts(alloc, world, outside, answers, place, texts),
        Ask::Call(call) => call_text(alloc, world, outside, answers, place, call),
        Ask::Make(wanted) => make_and_use(alloc, world, outside, answers, place, wanted),
        Ask::Read(name) => read_and_show(alloc, world, outside, answers, place, name),
        Ask::Write(saving) => write_and_note(alloc, world, outside, answers, place, saving),
        Ask::Then(later) => go_on_later(alloc, world, outside, answers, place, later),
        Ask::Leave => {
            grant_leave(world, place.who);
            Ok(Ending::Fine)
        }
    }
}

// Goes on with a row, once the hooks of what it did were run.
#[cycle(nested)]
fn go_on_later<O: Outside, T: Turn>(
    alloc: Global,
    world: &mut World<O::P, T>,
    outside: &mut O,
    answers: &mut Answers,
    place: Place,
    later: Later,
) -> Result<Ending, AllocError>
    requires { acts place.who world.old.flat ≡ true }
    ensures does { PartEnds result (λ m. ask_done Do place (Then later) m) (under_way world.old.flat answers.old (O.seen outside.old)) (under_way world.new.flat answers.new (O.seen outside.new)) }
{
    let row = go_later(alloc, world, place.who, later);
    go_on(alloc, world, outside, answers, place, row)
}

// Has a pattern made, and goes on with the use of it that is wanted.
#[cycle(nested)]
fn make_and_use<O: Outside, T: Turn>(
    alloc: Global,
    world: &mut World<O::P, T>,
    outside: &mut O,
    answers: &mut Answers,
    place: Place,
    wanted: PatternUse,
) -> Result<Ending, AllocError>
    requires { acts place.who world.old.flat ≡ true }
    ensures does { PartEnds result (λ m. ask_done Do place (Make wanted) m) (under_way world.old.flat answers.old (O.seen outside.old)) (under_way world.new.flat answers.new (O.seen outside.new)) }
{
    let made = make(alloc, outside, wanted.pattern.as_slice())?;
    answers.push(made_told(&made))?;
    let row = finish(alloc, world, place.who, wanted.then, made);
    go_on(alloc, world, outside, answers, place, row)
}

// Has a file read, and shows it. What was read is shown first and kept then, so that its bytes aren't copied.
#[cycle(nested)]
fn read_and_show<O: Outside, T: Turn>(
    alloc: Global,
    world: &mut World<O::P, T>,
    outside: &mut O,
    answers: &mut Answers,
    place: Place,
    name: Utf8Text,
) -> Result<Ending, AllocError>
    requires { acts place.who world.old.flat ≡ true }
    ensures does { PartEnds result (λ m. ask_done Do place (Read name) m) (under_way world.old.flat answers.old (O.seen outside.old)) (under_way world.new.flat answers.new (O.seen outside.new)) }
{
    let read = outside.read(alloc, name.as_str())?;
    let row = open_read(alloc, world, place.who, name, &read);
    answers.push(read_told(read))?;
    go_on(alloc, world, outside, answers, place, row)
}

// Has a buffer written to a file, and goes on with whether it was.
#[cycle(nested)]
fn write_and_note<O: Outside, T: Turn>(
    alloc: Global,
    world: &mut World<O::P, T>,
    outside: &mut O,
    answers: &mut Answers,
    place: Place,
    saving: Saving,
) -> Result<Ending, AllocError>
    requires { acts place.who world.old.flat ≡ true }
    ensures does { PartEnds result (λ m. ask_done Do place (Write saving) m) (under_way world.old.flat answers.old (O.seen outside.old)) (under_way world.new.flat answers.new (O.seen outside.new)) }
{
    let put = write(alloc, world, outside, &saving)?;
    answers.push(put_told(put))?;
    let row = note_saved(alloc, world, place.who, saving, put);
    go_on(alloc, world, outside, answers, place, row)
}
