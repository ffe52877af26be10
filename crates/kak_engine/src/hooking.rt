//! Hooks that are run.
#![tactic(auto, using(kak_world::proofs::WorldLaws::world_laws))]

ghost use Rattle.std.specs.Prelude.{◌≡◌, true, IfOk, OnOk};
ghost use Rattle.kak_world.specs.Flat.{acts};
ghost use Rattle.kak_engine.specs.Doing.{Do, each, hook_flat, hook_end, run_hook as one, run_event as of_event, settle, task_settled, key_event, key_name, key_hooks, top};
ghost use Rattle.kak_engine.specs.Course.{NotesComing, NotesGoing};
ghost use Rattle.kak_engine.specs.Seen.{PartEnds, under_way, end_seen};

use crate::ending::Ending;
use crate::outside::Outside;
use crate::place::Place;
use crate::texts::run_deeper;
use byte_texts::Utf8Text;
use kak_world::{HookEvent, Mode, Turn, World};
use key_names::{Key, print_key};
use regex_ports::Pattern;
use scope_tables::{HookName, HookRef};
use session_events::Answers;
use std::alloc::{AllocError, Global};

/// A hook on an event of a parameter.
#[derive(Clone, Copy)]
pub(crate) struct HeardBy<'a> {
    pub(crate) parameter: &'a str,
    pub(crate) at: HookRef,
}

/// Hooks on an event of a parameter.
#[derive(Clone, Copy)]
pub(crate) struct Hearing<'a> {
    pub(crate) parameter: &'a str,
    pub(crate) found: &'a [HookRef],
}

/// A key that was run, by the mode in which it began.
#[derive(Clone, Copy)]
pub(crate) struct Struck {
    pub(crate) mode: Mode,
    pub(crate) key: Key,
}

// Tells a client of the error of a hook, which ends that alone.
fn end_hook<P: Pattern, T: Turn>(world: &mut World<P, T>, who: u32, ending: Ending) -> Ending
    requires { acts who world.old.flat ≡ true }
    ensures told { world.new.flat ≡ hook_flat who (end_seen ending) world.old.flat }
    ensures ends { end_seen result ≡ hook_end (end_seen ending) }
{
    match ending {
        Ending::Fine => Ending::Fine,
        Ending::Failed(fault) => {
            world.keep_fault(who, fault);
            Ending::Fine
        }
        Ending::GivenUp(limit) => Ending::GivenUp(limit),
    }
}

// Runs a hook, if it is held still. The parameter of its event counts meanwhile.
#[cycle(nested)]
fn run_hook<O: Outside, T: Turn>(
    alloc: Global,
    world: &mut World<O::P, T>,
    outside: &mut O,
    answers: &mut Answers,
    place: Place,
    hook: HeardBy<'_>,
) -> Result<Ending, AllocError>
    requires { acts place.who world.old.flat ≡ true }
    ensures does { PartEnds result (λ m. one Do place hook.entry.parameter.now hook.entry.at m) (under_way world.old.flat answers.old (O.seen outside.old)) (under_way world.new.flat answers.new (O.seen outside.new)) }
{
    let Some(text) = world.hook_text(alloc, hook.at)? else {
        return Ok(Ending::Fine);
    };
    let parameter = Utf8Text::from_str(alloc, hook.parameter)?;
    let former = world.begin_hook(hook.at, parameter);
    let ending = run_deeper(alloc, world, outside, answers, place, text.as_slice())?;
    let _given = world.set_parameter(former);
    Ok(end_hook(world, place.who, ending))
}

// Runs hooks, one after another.
#[cycle(nested)]
fn run_hooks<O: Outside, T: Turn>(
    alloc: Global,
    world: &mut World<O::P, T>,
    outside: &mut O,
    answers: &mut Answers,
    place: Place,
    hooks: Hearing<'_>,
) -> Result<Ending, AllocError>
    requires { acts place.who world.old.flat ≡ true }
    ensures does { PartEnds result (λ m. each (one Do place hooks.entry.parameter.now) hooks.entry.found.now m) (under_way world.old.flat answers.old (O.seen outside.old)) (under_way world.new.flat answers.new (O.seen outside.new)) }
{
    for at in hooks.found {
        let hook = HeardBy {
            parameter: hooks.parameter,
            at: *at,
        };
        match run_hook(alloc, world, outside, answers, place, hook)? {
            Ending::Fine => {}
            Ending::Failed(fault) => return Ok(Ending::Failed(fault)),
            Ending::GivenUp(limit) => return Ok(Ending::GivenUp(limit)),
        }
    }
    Ok(Ending::Fine)
}

// Runs the hooks of an event, which are found first.
#[cycle(nested)]
fn run_event<O: Outside, T: Turn>(
    alloc: Global,
    world: &mut World<O::P, T>,
    outside: &mut O,
    answers: &mut Answers,
    place: Place,
    event: &HookEvent,
) -> Result<Ending, AllocError>
    requires { acts place.who world.old.flat ≡ true }
    ensures does { PartEnds result (λ m. of_event Do place event.now m) (under_way world.old.flat answers.old (O.seen outside.old)) (under_way world.new.flat answers.new (O.seen outside.new)) }
{
    let found = world.hooks_heard(alloc, place.who, event)?;
    let hooks = Hearing {
        parameter: event.parameter.as_str(),
        found: found.as_slice(),
    };
    run_hooks(alloc, world, outside, answers, place, hooks)
}

// Runs the hooks of events, one after another.
#[cycle(nested)]
fn run_each_event<O: Outside, T: Turn>(
    alloc: Global,
    world: &mut World<O::P, T>,
    outside: &mut O,
    answers: &mut Answers,
    place: Place,
    events: &[HookEvent],
) -> Result<Ending, AllocError>
    requires { acts place.who world.old.flat ≡ true }
    ensures does { PartEnds result (λ m. each (of_event Do place) events.now m) (under_way world.old.flat answers.old (O.seen outside.old)) (under_way world.new.flat answers.new (O.seen outside.new)) }
{
    for event in events {
        match run_event(alloc, world, outside, answers, place, event)? {
            Ending::Fine => {}
            Ending::Failed(fault) => return Ok(Ending::Failed(fault)),
            Ending::GivenUp(limit) => return Ok(Ending::GivenUp(limit)),
        }
    }
    Ok(Ending::Fine)
}

/// Takes the events that are due, and runs their hooks where hooks are run. Where none is due it costs nothing.
#[cycle(nested)]
pub(crate) fn settle<O: Outside, T: Turn>(
    alloc: Global,
    world: &mut World<O::P, T>,
    outside: &mut O,
    answers: &mut Answers,
    place: Place,
) -> Result<Ending, AllocError>
    requires { acts place.who world.old.flat ≡ true }
    ensures does { PartEnds result (λ m. settle Do place m) (under_way world.old.flat answers.old (O.seen outside.old)) (under_way world.new.flat answers.new (O.seen outside.new)) }
{
    if world.due_count() == 0 {
        return Ok(Ending::Fine);
    }
    let due = world.take_due(alloc);
    if !place.hooks {
        return Ok(Ending::Fine);
    }
    run_each_event(alloc, world, outside, answers, place, due.as_slice())
}

// A key that was run, as hooks hear it.
fn key_event<P: Pattern, T: Turn>(
    alloc: Global,
    world: &World<P, T>,
    who: u32,
    name: HookName,
    key: Key,
) -> Result<HookEvent, AllocError>
    requires { acts who world.now.flat ≡ true }
    ensures { IfOk result (λ event. event ≡ key_event name key who world.now.flat) }
{
    Ok(HookEvent {
        name,
        parameter: Utf8Text::of_string(print_key(alloc, key)?),
        buffer: world.shown_number(who),
    })
}

// By which name hooks hear a key, by the mode in which it began.
fn key_name(mode: Mode) -> Option<HookName>
    ensures { result ≡ key_name mode }
{
    match mode {
        Mode::Normal => Some(HookName::NormalKey),
        Mode::Insert => Some(HookName::InsertKey),
        Mode::Prompt => None,
    }
}

/// Runs the hooks of a key. Where none of its name is held, nothing is written for it.
#[cycle(nested)]
pub(crate) fn hear_key<O: Outside, T: Turn>(
    alloc: Global,
    world: &mut World<O::P, T>,
    outside: &mut O,
    answers: &mut Answers,
    place: Place,
    struck: Struck,
) -> Result<Ending, AllocError>
    requires { acts place.who world.old.flat ≡ true }
    ensures does { PartEnds result (λ m. key_hooks Do place struck.mode struck.key m) (under_way world.old.flat answers.old (O.seen outside.old)) (under_way world.new.flat answers.new (O.seen outside.new)) }
{
    let Some(name) = key_name(struck.mode) else {
        return Ok(Ending::Fine);
    };
    if !place.hooks {
        return Ok(Ending::Fine);
    }
    if !world.has_hook(name) {
        return Ok(Ending::Fine);
    }
    let event = key_event(alloc, world, place.who, name, struck.key)?;
    run_event(alloc, world, outside, answers, place, &event)
}

/// Has hooks hear that a client came, whose turn it is, and runs them.
pub(crate) fn hear_coming<O: Outside, T: Turn>(
    alloc: Global,
    world: &mut World<O::P, T>,
    outside: &mut O,
    answers: &mut Answers,
    who: u32,
) -> Result<Ending, AllocError>
    requires { acts who world.old.flat ≡ true }
    ensures does { PartEnds result (λ m. task_settled Do (top who) NotesComing m) (under_way world.old.flat answers.old (O.seen outside.old)) (under_way world.new.flat answers.new (O.seen outside.new)) }
    ensures acts { OnOk result (acts who world.new.flat ≡ true) }
{
    world.note_coming(alloc, who)?;
    settle(alloc, world, outside, answers, Place::top(who))
}

/// Has hooks hear that a client is about to go, whose turn it is, and runs them. An `Err` comes only where a hook is held.
pub(crate) fn hear_going<O: Outside, T: Turn>(
    alloc: Global,
    world: &mut World<O::P, T>,
    outside: &mut O,
    answers: &mut Answers,
    who: u32,
) -> Result<Ending, AllocError>
    requires { acts who world.old.flat ≡ true }
    ensures does { PartEnds result (λ m. task_settled Do (top who) NotesGoing m) (under_way world.old.flat answers.old (O.seen outside.old)) (under_way world.new.flat answers.new (O.seen outside.new)) }
    ensures acts { OnOk result (acts who world.new.flat ≡ true) }
{
    world.note_going(alloc, who)?;
    settle(alloc, world, outside, answers, Place::top(who))
}
