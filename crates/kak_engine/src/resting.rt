//! The world of an engine, which is taken into a step and out of it again.

ghost use Rattle.std.specs.Prelude.{◌≡◌, ◌≤◌, ◌+◌, [], ◌++◌, ◌∷◌, length, true, false, IfOk, OnOk, OnErr, Some, None, vec_len, vec_capacity};
ghost use Rattle.kak_world.specs.Flat.{turn_of, is_joined};
ghost use Rattle.kak_world.specs.Events.{has_hooks};
ghost use Rattle.kak_world.specs.Stored.{LeavesSince, LeavesOthersOf};
ghost use Rattle.kak_world.specs.declared.world.TheConstants.{MAX_CLIENTS};
ghost use Rattle.session_events.specs.declared.event.Event.TheVariants.{Leave};
ghost use Rattle.session_events.specs.Entries.{entry_of, kind_of, is_join};
ghost use Rattle.kak_engine.specs.Steps.{after_event, output_of, asked_by, AreAskedFor, IsStepLeft};
ghost use Rattle.kak_engine.specs.Honesty.{IsHonest};
ghost use Rattle.kak_engine.specs.Held.{CanRun};

use crate::engine::{keep_leaving, run_with_places};
use crate::outside::Outside;
use kak_world::{AnyTurn, Turn, World};
use regex_ports::Pattern;
use session_events::{Answers, Entry, Event, Output};
use std::alloc::{AllocError, Global};
use std::marker::{Brand, Model};

/// A world between steps. It is taken out for each step, and put back behind it.
#[derive(Drop)]
pub(crate) struct RestingWorld<P: Pattern> {
    // there between any two calls
    world: Option<World<P, AnyTurn>>,
}

impl<P: Pattern> Model for RestingWorld<P> {
    ghost use Rattle.std.specs.Prelude.{◌≡◌, is_some, true};
    ghost use Rattle.kak_world.specs.Seen.{Kept};
    ghost use Rattle.kak_engine.specs.Held.{resting};

    ghost Value = { Kept };

    ghost view = { λ w. resting w.world };

    ghost invariant = { λ w. is_some w.world ≡ true };
}

impl<P: Pattern> RestingWorld<P> {
    /// A world that rests.
    pub(crate) fn new(world: World<P, AnyTurn>) -> RestingWorld<P>
        ensures { result ≡ world }
    {
        RestingWorld { world: Some(world) }
    }

    /// The world.
    pub(crate) fn get(&self) -> &World<P, AnyTurn>
        ensures { result.now ≡ self.now }
    {
        match &self.world {
            Some(world) => world,
            None => unreachable!(),
        }
    }
}

// Takes a world into a step of a client, runs an event there that is not refused, and takes it out again. Places are kept for its
// entry, and for the going of each client that is here then.
fn run_inside<O: Outside, T: Turn>(
    alloc: Global,
    world: World<O::P, AnyTurn>,
    outside: &mut O,
    answers: &mut Answers,
    history: &mut Vec<Entry>,
    who: u32,
    event: &Event,
) -> (World<O::P, AnyTurn>, Result<Output, AllocError>)
    requires began { T.began ≡ Some (record { who = who; stored = world.stored }) }
    requires nobody { turn_of world.flat ≡ None }
    requires runs { CanRun (kind_of event.now) who world.flat }
    requires fresh { answers.old ≡ [] }
    requires few { length world.flat.clients ≤ MAX_CLIENTS }
    ensures gives { IfOk result.1 (λ output. output ≡ output_of who event.now answers.new world.flat) }
    ensures leads { OnOk result.1 (result.0.flat ≡ after_event who event.now answers.new world.flat) }
    ensures asked { OnOk result.1 (AreAskedFor who event.now answers.new world.flat) }
    ensures honest { OnOk result.1 (IsHonest answers.new (asked_by who event.now answers.new world.flat) (O.seen outside.old) (O.seen outside.new)) }
    ensures joined { OnOk result.1 (is_join event.now ≡ true → is_joined who result.0.flat ≡ true) }
    ensures places { OnOk result.1 (vec_len history.new + 1 + length result.0.flat.clients ≤ vec_capacity history.new) }
    ensures same { history.new.items ≡ history.old.items }
    ensures cut { OnErr result.1 (IsStepLeft who event.now world.flat result.0.flat (O.seen outside.old) (O.seen outside.new)) }
    ensures others { LeavesSince T.began result.0.stored }
{
    let mut stepping = world.into_step::<T>(who);
    let ran = run_with_places(alloc, &mut stepping, outside, answers, history, who, event);
    (stepping.out_of_step(), ran)
}

// Runs an event that is not refused in a step of its client. Places are kept for its entry, and for the going of each client that
// is here then. What others have stored is left as it is.
pub(crate) fn run_in_step<O: Outside>(
    alloc: Global,
    resting: &mut RestingWorld<O::P>,
    outside: &mut O,
    answers: &mut Answers,
    history: &mut Vec<Entry>,
    who: u32,
    event: &Event,
) -> Result<Output, AllocError>
    requires nobody { turn_of resting.old.flat ≡ None }
    requires runs { CanRun (kind_of event.now) who resting.old.flat }
    requires fresh { answers.old ≡ [] }
    requires few { length resting.old.flat.clients ≤ MAX_CLIENTS }
    ensures gives { IfOk result (λ output. output ≡ output_of who event.now answers.new resting.old.flat) }
    ensures leads { OnOk result (resting.new.flat ≡ after_event who event.now answers.new resting.old.flat) }
    ensures asked { OnOk result (AreAskedFor who event.now answers.new resting.old.flat) }
    ensures honest { OnOk result (IsHonest answers.new (asked_by who event.now answers.new resting.old.flat) (O.seen outside.old) (O.seen outside.new)) }
    ensures joined { OnOk result (is_join event.now ≡ true → is_joined who resting.new.flat ≡ true) }
    ensures places { OnOk result (vec_len history.new + 1 + length resting.new.flat.clients ≤ vec_capacity history.new) }
    ensures same { history.new.items ≡ history.old.items }
    ensures cut { OnErr result (IsStepLeft who event.now resting.old.flat resting.new.flat (O.seen outside.old) (O.seen outside.new)) }
    ensures others { LeavesOthersOf who resting.old.stored resting.new.stored }
{
    let Some(world) = resting.world.take() else {
        unreachable!()
    };
    let (world, ran) = run_inside::<O, Brand>(alloc, world, outside, answers, history, who, event);
    resting.world = Some(world);
    ran
}

// Takes a world in which no hook is held into a step of a client, lets the client go there, and takes it out again. The entry is
// added, for which a place was kept.
fn leave_inside<P: Pattern, T: Turn>(
    alloc: Global,
    world: World<P, AnyTurn>,
    history: &mut Vec<Entry>,
    who: u32,
) -> (World<P, AnyTurn>, Output)
    requires began { T.began ≡ Some (record { who = who; stored = world.stored }) }
    requires nobody { turn_of world.flat ≡ None }
    requires joined { is_joined who world.flat ≡ true }
    requires calm { has_hooks world.flat ≡ false }
    requires places { vec_len history.old + length world.flat.clients ≤ vec_capacity history.old }
    ensures gives { result.1 ≡ output_of who Leave [] world.flat }
    ensures leads { result.0.flat ≡ after_event who Leave [] world.flat }
    ensures asked { AreAskedFor who Leave [] world.flat }
    ensures none { asked_by who Leave [] world.flat ≡ [] }
    ensures keeps { history.new.items ≡ history.old.items ++ entry_of who Leave ∷ [] }
    ensures places { vec_len history.new + length result.0.flat.clients ≤ vec_capacity history.new }
    ensures others { LeavesSince T.began result.0.stored }
{
    let mut stepping = world.into_step::<T>(who);
    let output = keep_leaving(alloc, &mut stepping, history, who);
    (stepping.out_of_step(), output)
}

// Lets a client go in a step of its own, where no hook is held, and adds the entry, for which a place was kept. What others have
// stored is left as it is.
pub(crate) fn leave_in_step<P: Pattern>(
    alloc: Global,
    resting: &mut RestingWorld<P>,
    history: &mut Vec<Entry>,
    who: u32,
) -> Output
    requires nobody { turn_of resting.old.flat ≡ None }
    requires joined { is_joined who resting.old.flat ≡ true }
    requires calm { has_hooks resting.old.flat ≡ false }
    requires places { vec_len history.old + length resting.old.flat.clients ≤ vec_capacity history.old }
    ensures gives { result ≡ output_of who Leave [] resting.old.flat }
    ensures leads { resting.new.flat ≡ after_event who Leave [] resting.old.flat }
    ensures asked { AreAskedFor who Leave [] resting.old.flat }
    ensures none { asked_by who Leave [] resting.old.flat ≡ [] }
    ensures keeps { history.new.items ≡ history.old.items ++ entry_of who Leave ∷ [] }
    ensures places { vec_len history.new + length resting.new.flat.clients ≤ vec_capacity history.new }
    ensures others { LeavesOthersOf who resting.old.stored resting.new.stored }
{
    let Some(world) = resting.world.take() else {
        unreachable!()
    };
    let (world, output) = leave_inside::<P, Brand>(alloc, world, history, who);
    resting.world = Some(world);
    output
}
