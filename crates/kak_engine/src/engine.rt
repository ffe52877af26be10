//! The engine: the world, and the history that led to it.
#![tactic(auto, using(kak_world::proofs::WorldLaws::world_laws, crate::proofs::KeepingLaws::joined_key))]

ghost use Rattle.std.specs.Prelude.{◌≡◌, ◌≤◌, ◌⊎◌, [], ◌∷◌, ◌++◌, length, true, None, Some, Err, IfOk, IfErr, IfSome, OnErr, OnOk, IsOk, false, ◌+◌, vec_len, vec_capacity};
ghost use Rattle.std.specs.Ordering.{nat_cmp};
ghost use Rattle.std.specs.BTreeSet.{contains};
ghost use Rattle.text_model.specs.Texts.{line_count};
ghost use Rattle.kak_world.specs.Flat.{is_joined, text_of, sels_of};
ghost use Rattle.kak_world.specs.Settled.{AllListsSettled};
ghost use Rattle.kak_world.specs.Events.{has_hooks};
ghost use Rattle.kak_world.specs.Stored.{IsStepOf, LeavesOthersOf};
ghost use Rattle.kak_world.specs.declared.world.TheConstants.{MAX_CLIENTS};
ghost use Rattle.kak_engine.specs.Steps.{after_event, output_of, asked_by, exchanges, run, parting_by, AreAskedFor, AllAsked, IsStepLeft};
ghost use Rattle.kak_engine.specs.Honesty.{IsUntouched, IsHonest, IsKept};
ghost use Rattle.kak_engine.specs.Held.{new_engine, event_refusal, refused_by, marked_after, marked_by, CanRun, TakesEvent, CutsEvent, LeavesInside};
ghost use Rattle.session_events.specs.declared.event.Event.TheVariants.{Leave};
ghost use Rattle.session_events.specs.declared.fault.StepFault.TheVariants.{NoMemory};
ghost use Rattle.session_events.specs.Entries.{entry_of, kind_of, is_join, is_leave, has_joined};
ghost use Rattle.session_events.specs.Legal.{Away, is_here as is_in, presence_from, IsLegal};

use crate::events::run_event;
use crate::joined::{is_known, note_coming};
use crate::outside::Outside;
use crate::resting::{RestingWorld, leave_in_step, run_in_step};
use kak_world::{AnyTurn, MAX_CLIENTS, Turn, World};
use regex_ports::Pattern;
use session_events::{Answers, Entry, Event, Output, StepFault, is_join, is_leave};
use std::alloc::{AllocError, Global};
use std::collections::BTreeSet;
use std::marker::Model;

/// How many units a key has: each command, and each further run of a count, takes one.
pub const MAX_UNITS: u32 = 4_096;

/// No engine could be made, since memory was wanting; its outside is given back.
#[derive(Drop, Debug)]
pub struct NoEngine<O> {
    pub outside: O,
}

/// The engine. Contracts see its history, its mark, its limit, what its outside is seen as, the world inside it, which
/// follows from the history where the engine isn't broken, and whether its texts were rescued.
#[derive(Drop)]
pub struct Engine<O: Outside> {
    pub(crate) world: RestingWorld<O::P>,
    pub(crate) outside: O,
    history: Vec<Entry>,
    joined: BTreeSet<u32>,
    limit: u64,
    pub(crate) mark: Option<u64>,
    pub(crate) rescued: bool,
}

impl<O: Outside> Model for Engine<O> {
    ghost use Rattle.std.specs.Prelude.{vec_len, vec_capacity};
    ghost use Rattle.kak_engine.specs.Held.{HeldEngine, EngineStands, KeepsPlaces, files_told};
    ghost use Rattle.kak_engine.specs.Joined.{KnowsJoined};

    ghost Value = { HeldEngine };

    ghost view = { λ e. record { history = e.history.items; mark = e.mark; limit = e.limit; outside = O.seen e.outside; inside = e.world.flat; stored = e.world.stored; rescued = e.rescued } };

    ghost invariant = { λ e. EngineStands e.world.flat e.history.items e.mark e.limit (files_told e.rescued (O.seen e.outside).shelf) × KeepsPlaces e.mark e.world.flat (vec_len e.history) (vec_capacity e.history) × KnowsJoined e.mark e.joined e.history.items };
}

// Why an event of a client is refused by an engine that isn't broken, if it is.
fn refusal_by<P: Pattern, T: Turn>(
    world: &World<P, T>,
    joined: &BTreeSet<u32>,
    history: &[Entry],
    limit: u64,
    who: u32,
    event: &Event,
) -> Option<StepFault>
    requires world { world.now.flat ≡ run history.now }
    requires known { is_joined who world.now.flat ≡ is_in (presence_from who Away history.now) }
    requires numbers { contains nat_cmp joined.now who ≡ has_joined who history.now }
    ensures { result ≡ refused_by history.now limit who event.now }
{
    let joins = is_join(event);
    if !joins && !world.is_joined(who) {
        return Some(StepFault::NoClient(who));
    }
    if joins && is_known(joined, who) {
        return Some(StepFault::Joined(who));
    }
    if !is_leave(event) && history.len() as u64 >= limit {
        return Some(StepFault::HistoryFull);
    }
    if joins && world.client_count() >= MAX_CLIENTS {
        return Some(StepFault::Full);
    }
    None
}

// Lets a client go where no hook is held, and adds the entry, for which a place was kept.
pub(crate) fn keep_leaving<P: Pattern, T: Turn>(
    alloc: Global,
    world: &mut World<P, T>,
    history: &mut Vec<Entry>,
    who: u32,
) -> Output
    requires own { IsStepOf who T.began }
    requires joined { is_joined who world.old.flat ≡ true }
    requires calm { has_hooks world.old.flat ≡ false }
    requires places { vec_len history.old + length world.old.flat.clients ≤ vec_capacity history.old }
    ensures gives { result ≡ output_of who Leave [] world.old.flat }
    ensures leads { world.new.flat ≡ after_event who Leave [] world.old.flat }
    ensures asked { AreAskedFor who Leave [] world.old.flat }
    ensures none { asked_by who Leave [] world.old.flat ≡ [] }
    ensures keeps { history.new.items ≡ history.old.items ++ entry_of who Leave ∷ [] }
    ensures places { vec_len history.new + length world.new.flat.clients ≤ vec_capacity history.new }
{
    world.end_step();
    world.leave(who);
    history.push_reserved(Entry {
        who,
        event: Event::Leave,
        answers: Answers::new(alloc),
    });
    Output::nothing()
}

// Runs an event that is not refused. Places are kept for its entry, and for the going of each client that is here then.
pub(crate) fn run_with_places<O: Outside, T: Turn>(
    alloc: Global,
    world: &mut World<O::P, T>,
    outside: &mut O,
    answers: &mut Answers,
    history: &mut Vec<Entry>,
    who: u32,
    event: &Event,
) -> Result<Output, AllocError>
    requires own { IsStepOf who T.began }
    requires runs { CanRun (kind_of event.now) who world.old.flat }
    requires fresh { answers.old ≡ [] }
    requires few { length world.old.flat.clients ≤ MAX_CLIENTS }
    ensures gives { IfOk result (λ output. output ≡ output_of who event.now answers.new world.old.flat) }
    ensures leads { OnOk result (world.new.flat ≡ after_event who event.now answers.new world.old.flat) }
    ensures asked { OnOk result (AreAskedFor who event.now answers.new world.old.flat) }
    ensures honest { OnOk result (IsHonest answers.new (asked_by who event.now answers.new world.old.flat) (O.seen outside.old) (O.seen outside.new)) }
    ensures joined { OnOk result (is_join event.now ≡ true → is_joined who world.new.flat ≡ true) }
    ensures places { OnOk result (vec_len history.new + 1 + length world.new.flat.clients ≤ vec_capacity history.new) }
    ensures same { history.new.items ≡ history.old.items }
    ensures cut { OnErr result (IsStepLeft who event.now world.old.flat world.new.flat (O.seen outside.old) (O.seen outside.new)) }
{
    let output = run_event(alloc, world, outside, answers, who, event)?;
    history.reserve(1 + world.client_count())?;
    Ok(output)
}

impl<O: Outside> Engine<O> {
    /// An engine with an empty history, which may have so many entries (leaving aside), with an outside. The outside's files
    /// hold what they held when they were made, where that is told.
    pub fn new(alloc: Global, outside: O, limit: u64) -> Result<Engine<O>, NoEngine<O>>
        requires { IsUntouched (O.seen outside).shelf.told }
        ensures new { IfOk result (λ e. e ≡ new_engine (O.seen outside) limit) }
        ensures none { IfErr result (λ none. none.outside ≡ outside) }
    {
        match World::<O::P, AnyTurn>::new(alloc) {
            Ok(world) => Ok(Engine {
                world: RestingWorld::new(world),
                outside,
                history: Vec::new(alloc),
                joined: BTreeSet::new(alloc),
                limit,
                mark: None,
                rescued: false,
            }),
            Err(_) => Err(NoEngine { outside }),
        }
    }

    /// The outside, as it was seen: what its files hold, how often they failed and how often its maker of patterns refused, and
    /// what it was asked for, is what the steps say. Nothing else is said of it, neither of a file's content where the files
    /// don't tell it, nor of what a later call of it answers beyond what its own contract says.
    pub fn into_outside(self) -> O
        ensures outside { O.seen result ≡ self.outside }
        ensures kept { self.mark ≡ None → self.rescued ≡ false → IsKept (exchanges self.history) self.outside.shelf }
        ensures asked { AllAsked self.history }
    {
        let Engine {
            world: _,
            outside,
            history: _,
            joined: _,
            limit: _,
            mark: _,
            rescued: _,
        } = self;
        outside
    }

    /// The entries, in order. Each client comes first and once, and makes nothing behind its going; behind as many entries
    /// as there may be, there are leavings alone; and never are more than 64 clients here. In each the outside answered what it
    /// was asked for. A mark is the number of the entries.
    pub fn history(&self) -> &[Entry]
        ensures value { result.now ≡ self.now.history }
        ensures legal { IsLegal self.now.limit self.now.history }
        ensures asked { AllAsked self.now.history }
        ensures marked { IfSome self.now.mark (λ at. at ≡ length self.now.history) }
    {
        self.history.as_slice()
    }

    /// A law: where the engine isn't broken, and its texts weren't rescued, what was exchanged with the files in its history led
    /// from what they held when they were made to what they hold, where they tell it.
    pub fn files_are_kept(&self)
        ensures { self.now.mark ≡ None → self.now.rescued ≡ false → IsKept (exchanges self.now.history) self.now.outside.shelf }
    {
        let _ = &self.world;
    }

    /// A law: where the engine isn't broken, every selection list on every buffer is settled, and lies inside the buffer's
    /// text; and no more clients are here than may be.
    pub fn lists_are_settled(&self)
        ensures lists { self.now.mark ≡ None → AllListsSettled (run self.now.history) }
        ensures few { self.now.mark ≡ None → length (run self.now.history).clients ≤ MAX_CLIENTS }
    {
        self.world.get().lists_are_held();
    }

    /// A law: where the engine isn't broken, the world inside it is the run of its history.
    pub fn inside_is_run(&self)
        ensures { self.now.mark ≡ None → self.now.inside ≡ run self.now.history }
    {
        let _ = &self.world;
    }

    /// How many entries there are.
    pub fn count(&self) -> u64
        ensures { result ≡ length self.now.history }
    {
        self.history.len() as u64
    }

    /// How many characters the text has that a client sees. The engine isn't broken, and the client is here.
    pub fn chars(&self, who: u32) -> u64
        requires whole { self.now.mark ≡ None }
        requires here { is_in (presence_from who Away self.now.history) ≡ true }
        ensures { result ≡ length (text_of who (run self.now.history)) }
    {
        self.world.get().lines(who).len() as u64
    }

    /// How many lines the text has that a client sees. The engine isn't broken, and the client is here.
    pub fn lines(&self, who: u32) -> u64
        requires whole { self.now.mark ≡ None }
        requires here { is_in (presence_from who Away self.now.history) ≡ true }
        ensures { result ≡ line_count (text_of who (run self.now.history)) }
    {
        self.world.get().lines(who).line_count() as u64
    }

    /// How many selections a client has on the text that it sees. The engine isn't broken, and the client is here. An error is
    /// want of memory.
    pub fn sels(&self, alloc: Global, who: u32) -> Result<u64, AllocError>
        requires whole { self.now.mark ≡ None }
        requires here { is_in (presence_from who Away self.now.history) ≡ true }
        ensures { IfOk result (λ count. count ≡ length (sels_of who (run self.now.history)).list) }
    {
        Ok(self.world.get().sel_count(alloc, who)? as u64)
    }

    // Why an event of a client is refused, if it is.
    fn refusal(&self, who: u32, event: &Event) -> Option<StepFault>
        ensures refused { result ≡ event_refusal self.now who event.now }
        ensures legal { IsLegal self.now.limit self.now.history }
    {
        if let Some(at) = self.mark {
            return Some(StepFault::Broken(at));
        }
        refusal_by(
            self.world.get(),
            &self.joined,
            self.history.as_slice(),
            self.limit,
            who,
            event,
        )
    }

    // Runs an event that is not refused, and keeps its entry. It can't fail where a client leaves and no hook is held.
    fn run_and_keep(&mut self, alloc: Global, who: u32, event: &Event) -> Result<Output, AllocError>
        requires allowed { event_refusal self.old who event.now ≡ None }
        ensures takes { IfOk result (λ output. TakesEvent who event.now self.old self.new output) }
        ensures marked { OnOk result (self.new.mark ≡ self.old.mark) }
        ensures joined { OnOk result (is_leave event.now ≡ false → is_in (presence_from who Away self.new.history) ≡ true) }
        ensures err { OnErr result (self.new.history ≡ self.old.history) }
        ensures cut { OnErr result (CutsEvent who event.now self.old self.new) }
        ensures left { OnErr result (LeavesInside who event.now self.old self.new) }
        ensures breaks { OnErr result (self.new.mark ≡ marked_by self.old.mark (length self.old.history)) }
        ensures leaves { is_leave event.now ≡ true → parting_by self.old.history ≡ false → IsOk result }
        ensures others { LeavesOthersOf who self.old.stored self.new.stored }
        ensures limit { self.new.limit ≡ self.old.limit }
        ensures rescued { self.new.rescued ≡ self.old.rescued }
        ensures legal { IsLegal self.new.limit self.new.history }
    {
        if is_leave(event) && !self.world.get().has_hooks() {
            return Ok(leave_in_step(alloc, &mut self.world, &mut self.history, who));
        }
        let Ok(()) = note_coming(&mut self.joined, who, event) else {
            self.mark = Some(self.history.len() as u64);
            return Err(AllocError);
        };
        let mut answers = Answers::new(alloc);
        let ran = run_in_step(
            alloc,
            &mut self.world,
            &mut self.outside,
            &mut answers,
            &mut self.history,
            who,
            event,
        );
        match ran {
            Ok(output) => {
                self.history.push_reserved(Entry {
                    who,
                    event: *event,
                    answers,
                });
                Ok(output)
            }
            Err(error) => {
                self.mark = Some(self.history.len() as u64);
                Err(error)
            }
        }
    }

    /// Takes one event of a client. On Ok it stands as the last entry of the history, with what the outside answered, and the
    /// output is what it gives on the world that the history led to; unless it left, the client is here. Refusals are tested
    /// in the order `Broken`, `NoClient`, `Joined`, `HistoryFull`, `Full`; they change nothing. `NoMemory` adds no entry, and
    /// breaks the engine; the outside was then asked for a beginning of what the event asks for, and the world inside is as it was
    /// part of the way through the last task that began in the event, or behind that task or the whole event; where none began, it
    /// is as before. A client's going never wants memory where no hook is held.
    pub fn step(&mut self, alloc: Global, who: u32, event: &Event) -> Result<Output, StepFault>
        ensures refused { IfSome (event_refusal self.old who event.now) (λ fault. (result ≡ Err fault) × (self.new.outside ≡ self.old.outside)) }
        ensures answered { event_refusal self.old who event.now ≡ None → IfErr result (λ fault. (fault ≡ NoMemory) × ((is_leave event.now ≡ false) ⊎ (parting_by self.old.history ≡ true))) }
        ensures takes { IfOk result (λ output. TakesEvent who event.now self.old self.new output) }
        ensures joined { OnOk result (is_leave event.now ≡ false → is_in (presence_from who Away self.new.history) ≡ true) }
        ensures err { OnErr result (self.new.history ≡ self.old.history) }
        ensures cut { event_refusal self.old who event.now ≡ None → OnErr result (CutsEvent who event.now self.old self.new) }
        ensures left { event_refusal self.old who event.now ≡ None → OnErr result (LeavesInside who event.now self.old self.new) }
        ensures stays { IfSome (event_refusal self.old who event.now) (λ fault. self.new.inside ≡ self.old.inside) }
        ensures others { LeavesOthersOf who self.old.stored self.new.stored }
        ensures mark { self.new.mark ≡ marked_after result self.old }
        ensures limit { self.new.limit ≡ self.old.limit }
        ensures rescued { self.new.rescued ≡ self.old.rescued }
        ensures legal { IsLegal self.new.limit self.new.history }
    {
        if let Some(fault) = self.refusal(who, event) {
            return Err(fault);
        }
        match self.run_and_keep(alloc, who, event) {
            Ok(output) => Ok(output),
            Err(_) => Err(StepFault::NoMemory),
        }
    }
}
