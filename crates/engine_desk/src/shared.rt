//! An engine that is played at a desk.

ghost use Rattle.std.specs.Prelude.{◌≡◌, ◌==◌, ◌<◌, ◌+◌, ◌^◌, ◌&&◌, if◌then◌else◌, IfOk, IfErr, IfSome, None, true, length, vec_len, vec_capacity};
ghost use Rattle.std.specs.List.{list_any};
ghost use Rattle.session_events.specs.Entries.{is_coming};
ghost use Rattle.session_events.specs.Legal.{IsLegal};
ghost use Rattle.session_events.specs.Missing.{has_news};
ghost use Rattle.kak_engine.specs.Honesty.{IsUntouched};
ghost use Rattle.kak_engine.specs.Seating.{IsRescuedIf};
ghost use Rattle.kak_engine.specs.Steps.{AllAsked};
ghost use Rattle.session_events.specs.Counting.{here_after};
ghost use Rattle.engine_desk.specs.Sharing.{new_shared, frame_of, marked_behind};

use crate::closed::ClosedEngine;
use crate::frame::EngineFrame;
use crate::glimpse::Glimpse;
use kak_engine::{Engine, NoEngine, Outside};
use kak_world::MAX_CLIENTS;
use session_desk::Played;
use session_events::{Entry, Event, Kind, Output, StepFault, has_news, kind_of};
use std::alloc::Global;
use std::marker::Model;
use std::snapshot::Snapshot;

/// An engine that is played at a desk. Contracts see what the engine holds, and the outside as it was when it was made.
#[derive(Drop)]
pub struct SharedEngine<O: Outside> {
    engine: Engine<O>,
    first: Snapshot<Engine<O>>,
    here: Vec<u32>,
    joins: u64,
    mark: Option<u64>,
}

impl<O: Outside> Model for SharedEngine<O> {
    ghost use Rattle.std.specs.Prelude.{vec_capacity};
    ghost use Rattle.kak_engine.specs.Seating.{WasHonest};
    ghost use Rattle.engine_desk.specs.Sharing.{Shared, IsBeside};

    ghost Value = { Shared };

    ghost view = { λ s. record { engine = s.engine; first = s.first.value.outside } };

    ghost invariant = { λ s. WasHonest s.engine s.first.value.outside × IsBeside s.engine s.here.items (vec_capacity s.here) s.joins s.mark };
}

// Notes who is here, and how many have come, behind an event of some kind that was taken.
fn note(here: &mut Vec<u32>, joins: &mut u64, who: u32, kind: Kind)
    requires room { is_coming kind ≡ true → vec_len here.old < vec_capacity here.old }
    requires fits { joins.old < 2 ^ 63 }
    ensures here { here.new.items ≡ here_after who kind here.old.items }
    ensures joins { joins.new ≡ joins.old + (if is_coming kind then 1 else 0) }
    ensures room { vec_capacity here.new ≡ vec_capacity here.old }
{
    match kind {
        Kind::Coming => {
            here.push_reserved(who);
            *joins += 1;
        }
        Kind::Doing => {}
        Kind::Drawing => {}
        Kind::Going => here.retain(|number| *number != who),
    }
}

// The mark behind a refusal at so many entries.
fn mark_behind(fault: StepFault, mark: Option<u64>, count: u64) -> Option<u64>
    ensures { result ≡ marked_behind fault mark count }
{
    match fault {
        StepFault::NoMemory => mark.or(Some(count)),
        _ => mark,
    }
}

// Whether a client has missed something, where those are here.
fn is_stale(here: &[u32], history: &[Entry], who: u32) -> bool
    ensures { result ≡ (list_any (λ number. number == who) here.now && has_news who history.now) }
{
    here.contains(&who) && has_news(history, who)
}

impl<O: Outside> SharedEngine<O> {
    /// An engine with an empty history, which may have so many entries (leaving aside), with an outside. The outside's files
    /// hold what they held when they were made, where that is told.
    pub fn new(alloc: Global, outside: O, limit: u64) -> Result<SharedEngine<O>, NoEngine<O>>
        requires { IsUntouched (O.seen outside).shelf.told }
        ensures new { IfOk result (λ s. s ≡ new_shared (O.seen outside) limit) }
        ensures none { IfErr result (λ none. none.outside ≡ outside) }
    {
        let Ok(here) = Vec::with_capacity(alloc, MAX_CLIENTS) else {
            return Err(NoEngine { outside });
        };
        let engine = Engine::new(alloc, outside, limit)?;
        let first = Snapshot::of(&engine);
        Ok(SharedEngine {
            engine,
            first,
            here,
            joins: 0,
            mark: None,
        })
    }

    /// Ends the session: nobody plays it on. Where the engine is broken, the texts that its last step left are rescued, each that
    /// may differ from what was saved; its history and its mark stay.
    pub fn close(self, alloc: Global) -> ClosedEngine<O>
        ensures rescued { IsRescuedIf self.engine.mark self.engine result.engine }
        ensures history { result.engine.history ≡ self.engine.history }
        ensures mark { result.engine.mark ≡ self.engine.mark }
        ensures frame { frame_of result ≡ frame_of self }
    {
        let SharedEngine {
            engine,
            first,
            here: _,
            joins: _,
            mark: _,
        } = self;
        ClosedEngine::of(alloc, engine, first)
    }

    /// The entries, in order. Each client comes first and once, and makes nothing behind its going; behind as many entries
    /// as there may be, there are leavings alone; and never are more than 64 clients here. In each the outside answered what it
    /// was asked for. A mark is the number of the entries.
    pub fn history(&self) -> &[Entry]
        ensures value { result.now ≡ self.now.engine.history }
        ensures legal { IsLegal self.now.engine.limit self.now.engine.history }
        ensures asked { AllAsked self.now.engine.history }
        ensures marked { IfSome self.now.engine.mark (λ at. at ≡ length self.now.engine.history) }
    {
        self.engine.history()
    }
}

impl<O: Outside + Drop> Played for SharedEngine<O> {
    ghost use Rattle.engine_desk.specs.Sharing.{frame_of, MoveAnswers, Shows};

    type Move = Event;

    type Reply = Output;

    type Fault = StepFault;

    type Glimpse = Glimpse;

    type Entry = Entry;

    type Frame = EngineFrame<O>;

    ghost entries = { λ s. s.engine.history };

    ghost maker = { λ entry. entry.who };

    ghost marked = { λ s. s.engine.mark };

    ghost frame = { frame_of };

    ghost answers = { MoveAnswers };

    ghost shows = { Shows };

    fn play(&mut self, alloc: Global, who: u32, mv: &Event) -> Result<Output, StepFault> {
        let count = self.count();
        let kind = kind_of(mv);
        match self.engine.step(alloc, who, mv) {
            Ok(output) => {
                note(&mut self.here, &mut self.joins, who, kind);
                Ok(output)
            }
            Err(fault) => {
                self.mark = mark_behind(fault, self.mark, count);
                Err(fault)
            }
        }
    }

    fn count(&self) -> u64 {
        self.engine.history().len() as u64
    }

    fn mark(&self) -> Option<u64> {
        self.mark
    }

    fn glimpse(&self, who: u32) -> Glimpse {
        Glimpse {
            stale: is_stale(&self.here, self.engine.history(), who),
            joined: self.here.len() as u32,
            joins: self.joins,
            broken: self.mark,
        }
    }
}
