//! The seats of an engine that nobody else uses.

ghost use Rattle.std.specs.Prelude.{◌≡◌, IfOk, IfErr, None};
ghost use Rattle.kak_engine.specs.Honesty.{IsUntouched, IsHonest, IsKept};
ghost use Rattle.kak_engine.specs.Seating.{new_seats, WasLost};
ghost use Rattle.kak_engine.specs.Steps.{answers_in, asked_in, exchanges, AllAsked};

use crate::engine::{Engine, NoEngine};
use crate::outside::Outside;
use session_events::{Event, Output, Seat, Seats, StepFault};
use std::alloc::Global;
use std::marker::Model;
use std::snapshot::Snapshot;

/// The seats of an engine that nobody else uses: its clients play one at a time, each while the seats are turned to it.
/// Contracts see what the engine holds, that client's number, and the outside as it was when the seats were made.
#[derive(Drop)]
pub struct EngineSeats<O: Outside> {
    engine: Engine<O>,
    who: u32,
    first: Snapshot<Engine<O>>,
}

impl<O: Outside> Model for EngineSeats<O> {
    ghost use Rattle.kak_engine.specs.Seating.{EngineSeated, WasHonest};

    ghost Value = { EngineSeated };

    ghost view = { λ s. record { engine = s.engine; who = s.who; first = s.first.value.outside } };

    ghost invariant = { λ s. WasHonest s.engine s.first.value.outside };
}

impl<O: Outside> EngineSeats<O> {
    /// Seats at a new engine with an outside, turned to a client. Nobody has come yet. The history may have so many entries,
    /// leavings aside. The outside's files hold what they held when they were made, where that is told.
    pub fn new(
        alloc: Global,
        outside: O,
        limit: u64,
        who: u32,
    ) -> Result<EngineSeats<O>, NoEngine<O>>
        requires { IsUntouched (O.seen outside).shelf.told }
        ensures new { IfOk result (λ s. s ≡ new_seats (O.seen outside) limit who) }
        ensures none { IfErr result (λ none. none.outside ≡ outside) }
    {
        let engine = Engine::new(alloc, outside, limit)?;
        let first = Snapshot::of(&engine);
        Ok(EngineSeats { engine, who, first })
    }

    /// Ends a session whose engine isn't broken, and gives the outside. In each entry it answered what it was asked for, it was asked
    /// for nothing else, and it was honest in all of them: what was exchanged with the files led from what they held when the
    /// seats were made to what they hold where they tell it, and their failures and the maker's refusals were counted.
    pub fn into_outside(self) -> O
        requires whole { self.engine.mark ≡ None }
        ensures honest { IsHonest (answers_in self.engine.history) (asked_in self.engine.history) self.first (O.seen result) }
        ensures kept { IsKept (exchanges self.engine.history) (O.seen result).shelf }
        ensures asked { AllAsked self.engine.history }
    {
        let EngineSeats {
            engine,
            who: _,
            first: _,
        } = self;
        engine.into_outside()
    }

    /// Ends a session for which memory was wanting: the texts of the engine are rescued, each that may differ from what was saved. If
    /// it is broken, they are those that its last step left. Gives the outside, which was asked for what the history says, for a
    /// beginning of what that step asks for, and for this, and for nothing else; and it was honest in all of that.
    pub fn rescue(self, alloc: Global) -> O
        ensures lost { WasLost self.engine.history self.engine.mark self.engine.inside self.first (O.seen result) }
        ensures asked { AllAsked self.engine.history }
    {
        let EngineSeats {
            mut engine,
            who: _,
            first: _,
        } = self;
        engine.inside_is_run();
        let _tried = engine.rescue(alloc);
        engine.into_outside()
    }
}

impl<O: Outside> Seat for EngineSeats<O> {
    ghost use Rattle.kak_engine.specs.Honesty.{Outside as Seen};
    ghost use Rattle.kak_engine.specs.Seating.{seat_of};
    ghost use Rattle.kak_engine.specs.Steps.{given_by, crowded_by, parting_by};

    ghost gives = { given_by };

    ghost crowded = { crowded_by };

    ghost parting = { parting_by };

    ghost seated = { seat_of };

    ghost Kept = { Seen };

    ghost kept = { λ s. s.first };

    fn step(&mut self, alloc: Global, event: &Event) -> Result<Output, StepFault> {
        self.engine.step(alloc, self.who, event)
    }
}

impl<O: Outside> Seats for EngineSeats<O> {
    ghost use Rattle.std.proofs.Common.{refl};

    fn turn_to(&mut self, who: u32) {
        self.who = who;
    }

    ghost alone = { λ seats. refl };
}
