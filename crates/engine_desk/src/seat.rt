//! The seat of one client at a desk.

ghost use Rattle.std.specs.Prelude.{◌≡◌};
ghost use Rattle.session_turns.specs.Growth.{Begins};
ghost use Rattle.session_desk.specs.Histories.{Met};
ghost use Rattle.session_desk.specs.Tokens.{IsOf};
ghost use Rattle.engine_desk.specs.Sitting.{new_seat, told_behind, missed_behind};

use crate::shared::SharedEngine;
use kak_engine::Outside;
use session_desk::{Desk, Pass};
use session_events::{Event, Kind, LiveSeat, Missed, Output, Seat, StepFault, kind_of};
use std::alloc::Global;
use std::marker::Model;
use std::snapshot::Snapshot;
use std::sync::Wait;

/// The seat of one client at a desk, at which others play too. Contracts see the desk, the client's pass, what this had seen
/// when the seat was made, and the mark of the session where the client was told it.
#[derive(Drop)]
pub struct DeskSeat<'a, R: Wait, O: Outside + Drop> {
    rt: &'a R,
    desk: &'a Desk<SharedEngine<O>>,
    pass: Pass<SharedEngine<O>>,
    first: Snapshot<Pass<SharedEngine<O>>>,
    told: Option<u64>,
    missed: Option<bool>,
}

impl<'a, R: Wait, O: Outside + Drop> Model for DeskSeat<'a, R, O> {
    ghost use Rattle.engine_desk.specs.Sitting.{DeskSeated, IsAtDesk};

    ghost Value = { DeskSeated };

    ghost view = { λ s. record { home = s.desk.now; pass = s.pass; first = s.first.value.seen; told = s.told } };

    ghost invariant = { λ s. IsAtDesk s.desk.now s.pass s.first.value.seen s.told s.missed };
}

// The mark that the client was told, behind a refusal at so many entries.
fn told_by(fault: StepFault, told: Option<u64>, count: u64) -> Option<u64>
    ensures { result ≡ told_behind fault told count }
{
    match fault {
        StepFault::Broken(at) => Some(at),
        StepFault::NoMemory => Some(count),
        _ => told,
    }
}

// Whether the client has missed something behind an event of its own, of some kind.
fn misses(kind: Kind) -> bool
    ensures { result ≡ missed_behind kind }
{
    !matches!(kind, Kind::Drawing | Kind::Going)
}

impl<'a, R: Wait, O: Outside + Drop> DeskSeat<'a, R, O> {
    /// The seat of the client whose pass this is.
    pub fn new(
        rt: &'a R,
        desk: &'a Desk<SharedEngine<O>>,
        pass: Pass<SharedEngine<O>>,
    ) -> DeskSeat<'a, R, O>
        requires { IsOf pass.place desk.now }
        ensures { result ≡ new_seat desk.now pass }
    {
        let first = Snapshot::of(&pass);
        DeskSeat {
            rt,
            desk,
            pass,
            first,
            told: None,
            missed: None,
        }
    }

    /// The client's pass, to be given back to the keeper of the desk. What it had seen when the seat was made stands in front of
    /// what it has seen.
    pub fn into_pass(self) -> Pass<SharedEngine<O>>
        ensures pass { result ≡ self.entry.pass }
        ensures own { IsOf result.place self.entry.home }
        ensures met { Met self.entry.told result.mark }
        ensures sees { Begins result.seen self.entry.first }
    {
        let DeskSeat {
            rt: _,
            desk: _,
            pass,
            first: _,
            told: _,
            missed: _,
        } = self;
        pass
    }
}

impl<'a, R: Wait, O: Outside + Drop> Seat for DeskSeat<'a, R, O> {
    ghost use Rattle.kak_engine.specs.Steps.{given_by, crowded_by, parting_by};
    ghost use Rattle.engine_desk.specs.Sitting.{AtDesk, desk_seat_of, desk_of};

    ghost gives = { given_by };

    ghost crowded = { crowded_by };

    ghost parting = { parting_by };

    ghost seated = { desk_seat_of };

    ghost Kept = { AtDesk };

    ghost kept = { desk_of };

    fn step(&mut self, alloc: Global, event: &Event) -> Result<Output, StepFault> {
        let kind = kind_of(event);
        match self.desk.step(self.rt, alloc, &mut self.pass, event) {
            Ok(output) => {
                self.missed = Some(misses(kind));
                Ok(output)
            }
            Err(fault) => {
                self.missed = None;
                self.told = told_by(fault, self.told, self.pass.seen());
                Err(fault)
            }
        }
    }
}

impl<'a, R: Wait, O: Outside + Drop> LiveSeat for DeskSeat<'a, R, O> {
    #[tactic(auto, using(crate::proofs::SeatLemmas::looking))]
    fn look(&mut self) -> Missed {
        if let Some(at) = self.told {
            return Missed::Broken(at);
        }
        let seen = self.pass.seen();
        let count = self.desk.glance(&mut self.pass);
        if let Some(missed) = self.missed
            && count == seen
        {
            return if missed {
                Missed::Something
            } else {
                Missed::Nothing
            };
        }
        let glimpse = self.desk.look(self.rt, &mut self.pass);
        self.missed = Some(glimpse.stale);
        self.told = glimpse.broken;
        match glimpse.broken {
            Some(at) => Missed::Broken(at),
            None if glimpse.stale => Missed::Something,
            None => Missed::Nothing,
        }
    }
}
