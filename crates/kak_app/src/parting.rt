//! How a run leaves its session: where memory was wanting, the texts are rescued.

ghost use Rattle.std.specs.Prelude.{◌≡◌, true, false, None};
ghost use Rattle.kak_engine.specs.Honesty.{IsHonest};
ghost use Rattle.kak_engine.specs.Seating.{WasLost};
ghost use Rattle.kak_engine.specs.Steps.{answers_in, asked_in, AllAsked};
ghost use Rattle.kak_app.specs.Runs.{is_lost};

use kak_engine::{EngineSeats, Outside};
use session_lines::Stop;
use std::alloc::Global;

/// Whether memory was wanting, as how serving or playing ended tells.
pub(crate) fn is_lost<A>(ended: &Result<A, Stop>) -> bool
    ensures { result ≡ is_lost ended.now }
{
    match ended {
        Ok(_) => false,
        Err(Stop::NoMemory) => true,
        Err(Stop::Broken(_)) => true,
        Err(Stop::HistoryFull) => false,
        Err(Stop::WriteFault) => false,
    }
}

/// Ends a session, and gives its outside. Where it was lost, since memory was wanting, its texts are rescued.
pub(crate) fn part<O: Outside>(alloc: Global, seats: EngineSeats<O>, lost: bool) -> O
    requires whole { lost ≡ false → seats.engine.mark ≡ None }
    ensures lost { lost ≡ true → WasLost seats.engine.history seats.engine.mark seats.engine.inside seats.first (O.seen result) }
    ensures whole { lost ≡ false → IsHonest (answers_in seats.engine.history) (asked_in seats.engine.history) seats.first (O.seen result) }
    ensures asked { AllAsked seats.engine.history }
{
    if lost {
        return seats.rescue(alloc);
    }
    seats.into_outside()
}
