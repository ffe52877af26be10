//! The end of a replay, at which its clients leave.

ghost use Rattle.std.specs.Prelude.{◌≡◌, ◌≢◌, ◌<◌, ◌^◌, true, false};
ghost use Rattle.session_turns.specs.Growth.{Begins};
ghost use Rattle.session_events.specs.Seats.{IsLegalSeat};
ghost use Rattle.session_replay.specs.Settings.{setting};
ghost use Rattle.session_replay.specs.declared.places.ClientPlace.TheVariants as place;
ghost use Rattle.session_replay.specs.Players.{count_of, held, moment_of, ArePlayersStill};
ghost use Rattle.session_replay.specs.Phases.{MayLeave, DismissesFor};

use crate::places::ClientPlace;
use crate::players::Players;
use requests::Reader;
use session_events::Seats;
use session_lines::Stop;
use std::alloc::Global;
use ui_board::Ui;

// Whether a client is here.
fn is_here<S: Seats, U: Ui>(players: &Players<S, U>, who: u32) -> bool
    requires { who < count_of players.now }
    ensures here { result ≡ true → (held U.shown players.now who).place ≡ place.Here }
    ensures away { result ≡ false → (held U.shown players.now who).place ≢ place.Here }
{
    matches!(players.place_of(who), ClientPlace::Here)
}

/// Lets all clients go that are here, in the order of their numbers.
pub fn dismiss_all<Q: Reader, S: Seats, U: Ui>(
    alloc: Global,
    players: &mut Players<S, U>,
) -> Result<(), Stop>
    requires few { count_of players.old < 2 ^ 32 }
    requires legal { IsLegalSeat (S.seated players.old.seats) }
    requires may { MayLeave (setting S.gives Q.reads) (count_of players.old) (moment_of S.seated U.shown players.old) }
    ensures still { ArePlayersStill S.seated S.kept result players.old players.new }
    ensures grows { Begins (S.seated players.new.seats).seen (S.seated players.old.seats).seen }
    ensures leaving { DismissesFor (setting S.gives Q.reads) S.seated U.shown result players.old players.new }
{
    for who in 0..players.count() {
        if is_here(players, who) {
            players.dismiss::<Q>(alloc, who)?;
        }
    }
    Ok(())
}
