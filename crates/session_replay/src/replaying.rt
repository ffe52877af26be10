//! A replay, from its first line to the reports.

ghost use Rattle.std.specs.Prelude.{◌≡◌, ◌<◌, ◌^◌, [], length};
ghost use Rattle.ui_board.specs.Boards.{box_at};
ghost use Rattle.session_events.specs.Seats.{IsLegalSeat};
ghost use Rattle.session_replay.specs.Settings.{setting};
ghost use Rattle.session_replay.specs.Players.{count_of, moment_of, ArePlayersStill, kinds_of, told_by_all};
ghost use Rattle.session_replay.specs.Phases.{AreReady, PlaysAndLeaves, Halts};
ghost use Rattle.session_replay.specs.Replays.{WasReplayed, ReplayFaultIs};
ghost use Rattle.session_replay.specs.Staying.{IsSessionStill};

use crate::ends::ReplayEnd;
use crate::finishing::{finish, is_lost};
use crate::parting::dismiss_all;
use crate::players::Players;
use crate::reading::play_lines;
use kak_ports::{Sink, Source};
use requests::Reader;
use session_events::Seats;
use session_lines::Stop;
use std::alloc::Global;
use ui_board::{Board, Ui};

// Plays the lines of an input, and lets all go that are still here, unless something was lost.
fn play_and_leave<Q: Reader, S: Seats, U: Ui, I: Source>(
    alloc: Global,
    players: &mut Players<S, U>,
    source: &mut I,
) -> Result<ReplayEnd, Stop>
    requires few { count_of players.old < 2 ^ 32 }
    requires new { (S.seated players.old.seats).seen ≡ [] }
    requires legal { IsLegalSeat (S.seated players.old.seats) }
    requires ready { AreReady (setting S.gives Q.reads) (count_of players.old) (moment_of S.seated U.shown players.old) }
    ensures still { ArePlayersStill S.seated S.kept result players.old players.new }
    ensures played { PlaysAndLeaves (setting S.gives Q.reads) S.seated U.shown result players.old players.new (I.inlet source.old) (I.inlet source.new) }
    ensures fault { ReplayFaultIs result (I.inlet source.old) (I.inlet source.new) }
{
    let ended = play_lines::<Q, S, U, I>(alloc, players, source);
    if is_lost(ended) {
        return ended;
    }
    dismiss_all::<Q, S, U>(alloc, players)?;
    ended
}

/// Replays the lines of an input on a session that nobody else uses and that has no entry: its clients, of which each has a
/// box that was told nothing, come with their first lines, and at the end those that are still here leave in the order of
/// their numbers, and the reports of all boxes are written, in that order too. The seats are given back, and the board at
/// which the boxes sit by the numbers of their clients; where memory was wanting they may be lost.
pub fn replay_session<Q: Reader, S: Seats, U: Ui, I: Source, K: Sink>(
    alloc: Global,
    seats: S,
    uis: Vec<U>,
    source: &mut I,
    sink: &mut K,
) -> (Result<ReplayEnd, Stop>, S, Board<U>)
    requires few { length uis.items < 2 ^ 32 }
    requires new { (S.seated seats).seen ≡ [] }
    requires legal { IsLegalSeat (S.seated seats) }
    requires untold { told_by_all U.shown uis.items ≡ [] }
    ensures replayed { WasReplayed (setting S.gives Q.reads) (S.seated seats).limit (kinds_of U.shown uis.items) (λ who. box_at U.shown who result.2) (S.seated result.1).seen (I.inlet source.old) (I.inlet source.new) (K.outlet sink.old) (K.outlet sink.new) result.0 }
    ensures fault { ReplayFaultIs result.0 (I.inlet source.old) (I.inlet source.new) }
    ensures session { IsSessionStill S.seated S.kept result.0 seats result.1 }
    ensures halts { Halts result.0 (S.seated result.1) }
{
    let mut players = match Players::new::<Q>(alloc, seats, uis) {
        Ok(players) => players,
        Err(none) => return (Err(Stop::NoMemory), none.seats, Board::new(alloc)),
    };
    let ended = play_and_leave::<Q, S, U, I>(alloc, &mut players, source);
    let answer = finish(players.clients.as_slice(), sink, ended);
    (answer, players.seats, players.board)
}
