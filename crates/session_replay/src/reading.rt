//! The lines of a replay, read and played one after another.

ghost use Rattle.std.specs.Prelude.{◌≡◌, ◌<◌, ◌^◌, []};
ghost use Rattle.session_events.specs.Seats.{IsLegalSeat};
ghost use Rattle.session_replay.specs.Settings.{setting};
ghost use Rattle.session_replay.specs.Players.{count_of, moment_of, ArePlayersStill, AreSomewhere};
ghost use Rattle.session_replay.specs.Phases.{AreReady, PlaysOnFor, PlaysLines};
ghost use Rattle.session_replay.specs.Replays.{ReplayFaultIs};

use crate::ends::ReplayEnd;
use crate::players::{Players, Taken};
use kak_ports::Source;
use line_reading::{LineReader, NextLine};
use requests::Reader;
use session_events::Seats;
use session_lines::Stop;
use std::alloc::Global;
use ui_board::Ui;

// Plays a written line. Tells how the replay ends by it, if it does.
fn play_written<Q: Reader, S: Seats, U: Ui>(
    alloc: Global,
    players: &mut Players<S, U>,
    line: &[u8],
) -> Result<Option<ReplayEnd>, Stop>
    requires few { count_of players.old < 2 ^ 32 }
    requires legal { IsLegalSeat (S.seated players.old.seats) }
    requires somewhere { AreSomewhere (setting S.gives Q.reads) (count_of players.old) (moment_of S.seated U.shown players.old) }
    ensures still { ArePlayersStill S.seated S.kept result players.old players.new }
    ensures plays { PlaysOnFor (setting S.gives Q.reads) S.seated U.shown line.now result players.old players.new }
{
    match players.take_written::<Q>(alloc, line)? {
        Taken::Stayed => Ok(None),
        Taken::Bad => Ok(Some(ReplayEnd::BadClient)),
        Taken::Left => {
            if players.is_anybody_here() {
                return Ok(None);
            }
            Ok(Some(ReplayEnd::Over))
        }
    }
}

/// Plays the lines of an input on a session that has no entry, a last part without a newline too where the input has ended,
/// until one ends the replay.
pub fn play_lines<Q: Reader, S: Seats, U: Ui, I: Source>(
    alloc: Global,
    players: &mut Players<S, U>,
    source: &mut I,
) -> Result<ReplayEnd, Stop>
    requires few { count_of players.old < 2 ^ 32 }
    requires new { (S.seated players.old.seats).seen ≡ [] }
    requires legal { IsLegalSeat (S.seated players.old.seats) }
    requires ready { AreReady (setting S.gives Q.reads) (count_of players.old) (moment_of S.seated U.shown players.old) }
    ensures still { ArePlayersStill S.seated S.kept result players.old players.new }
    ensures played { PlaysLines (setting S.gives Q.reads) S.seated U.shown result players.old players.new (I.inlet source.old) (I.inlet source.new) }
    ensures fault { ReplayFaultIs result (I.inlet source.old) (I.inlet source.new) }
{
    let mut reader = LineReader::new(alloc);
    'lines: loop {
        match reader.next(source)? {
            NextLine::Line => {
                if let Some(end) = play_written::<Q, S, U>(alloc, players, reader.line())? {
                    return Ok(end);
                }
            }
            NextLine::Last => {
                if let Some(end) = play_written::<Q, S, U>(alloc, players, reader.line())? {
                    return Ok(end);
                }
                return Ok(ReplayEnd::Ended);
            }
            NextLine::Ended => return Ok(ReplayEnd::Ended),
            NextLine::ReadFault => return Ok(ReplayEnd::ReadFault),
            NextLine::Full => return Ok(ReplayEnd::Full),
        }
    }
}
