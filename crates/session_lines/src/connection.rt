//! A connection, from its first drawing to its leaving.

ghost use Rattle.std.specs.Prelude.{◌≡◌, ◌∷◌, [], false};
ghost use Rattle.session_turns.specs.Turns.{Opening};
ghost use Rattle.session_events.specs.Seats.{IsSameSeat, IsLegalSeat};
ghost use Rattle.session_lines.specs.Connections.{Plays, WasServed, EndCauses, is_unwritten};
ghost use Rattle.session_lines.specs.Reading.{FaultIs, EndFaultIs};
ghost use Rattle.session_lines.specs.Serving.{service, HasOnlyCome, unseen};
ghost use Rattle.session_lines.specs.Stops.{IsReady, Stays, Causes, StaysWhole};

use crate::playing::{Stop, leave};
use crate::reading::{InputEnd, play_input};
use crate::turns::open;
use kak_ports::{Sink, Source};
use key_names::Key;
use requests::Reader;
use session_events::Seat;
use std::alloc::Global;

/// Plays a connection whose client has joined and done nothing else: keys are struck, it is drawn, and its input is read and
/// played line by line, a last part without a newline too. Where it was let go by its coming, or is by the keys, nothing is
/// read. It doesn't leave yet.
pub fn play_connection<Q: Reader, S: Seat, I: Source, K: Sink>(
    alloc: Global,
    seat: &mut S,
    source: &mut I,
    sink: &mut K,
    keys: &[Key],
    let_go: bool,
) -> Result<InputEnd, Stop>
    requires ready { IsReady (S.seated seat.old) }
    requires new { HasOnlyCome S.gives (S.seated seat.old) let_go }
    ensures stays { Stays (S.seated seat.old) (S.seated seat.new) }
    ensures kept { S.kept seat.new ≡ S.kept seat.old }
    ensures whole { StaysWhole result (S.seated seat.old).mark (S.seated seat.new).mark }
    ensures plays { Plays false (Opening ∷ []) (service S.gives Q.reads keys.now) (unseen (S.seated seat.old)) (S.seated seat.new) (K.outlet sink.old) (K.outlet sink.new) (I.inlet source.old) (I.inlet source.new) result }
    ensures fault { FaultIs result (I.inlet source.old) (I.inlet source.new) }
    ensures cause { Causes result (S.seated seat.new) (K.outlet sink.old) (K.outlet sink.new) }
{
    let mut out = Vec::new(alloc);
    if open(alloc, seat, sink, &mut out, keys, let_go)? {
        return Ok(InputEnd::Left);
    }
    play_input::<Q, S, I, K>(alloc, seat, source, sink, &mut out)
}

// Whether a write failed.
fn is_unwritten(played: Result<InputEnd, Stop>) -> bool
    ensures { result ≡ is_unwritten played }
{
    matches!(played, Err(Stop::WriteFault))
}

/// Serves a connection whose client has joined and done nothing else: keys are struck before its first drawing, what it plays
/// is played, and then it leaves. Where it was let go by its coming it is drawn all the same, and nothing is read. Where a
/// write failed, nothing more is played, not even its leaving; where leaving fails, that is told, whatever came before.
pub fn serve<Q: Reader, S: Seat, I: Source, K: Sink>(
    alloc: Global,
    seat: &mut S,
    source: &mut I,
    sink: &mut K,
    keys: &[Key],
    let_go: bool,
) -> Result<InputEnd, Stop>
    requires ready { IsReady (S.seated seat.old) }
    requires new { HasOnlyCome S.gives (S.seated seat.old) let_go }
    ensures same { IsSameSeat (S.seated seat.old) (S.seated seat.new) }
    ensures kept { S.kept seat.new ≡ S.kept seat.old }
    ensures whole { StaysWhole result (S.seated seat.old).mark (S.seated seat.new).mark }
    ensures legal { IsLegalSeat (S.seated seat.new) }
    ensures served { WasServed false (service S.gives Q.reads keys.now) (S.seated seat.old).number (S.seated seat.new).seen (K.outlet sink.old) (K.outlet sink.new) (I.inlet source.old) (I.inlet source.new) result }
    ensures fault { EndFaultIs S.parting result (S.seated seat.new) (I.inlet source.old) (I.inlet source.new) }
    ensures cause { EndCauses result (S.seated seat.new) (K.outlet sink.old) (K.outlet sink.new) }
{
    let played = play_connection::<Q, S, I, K>(alloc, seat, source, sink, keys, let_go);
    if is_unwritten(played) {
        return played;
    }
    leave(alloc, seat)?;
    played
}
