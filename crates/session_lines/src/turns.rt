//! The phases of a connection: what it plays is played, and what that gives is told at the end of the phase.

ghost use Rattle.std.specs.Prelude.{◌≡◌, ◌∷◌, [], Ok, OnOk};
ghost use Rattle.session_events.specs.declared.event.Event.TheVariants.{Join};
ghost use Rattle.session_lines.specs.Session.{keys_played, played_by, bytes_of_refusal};
ghost use Rattle.session_lines.specs.Serving.{telling_bytes, HasOnlyCome, PhaseAnswers, PlaysLine, OpensWith, unseen};
ghost use Rattle.session_lines.specs.Sending.{Sends, Counts, Tells};
ghost use Rattle.session_lines.specs.Stops.{IsReady, Stays, Stops, Causes, StaysWhole};

use crate::playing::{Reply, Stop, Telling, play_event, play_keys};
use json_writing::{encode_drawing, encode_refusal};
use kak_ports::{Put, Sink};
use key_names::Key;
use requests::{LineError, Reader, Request};
use session_events::{Event, Seat};
use std::alloc::{AllocError, Global};

// Plays what a line asks for, and gives what the client is to be told.
fn play_request<S: Seat>(alloc: Global, seat: &mut S, request: Request) -> Result<Reply, Stop>
    requires { IsReady (S.seated seat.old) }
    ensures stays { Stays (S.seated seat.old) (S.seated seat.new) }
    ensures kept { S.kept seat.new ≡ S.kept seat.old }
    ensures whole { StaysWhole result (S.seated seat.old).mark (S.seated seat.new).mark }
    ensures answers { PhaseAnswers S.gives (S.seated seat.old) (S.seated seat.new) (played_by (Ok request)) [] result }
    ensures stops { Stops result (S.seated seat.new) }
{
    match request {
        Request::Nothing => Ok(Reply::nothing()),
        Request::Keys(keys) => play_keys(alloc, seat, keys.as_slice()),
        Request::Resize(size) => play_event(alloc, seat, &Event::Resize(size)),
        Request::Scroll(lines, _) => play_event(alloc, seat, &Event::Scroll(lines)),
        Request::Mouse(mouse) => play_event(alloc, seat, &Event::Mouse(mouse)),
        Request::MenuSelect => Ok(Reply::nothing()),
    }
}

/// Plays one line, without its newline, as the reader reads it, and gives what the client is to be told.
pub fn answer_line<Q: Reader, S: Seat>(
    alloc: Global,
    seat: &mut S,
    line: &[u8],
) -> Result<Reply, Stop>
    requires { IsReady (S.seated seat.old) }
    ensures stays { Stays (S.seated seat.old) (S.seated seat.new) }
    ensures kept { S.kept seat.new ≡ S.kept seat.old }
    ensures whole { StaysWhole result (S.seated seat.old).mark (S.seated seat.new).mark }
    ensures answers { PhaseAnswers S.gives (S.seated seat.old) (S.seated seat.new) (played_by (Q.reads line.now)) (bytes_of_refusal (Q.reads line.now)) result }
    ensures stops { Stops result (S.seated seat.new) }
{
    match Q::read(alloc, line) {
        Ok(request) => play_request(alloc, seat, request),
        Err(LineError::Refused(refusal)) => Ok(Reply {
            telling: Telling::Refused(refusal),
            leaving: false,
        }),
        Err(LineError::NoMemory) => Err(Stop::NoMemory),
    }
}

/// Opens a connection whose client has joined: keys are struck, and it is drawn, also where its coming let it go. Gives what
/// the client is to be told, and whether it may leave, by its coming or by what it played then.
pub fn answer_opening<S: Seat>(
    alloc: Global,
    seat: &mut S,
    keys: &[Key],
    let_go: bool,
) -> Result<Reply, Stop>
    requires ready { IsReady (S.seated seat.old) }
    requires new { HasOnlyCome S.gives (S.seated seat.old) let_go }
    ensures stays { Stays (S.seated seat.old) (S.seated seat.new) }
    ensures kept { S.kept seat.new ≡ S.kept seat.old }
    ensures whole { StaysWhole result (S.seated seat.old).mark (S.seated seat.new).mark }
    ensures answers { PhaseAnswers S.gives (unseen (S.seated seat.old)) (S.seated seat.new) (Join ∷ keys_played keys.now) [] result }
    ensures stops { Stops result (S.seated seat.new) }
{
    match play_keys(alloc, seat, keys) {
        Ok(reply) => Ok(Reply {
            telling: reply.telling,
            leaving: let_go | reply.leaving,
        }),
        Err(stop) => Err(stop),
    }
}

/// Writes what a client is told as lines of JSON. Where memory is wanting, a part may stand there.
pub fn write_telling(telling: &Telling, out: &mut Vec<u8>) -> Result<(), AllocError>
    requires { out.old.items ≡ [] }
    ensures { OnOk result (out.new.items ≡ telling_bytes telling.now) }
{
    match telling {
        Telling::Nothing => Ok(()),
        Telling::Drawn(drawing) => encode_drawing(drawing, out),
        Telling::Refused(refusal) => encode_refusal(*refusal, out),
    }
}

// Sends bytes.
fn send<K: Sink>(sink: &mut K, bytes: &[u8]) -> Result<(), Stop>
    ensures sends { Sends result (K.outlet sink.old) (K.outlet sink.new) bytes.now }
    ensures counted { Counts result (K.outlet sink.old) (K.outlet sink.new) }
{
    match sink.put(bytes) {
        Put::Done => Ok(()),
        Put::Failed => Err(Stop::WriteFault),
    }
}

// Sends what a client is told. Where that is nothing, nothing is put.
fn send_telling<K: Sink>(sink: &mut K, out: &mut Vec<u8>, telling: &Telling) -> Result<(), Stop>
    ensures { Tells result (K.outlet sink.old) (K.outlet sink.new) (telling_bytes telling.now) }
{
    out.clear();
    write_telling(telling, out)?;
    if out.is_empty() {
        return Ok(());
    }
    send(sink, out.as_slice())
}

/// Plays one line, without its newline, as the reader reads it, and sends what it gives. Tells whether the client may leave.
pub fn play_line<Q: Reader, S: Seat, K: Sink>(
    alloc: Global,
    seat: &mut S,
    sink: &mut K,
    out: &mut Vec<u8>,
    line: &[u8],
) -> Result<bool, Stop>
    requires { IsReady (S.seated seat.old) }
    ensures stays { Stays (S.seated seat.old) (S.seated seat.new) }
    ensures kept { S.kept seat.new ≡ S.kept seat.old }
    ensures whole { StaysWhole result (S.seated seat.old).mark (S.seated seat.new).mark }
    ensures serves { PlaysLine S.gives Q.reads (S.seated seat.old) (S.seated seat.new) (K.outlet sink.old) (K.outlet sink.new) line.now result }
    ensures cause { Causes result (S.seated seat.new) (K.outlet sink.old) (K.outlet sink.new) }
{
    let reply = answer_line::<Q, S>(alloc, seat, line)?;
    send_telling(sink, out, &reply.telling)?;
    Ok(reply.leaving)
}

/// Opens a connection whose client has joined: keys are struck, and its first drawing is sent, also where its coming let it
/// go. Tells whether the client may leave.
pub fn open<S: Seat, K: Sink>(
    alloc: Global,
    seat: &mut S,
    sink: &mut K,
    out: &mut Vec<u8>,
    keys: &[Key],
    let_go: bool,
) -> Result<bool, Stop>
    requires ready { IsReady (S.seated seat.old) }
    requires new { HasOnlyCome S.gives (S.seated seat.old) let_go }
    ensures stays { Stays (S.seated seat.old) (S.seated seat.new) }
    ensures kept { S.kept seat.new ≡ S.kept seat.old }
    ensures whole { StaysWhole result (S.seated seat.old).mark (S.seated seat.new).mark }
    ensures serves { OpensWith S.gives keys.now (S.seated seat.old) (S.seated seat.new) (K.outlet sink.old) (K.outlet sink.new) result }
    ensures cause { Causes result (S.seated seat.new) (K.outlet sink.old) (K.outlet sink.new) }
{
    let reply = answer_opening(alloc, seat, keys, let_go)?;
    send_telling(sink, out, &reply.telling)?;
    Ok(reply.leaving)
}
