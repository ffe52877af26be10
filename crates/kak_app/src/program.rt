//! The run of the program: one client, from its first drawing to its leaving; or a generated session.

ghost use Rattle.std.specs.Prelude.{◌≡◌, List, [], map, string_bytes, true, false, IfOk};
ghost use Rattle.key_names.specs.declared.key.Key.{Key};
ghost use Rattle.kak_engine.specs.Honesty.{IsUntouched};
ghost use Rattle.session_events.specs.Seats.{IsSameSeat, IsLegalSeat};
ghost use Rattle.session_lines.specs.Connections.{WasServed, EndCauses};
ghost use Rattle.session_lines.specs.Reading.{EndFaultIs};
ghost use Rattle.session_lines.specs.Serving.{service};
ghost use Rattle.json_ui.specs.Requests.{read_request};
ghost use Rattle.session_lines.specs.Stops.{StaysWhole};
ghost use Rattle.program_words.specs.GenWords.{gen_words};
ghost use Rattle.kak_app.specs.Runs.{Around, around_run, Ran, code_of, is_ui_json, is_client_call, keys_at_start, RunAnswers};
ghost use Rattle.kak_app.specs.Generated.{is_call, CallAnswers};

use crate::generating::generate;
use crate::parting::{is_lost, part};
use json_ui::JsonReader;
use kak_engine::{EngineSeats, NoEngine, Outside};
use kak_ports::{Sink, Source};
use key_names::Key;
use program_words::{edit_keys, is_file_name, read_gen_words};
use session_events::{Event, MAX_ENTRIES, Seat};
use session_lines::{InputEnd, Stop, serve};
use std::alloc::{AllocError, Global};

/// How a run of the program ended.
#[derive(Clone, Copy, PartialEq, Eq, Debug)]
pub enum Status {
    /// The client was let go, or the input was read to its end; or the summary of a generated session was written.
    Done,
    /// The words aren't those of the program. Nothing was read or written.
    Usage,
    /// The input failed. What was read before is answered.
    ReadFault,
    /// The output failed.
    WriteFault,
    /// Memory ran out. Each text that may differ from what was saved was to be written to its rescue file.
    NoMemory,
    /// The history has all entries that it may have. What was played before is answered.
    HistoryFull,
    /// The input has more bytes than are taken. What was read before is answered.
    InputFull,
    /// A line of a replay is no client's. What was read before is answered.
    BadClient,
}

impl Status {
    /// The status with which the process ends.
    pub fn code(self) -> u8
        ensures { result ≡ code_of self }
    {
        match self {
            Status::Done => 0,
            Status::Usage => 1,
            Status::ReadFault => 2,
            Status::WriteFault => 3,
            Status::NoMemory => 4,
            Status::HistoryFull => 5,
            Status::InputFull => 6,
            Status::BadClient => 7,
        }
    }
}

// Whether these are the words of a client that speaks JSON.
fn is_ui_json(kind: &str, form: &str) -> bool
    ensures { result ≡ is_ui_json kind.now form.now }
{
    kind == "-ui" && form == "json"
}

// Whether these are the words for a client.
fn is_client_call(words: &[String]) -> bool
    ensures { result ≡ is_client_call (map (λ word. string_bytes word) words.now) }
{
    match words {
        [kind, form] => is_ui_json(kind.as_str(), form.as_str()),
        [kind, form, file] => {
            is_ui_json(kind.as_str(), form.as_str()) && is_file_name(file.as_str())
        }
        _ => false,
    }
}

// The keys that are struck before the first drawing.
fn opening_keys(alloc: Global, words: &[String]) -> Result<Vec<Key>, AllocError>
    ensures { IfOk result (λ keys. keys.items ≡ keys_at_start (map (λ word. string_bytes word) words.now)) }
{
    match words {
        [_kind, _form, file] => edit_keys(alloc, file.as_str()),
        _ => Ok(Vec::new(alloc)),
    }
}

// Lets a client come to a session in which nothing has happened, and serves it, also where it was let go by its coming.
fn attend<S: Seat, I: Source, K: Sink>(
    alloc: Global,
    seat: &mut S,
    input: &mut I,
    output: &mut K,
    keys: &[Key],
) -> Result<InputEnd, Stop>
    requires { (S.seated seat.old).seen ≡ [] }
    ensures same { IsSameSeat (S.seated seat.old) (S.seated seat.new) }
    ensures kept { S.kept seat.new ≡ S.kept seat.old }
    ensures whole { StaysWhole result (S.seated seat.old).mark (S.seated seat.new).mark }
    ensures legal { IsLegalSeat (S.seated seat.new) }
    ensures served { WasServed false (service S.gives read_request keys.now) (S.seated seat.old).number (S.seated seat.new).seen (K.outlet output.old) (K.outlet output.new) (I.inlet input.old) (I.inlet input.new) result }
    ensures fault { EndFaultIs S.parting result (S.seated seat.new) (I.inlet input.old) (I.inlet input.new) }
    ensures cause { EndCauses result (S.seated seat.new) (K.outlet output.old) (K.outlet output.new) }
{
    match seat.step(alloc, &Event::Join) {
        Ok(came) => { serve::<JsonReader, S, I, K>(alloc, seat, input, output, keys, came.leaving) }
        Err(_fault) => Err(Stop::NoMemory),
    }
}

// Serves the one client of a new session, with keys before its first drawing, and ends the session. Gives back the outside.
fn serve_client<I: Source, K: Sink, O: Outside>(
    alloc: Global,
    keys: &[Key],
    input: &mut I,
    output: &mut K,
    outside: O,
) -> (Result<InputEnd, Stop>, O)
    requires { IsUntouched (O.seen outside).shelf.told }
    ensures { Ran keys.now result.0 (around_run (I.inlet input.old) (K.outlet output.old) (O.seen outside)) (around_run (I.inlet input.new) (K.outlet output.new) (O.seen result.1)) }
{
    match EngineSeats::new(alloc, outside, MAX_ENTRIES, 0) {
        Ok(mut seats) => {
            let ended = attend(alloc, &mut seats, input, output, keys);
            let outside = part(alloc, seats, is_lost(&ended));
            (ended, outside)
        }
        Err(NoEngine { outside }) => (Err(Stop::NoMemory), outside),
    }
}

// The status of a run, by how its client was served.
fn status_of(ended: Result<InputEnd, Stop>) -> Status
    ensures answers { (keys : List Key) (old new : Around) → Ran keys ended old new → RunAnswers keys result old new }
    ensures used { result ≡ Status.Usage → ⊥ }
{
    match ended {
        Ok(InputEnd::Left) => Status::Done,
        Ok(InputEnd::Ended) => Status::Done,
        Ok(InputEnd::ReadFault) => Status::ReadFault,
        Ok(InputEnd::Full) => Status::InputFull,
        Err(Stop::HistoryFull) => Status::HistoryFull,
        Err(Stop::WriteFault) => Status::WriteFault,
        Err(Stop::Broken(_)) => Status::NoMemory,
        Err(Stop::NoMemory) => Status::NoMemory,
    }
}

// Runs the program for a client.
fn run_client<I: Source, K: Sink, O: Outside>(
    alloc: Global,
    words: &[String],
    input: &mut I,
    output: &mut K,
    outside: O,
) -> (Status, O)
    requires { IsUntouched (O.seen outside).shelf.told }
    ensures refused { is_client_call (map (λ word. string_bytes word) words.now) ≡ false → result.0 ≡ Status.Usage }
    ensures taken { is_client_call (map (λ word. string_bytes word) words.now) ≡ true → result.0 ≡ Status.Usage → ⊥ }
    ensures answers { RunAnswers (keys_at_start (map (λ word. string_bytes word) words.now)) result.0 (around_run (I.inlet input.old) (K.outlet output.old) (O.seen outside)) (around_run (I.inlet input.new) (K.outlet output.new) (O.seen result.1)) }
{
    if !is_client_call(words) {
        return (Status::Usage, outside);
    }
    match opening_keys(alloc, words) {
        Ok(keys) => {
            let (ended, outside) = serve_client(alloc, keys.as_slice(), input, output, outside);
            (status_of(ended), outside)
        }
        Err(_error) => (Status::NoMemory, outside),
    }
}

/// Runs the program. Its words are to be `-ui json`, with a file's name behind them where one is to be opened first: then its
/// input has the client's lines, and its output is sent what the client is shown and refused. The client has the number 0. Or
/// they are `gen` and three numbers: then a generated session is played, of which its output is sent the summary, and nothing
/// is read. The outside, whose files hold what they held when they were made where they tell it, is given back as what the
/// history says of it left it: it was asked for that and for nothing else. Where memory ran out, the texts are rescued which may
/// differ from what was saved.
pub fn run<I: Source, K: Sink, O: Outside>(
    alloc: Global,
    words: &[String],
    input: &mut I,
    output: &mut K,
    outside: O,
) -> (Status, O)
    requires { IsUntouched (O.seen outside).shelf.told }
    ensures refused { is_call (map (λ word. string_bytes word) words.now) ≡ false → result.0 ≡ Status.Usage }
    ensures taken { is_call (map (λ word. string_bytes word) words.now) ≡ true → result.0 ≡ Status.Usage → ⊥ }
    ensures answers { CallAnswers (gen_words (map (λ word. string_bytes word) words.now)) (map (λ word. string_bytes word) words.now) result.0 (around_run (I.inlet input.old) (K.outlet output.old) (O.seen outside)) (around_run (I.inlet input.new) (K.outlet output.new) (O.seen result.1)) }
{
    match read_gen_words(words) {
        Some(session) => generate(alloc, session, output, outside),
        None => run_client(alloc, words, input, output, outside),
    }
}
