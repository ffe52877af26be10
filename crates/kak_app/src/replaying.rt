//! The run of the replaying program: lines of many clients, in the order in which they are written.

ghost use Rattle.std.specs.Prelude.{◌≡◌, ◌≢◌, ◌==◌, [], length, map, string_bytes, true, false, Err};
ghost use Rattle.std.specs.List.{list_all};
ghost use Rattle.ui_board.specs.Boards.{box_at};
ghost use Rattle.session_replay.specs.Players.{kinds_of, told_by_all};
ghost use Rattle.kak_engine.specs.Honesty.{IsUntouched};
ghost use Rattle.kak_app.specs.Runs.{around_run};
ghost use Rattle.kak_app.specs.Replays.{says_kind, say_kinds, is_ui_count, is_call_for, ReplayAnswers, StatusSays};

use crate::parting::{is_lost, part};
use crate::program::Status;
use json_ui::JsonReader;
use kak_engine::{EngineSeats, NoEngine, Outside};
use kak_ports::{Sink, Source};
use session_events::MAX_ENTRIES;
use session_lines::Stop;
use session_replay::{ReplayEnd, replay_session};
use std::alloc::Global;
use ui_board::{Board, Kind, Ui};

/// How many clients a replay may have: 64.
pub const MAX_UIS: usize = 64;

// Whether a word says a kind of user interface.
fn says_kind(word: &str, kind: Kind) -> bool
    ensures { result ≡ says_kind word.now kind }
{
    match kind {
        Kind::Json => word == "json",
        Kind::Silent => word == "silent",
        Kind::Screen => word == "screen",
    }
}

// Whether each word says the kind of one user interface, in their order.
fn say_kinds<U: Ui>(words: &[String], uis: &[U]) -> bool
    requires { length uis.now ≡ length words.now }
    ensures { result ≡ say_kinds (map (λ word. string_bytes word) words.now) (kinds_of U.shown uis.now) }
{
    for n in 0..words.len() {
        if !says_kind(words[n].as_str(), uis[n].kind()) {
            return false;
        }
    }
    true
}

// Whether there is one user interface for each of 1 to 64 words.
fn is_ui_count(count: usize, words: usize) -> bool
    ensures { result ≡ is_ui_count count words }
{
    0 < words && words <= MAX_UIS && count == words
}

// Whether the program may be called by these words, with these user interfaces.
fn is_replay_call<U: Ui>(words: &[String], uis: &[U]) -> bool
    ensures { result ≡ is_call_for U.shown (map (λ word. string_bytes word) words.now) uis.now }
{
    is_ui_count(uis.len(), words.len()) && say_kinds(words, uis)
}

// Whether each user interface is new.
fn is_each_new<U: Ui>(uis: &[U]) -> bool
    ensures { result ≡ list_all (λ ui. length (U.shown ui).told == 0) uis.now }
{
    uis.iter().all(|ui| ui.is_new())
}

// Whether the user interfaces were told nothing yet.
fn are_new<U: Ui>(uis: &[U]) -> bool
    ensures new { result ≡ true → told_by_all U.shown uis.now ≡ [] }
    ensures told { result ≡ false → told_by_all U.shown uis.now ≢ [] }
{
    is_each_new(uis)
}

// The status of a replay that was stopped.
fn stop_status(stop: Stop) -> Status
    ensures answers { StatusSays (Err stop) result }
    ensures used { result ≡ Status.Usage → ⊥ }
{
    match stop {
        Stop::HistoryFull => Status::HistoryFull,
        Stop::WriteFault => Status::WriteFault,
        Stop::Broken(_) => Status::NoMemory,
        Stop::NoMemory => Status::NoMemory,
    }
}

// The status of a replay, by how it ended.
fn replay_status(ended: Result<ReplayEnd, Stop>) -> Status
    ensures answers { StatusSays ended result }
    ensures used { result ≡ Status.Usage → ⊥ }
{
    match ended {
        Ok(ReplayEnd::Over) => Status::Done,
        Ok(ReplayEnd::Ended) => Status::Done,
        Ok(ReplayEnd::BadClient) => Status::BadClient,
        Ok(ReplayEnd::ReadFault) => Status::ReadFault,
        Ok(ReplayEnd::Full) => Status::InputFull,
        Err(stop) => stop_status(stop),
    }
}

/// Replays the lines of an input, each with the number of its client and a space before it, on one session; the words are
/// the kinds of the clients' user interfaces, which are handed in, in the order of the clients' numbers. At the end the
/// output is sent the reports of all of them, in that order. Where they are of other kinds than the words say, or one was told
/// something before, the answer is `Usage`. The board at which they sit at the end is given back, unless memory was wanting;
/// where the answer is `Usage` it is empty. The outside is given back as what the history says of it left it: it was asked for
/// that and for nothing else. Where memory ran out, the texts are rescued which may differ from what was saved.
pub fn replay<I: Source, K: Sink, O: Outside, U: Ui>(
    alloc: Global,
    words: &[String],
    input: &mut I,
    output: &mut K,
    outside: O,
    uis: Vec<U>,
) -> (Status, O, Board<U>)
    requires opening { IsUntouched (O.seen outside).shelf.told }
    ensures refused { is_call_for U.shown (map (λ word. string_bytes word) words.now) uis.items ≡ false → result.0 ≡ Status.Usage }
    ensures used { told_by_all U.shown uis.items ≢ [] → result.0 ≡ Status.Usage }
    ensures taken { is_call_for U.shown (map (λ word. string_bytes word) words.now) uis.items ≡ true → told_by_all U.shown uis.items ≡ [] → result.0 ≡ Status.Usage → ⊥ }
    ensures answers { ReplayAnswers (kinds_of U.shown uis.items) (λ who. box_at U.shown who result.2) result.0 (around_run (I.inlet input.old) (K.outlet output.old) (O.seen outside)) (around_run (I.inlet input.new) (K.outlet output.new) (O.seen result.1)) }
{
    let boxes = uis.as_slice();
    if !is_replay_call(words, boxes) {
        return (Status::Usage, outside, Board::new(alloc));
    }
    if !are_new(boxes) {
        return (Status::Usage, outside, Board::new(alloc));
    }
    match EngineSeats::new(alloc, outside, MAX_ENTRIES, 0) {
        Ok(seats) => {
            let (ended, seats, board) = replay_session::<JsonReader, EngineSeats<O>, U, I, K>(
                alloc, seats, uis, input, output,
            );
            let outside = part(alloc, seats, is_lost(&ended));
            (replay_status(ended), outside, board)
        }
        Err(NoEngine { outside }) => (Status::NoMemory, outside, Board::new(alloc)),
    }
}
