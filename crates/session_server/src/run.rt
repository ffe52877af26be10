//! The whole of a server's program.

ghost use Rattle.std.specs.Prelude.{◌≡◌, [], map, string_bytes, true, false, IfNone, IfSome, Some};
ghost use Rattle.kak_engine.specs.Honesty.{IsUntouched};
ghost use Rattle.program_words.specs.ServerWords.{is_call, session_of, file_of};
ghost use Rattle.session_server.specs.Running.{frame_at, HasNone, WasRun};

use crate::job::LinkJob;
use crate::serving::serve;
use crate::session::Session;
use crate::status::ServerStatus;
use client_links::{Acceptor, Bound, Link};
use engine_desk::SharedEngine;
use jobs::Spawner;
use kak_engine::Outside;
use line_gates::Gate;
use program_words::{WordsError, read_words};
use regex_ports::RegexPattern;
use session_events::MAX_ENTRIES;
use std::alloc::Global;
use std::sync::Wait;

/// Runs a server: its words are to be `-s` and a session's name, with a file's name behind them where the first client is to
/// open one. It listens for the session, and serves it to its end. The outside's files hold what they held when they were made,
/// where they tell it. The outside of the engine that is left was asked for just what the history of the session says; where the
/// engine broke, its texts were rescued.
pub fn run_server<
    R: Wait,
    A: Acceptor,
    O: Outside<P = RegexPattern> + Drop,
    G: Gate + Clone,
    P: Spawner<LinkJob<A::Link, O, G>>,
>(
    rt: &R,
    alloc: Global,
    words: &[String],
    acceptor: &mut A,
    spawner: &mut P,
    gate: G,
    outside: O,
) -> (ServerStatus, Option<Session<O, <A::Link as Link>::Spent>>)
    requires untouched { IsUntouched (O.seen outside).shelf.told }
    requires idle { P.started spawner.old ≡ [] }
    requires fit { P.fit spawner.old }
    ensures fit { P.fit spawner.new }
    ensures gathered { P.started spawner.new ≡ [] }
    ensures refused { is_call (map (λ word. string_bytes word) words.now) ≡ false → result.0 ≡ ServerStatus.Usage }
    ensures taken { is_call (map (λ word. string_bytes word) words.now) ≡ true → result.0 ≡ ServerStatus.Usage → ⊥ }
    ensures none { IfNone result.1 (HasNone result.0 (A.door acceptor.old) (A.door acceptor.new) (P.faults spawner.old) (P.faults spawner.new)) }
    ensures listens { IfSome result.1 (λ session. (A.door acceptor.new).listens ≡ Some (session_of (map (λ word. string_bytes word) words.now))) }
    ensures run { IfSome result.1 (λ session. WasRun A.Link.spent (frame_at (O.seen outside)) (file_of (map (λ word. string_bytes word) words.now)) (A.door acceptor.old) (A.door acceptor.new) (P.faults spawner.old) (P.faults spawner.new) result.0 session.engine session.ends.items) }
{
    let named = match read_words(alloc, words) {
        Ok(named) => named,
        Err(WordsError::Usage) => return (ServerStatus::Usage, None),
        Err(WordsError::NoMemory) => return (ServerStatus::NoMemory, None),
    };
    match acceptor.bind(rt, named.session.as_str()) {
        Bound::Up => {}
        Bound::Failed => return (ServerStatus::BindFault, None),
    }
    let Ok(engine) = SharedEngine::new(alloc, outside, MAX_ENTRIES) else {
        return (ServerStatus::NoMemory, None);
    };
    let (status, session) = serve(rt, alloc, engine, named.file, acceptor, spawner, gate);
    (status, Some(session))
}
