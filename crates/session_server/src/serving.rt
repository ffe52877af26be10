//! A session, served to its end.

ghost use Rattle.std.specs.Prelude.{◌≡◌, ◌≤◌, [], length, IsSome, IfSome, None, option_map, string_bytes};
ghost use Rattle.engine_desk.specs.Sharing.{frame_of, WasAskedJustThat, IsRescuedWhereBroken};
ghost use Rattle.session_server.specs.Sessions.{IfServed, HaveCome, NoneWaits, AcceptsFor, SpawnsFor, SessionStands, SessionCausedBy};

use crate::accepting::accept_all;
use crate::closing::{take_back, take_rest};
use crate::host::Host;
use crate::job::LinkJob;
use crate::session::Session;
use crate::status::ServerStatus;
use client_links::{Acceptor, Link};
use engine_desk::SharedEngine;
use jobs::Spawner;
use kak_engine::Outside;
use line_gates::Gate;
use regex_ports::RegexPattern;
use std::alloc::Global;
use std::sync::Wait;

// What is left where memory ran out.
fn out_of_memory<O: Outside<P = RegexPattern> + Drop, T: Drop>(
    alloc: Global,
) -> (ServerStatus, Session<O, T>)
    ensures why { result.0 ≡ ServerStatus.NoMemory }
    ensures engine { result.1.engine ≡ None }
    ensures ends { result.1.ends.items ≡ [] }
{
    let session = Session {
        engine: None,
        ends: Vec::new(alloc),
    };
    (ServerStatus::NoMemory, session)
}

/// Serves a session in which nothing has happened yet: each link that comes is served under a pass of its own, as the spawner
/// runs it, and the first client opens the file, if one is named. It waits until all have ended, and gives what is left. By a
/// front of the history of the engine that it gives, the row of each link holds, in the order in which they came; its outside
/// was asked for just what that history says, and where the engine broke, for a beginning of what one event more asks for, and then
/// that the texts be rescued which that left. What else holds of the files the engine says itself (`into_outside`).
pub fn serve<
    R: Wait,
    A: Acceptor,
    O: Outside<P = RegexPattern> + Drop,
    G: Gate + Clone,
    P: Spawner<LinkJob<A::Link, O, G>>,
>(
    rt: &R,
    alloc: Global,
    engine: SharedEngine<O>,
    file: Option<String>,
    acceptor: &mut A,
    spawner: &mut P,
    gate: G,
) -> (ServerStatus, Session<O, <A::Link as Link>::Spent>)
    requires entries { engine.engine.history ≡ [] }
    requires mark { engine.engine.mark ≡ None }
    requires idle { P.started spawner.old ≡ [] }
    requires fit { P.fit spawner.old }
    ensures fit { P.fit spawner.new }
    ensures gathered { P.started spawner.new ≡ [] }
    ensures engine { IfServed result.0 (IsSome result.1.engine) }
    ensures stands { IfSome result.1.engine (SessionStands A.Link.spent (frame_of engine) (option_map (λ name. string_bytes name) file) (A.door acceptor.old).to_come (A.door acceptor.new).to_come result.0 result.1.ends.items) }
    ensures outside { IfSome result.1.engine WasAskedJustThat }
    ensures rescued { IfSome result.1.engine IsRescuedWhereBroken }
    ensures cause { IfSome result.1.engine (SessionCausedBy result.0 (length result.1.ends.items)) }
    ensures most { length result.1.ends.items ≤ 1000000 }
    ensures came { HaveCome result.0 (length result.1.ends.items) (A.door acceptor.old).came (A.door acceptor.new).came }
    ensures waits { IsSome (A.door acceptor.old).listens → NoneWaits result.0 (A.door acceptor.new) }
    ensures listens { (A.door acceptor.new).listens ≡ (A.door acceptor.old).listens }
    ensures accept_faults { AcceptsFor result.0 (A.door acceptor.old).faults (A.door acceptor.new).faults }
    ensures spawn_faults { SpawnsFor result.0 (P.faults spawner.old) (P.faults spawner.new) }
{
    let Ok(mut host) = Host::new(alloc, engine, file, gate) else {
        return out_of_memory(alloc);
    };
    let stopped = accept_all(rt, &mut host, acceptor, spawner);
    let (desk, mut keeper) = host.into_parts();
    let Ok(results) = spawner.gather(rt) else {
        return out_of_memory(alloc);
    };
    let ends = take_back(alloc, &desk, &mut keeper, results);
    take_rest(&desk, &mut keeper, stopped.back);
    let Ok(engine) = desk.close(keeper) else {
        unreachable!()
    };
    engine.history();
    let engine = engine.close(alloc);
    engine.outside_was_asked();
    let Ok(ends) = ends else {
        return out_of_memory(alloc);
    };
    let session = Session {
        engine: Some(engine),
        ends,
    };
    (stopped.why, session)
}
