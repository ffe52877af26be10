//! Whole servers over links in memory, played by scripts, over threads and in turn.

ghost use Rattle.std.specs.Prelude.{◌≡◌, [], IfOk};
ghost use Rattle.client_links.specs.Wires.{IsFresh};
ghost use Rattle.client_links.specs.Memory.{memory_wire};

use crate::outside::PatternsAlone;
use client_links::{MemAcceptor, MemLink};
use jobs::{InTurn, Spawner, StartPlan, ThreadSpawner, begin};
use kak_ports::FailingCalls;
use line_gates::{Awaited, HeldGate, LineOf};
use link_lines::Ended;
use session_events::{Entry, Event};
use session_server::{LinkJob, ServerStatus, Session, run_server};
use std::alloc::{AllocError, Global};
use std::sync::Wait;
use std::test::Fail;

type HeldJob = LinkJob<MemLink, PatternsAlone, HeldGate>;

const TYPES_X: &str = "{\"jsonrpc\":\"2.0\",\"method\":\"keys\",\"params\":[\"ix<esc>\"]}\n";

const TYPES_Y: &str = "{\"jsonrpc\":\"2.0\",\"method\":\"keys\",\"params\":[\"iy<esc>\"]}\n";

// A drawing in which the letter stands in a face of its own.
const X_IS_DRAWN: &str = "{\"contents\":\"x\",\"face\"";

// What two clients say to a server, and what is to come of it.
struct Script {
    // the file that the server's words name, if they name one
    file: Option<&'static str>,
    // what each client says, or nothing for a while where it is empty, and which hearing of it fails, if one does
    first: (&'static str, Option<u64>),
    second: (&'static str, Option<u64>),
    // which accepting fails, if one does
    accepting: Option<u64>,
    // whose first line is held back, until a line of whom was answered, and for how many turns at most
    held: (u32, u32, u32),
    // what is to come of it, each with its name
    rows: &'static [(&'static str, Row)],
}

// Something that is to hold of what is left of a server.
#[derive(Clone, Copy)]
enum Row {
    // This is its status.
    Status(ServerStatus),
    // Whether the line that was held back ran before what it awaited.
    Overdue(bool),
    // So many links came.
    Links(usize),
    // The serving of this link ended so.
    End(usize, Ended),
    // This text stands in what was sent over this link.
    Sent(usize, &'static str),
    // This was received over this link.
    Received(usize, &'static str),
    // This client struck the first key.
    StruckFirst(u32),
    // This client made so many entries.
    Made(u32, usize),
}

// What is left of a link: how its serving ended, what was sent and what was received.
#[derive(Drop)]
struct LinkLeft {
    ended: Ended,
    sent: String,
    received: String,
}

// What is left of a server: its status, whether the line that was held back was overdue, what is left of the links, and who
// made each entry, with whether that was a key.
#[derive(Drop)]
struct Left {
    status: ServerStatus,
    overdue: bool,
    links: Vec<LinkLeft>,
    entries: Vec<(u32, bool)>,
}

// Calls of which one fails, if one is named.
fn calls(alloc: Global, failing: Option<u64>) -> Result<FailingCalls, AllocError> {
    match failing {
        Some(number) => Ok(FailingCalls::at(vec![in alloc; number]?)),
        None => Ok(FailingCalls::none(alloc)),
    }
}

// A link whose client says this.
fn link_of(alloc: Global, says: (&str, Option<u64>)) -> Result<MemLink, AllocError>
    ensures { IfOk result (λ link. IsFresh (memory_wire link)) }
{
    let (piece, failing) = says;
    let hearing = calls(alloc, failing)?;
    let script = [piece.as_bytes()];
    MemLink::new(alloc, &script, 10_000, hearing, FailingCalls::none(alloc))
}

// The links of a script.
fn acceptor_of(alloc: Global, script: &Script) -> Result<MemAcceptor, AllocError> {
    let first = link_of(alloc, script.first)?;
    let second = link_of(alloc, script.second)?;
    let accepting = calls(alloc, script.accepting)?;
    Ok(MemAcceptor::new(alloc, vec![in alloc; first, second]?, accepting))
}

// The gate of a script.
fn gate_of(alloc: Global, script: &Script) -> Result<HeldGate, AllocError> {
    let (who, other, turns) = script.held;
    HeldGate::new(alloc, LineOf { who, line: 0 }, Awaited::AnyOf(other), turns)
}

// The words of a session, and of a file where one is named.
fn words(alloc: Global, file: Option<&str>) -> Result<Vec<String>, AllocError> {
    let mut words = Vec::new(alloc);
    words.push(String::from_str(alloc, "-s")?)?;
    words.push(String::from_str(alloc, "s")?)?;
    if let Some(name) = file {
        words.push(String::from_str(alloc, name)?)?;
    }
    Ok(words)
}

// What is left of a link.
fn left_of_link(alloc: Global, ended: Ended, link: &MemLink) -> Result<LinkLeft, Fail> {
    Ok(LinkLeft {
        ended,
        sent: String::from_str(alloc, str::from_utf8(link.contents())?)?,
        received: String::from_str(alloc, str::from_utf8(link.received())?)?,
    })
}

// What is left of links.
fn left_of_links(alloc: Global, ends: &[(Ended, MemLink)]) -> Result<Vec<LinkLeft>, Fail> {
    let mut links = Vec::new(alloc);
    for (ended, link) in ends {
        links.push(left_of_link(alloc, *ended, link)?)?;
    }
    Ok(links)
}

// Who made each entry, with whether it is a key.
fn makers(alloc: Global, history: &[Entry]) -> Result<Vec<(u32, bool)>, AllocError> {
    let mut makers = Vec::new(alloc);
    for entry in history {
        makers.push((entry.who, matches!(entry.event, Event::Key(_))))?;
    }
    Ok(makers)
}

// What is left of a server.
fn left_of(
    alloc: Global,
    status: ServerStatus,
    overdue: bool,
    session: Option<Session<PatternsAlone, MemLink>>,
) -> Result<Left, Fail> {
    let Some(session) = session else {
        return Err("there was a session".into());
    };
    let Some(engine) = &session.engine else {
        return Err("the engine is left".into());
    };
    Ok(Left {
        status,
        overdue,
        links: left_of_links(alloc, session.ends.as_slice())?,
        entries: makers(alloc, engine.history())?,
    })
}

// Runs a server by a script.
fn serve<R: Wait, P: Spawner<HeldJob>>(
    rt: &R,
    alloc: Global,
    script: &Script,
    spawner: &mut P,
) -> Result<Left, Fail>
    requires idle { P.started spawner.old ≡ [] }
    requires fit { P.fit spawner.old }
{
    let mut acceptor = acceptor_of(alloc, script)?;
    let gate = gate_of(alloc, script)?;
    let words = words(alloc, script.file)?;
    let (status, session) = run_server(
        rt,
        alloc,
        words.as_slice(),
        &mut acceptor,
        spawner,
        gate.clone()?,
        PatternsAlone::new(),
    );
    left_of(alloc, status, gate.was_overdue(), session)
}

// Who struck the first key.
fn first_to_strike(entries: &[(u32, bool)]) -> Option<u32> {
    for &(who, is_key) in entries {
        if is_key {
            return Some(who);
        }
    }
    None
}

// How many entries are this client's.
fn count_of(entries: &[(u32, bool)], who: u32) -> usize {
    entries.iter().filter(|entry| entry.0 == who).count()
}

// Whether something holds of what is left of a server.
fn holds(left: &Left, row: Row) -> bool {
    match row {
        Row::Status(status) => left.status == status,
        Row::Overdue(overdue) => left.overdue == overdue,
        Row::Links(count) => left.links.len() == count,
        Row::End(number, ended) => match left.links.get(number) {
            Some(link) => link.ended == ended,
            None => false,
        },
        Row::Sent(number, text) => match left.links.get(number) {
            Some(link) => link.sent.contains(text),
            None => false,
        },
        Row::Received(number, text) => match left.links.get(number) {
            Some(link) => link.received.as_str() == text,
            None => false,
        },
        Row::StruckFirst(who) => first_to_strike(left.entries.as_slice()) == Some(who),
        Row::Made(who, count) => count_of(left.entries.as_slice(), who) == count,
    }
}

// The first row of a script that doesn't hold of what is left.
fn first_wrong(left: &Left, script: &Script) -> Option<&'static str> {
    for &(name, row) in script.rows {
        if !holds(left, row) {
            return Some(name);
        }
    }
    None
}

static HELD_BACK: Script = Script {
    file: None,
    first: (TYPES_Y, None),
    second: (TYPES_X, None),
    // long behind its end: a server that went on though all had left would come to it
    accepting: Some(50_000_000),
    held: (0, 1, 60_000),
    rows: &[
        ("all clients left", Row::Status(ServerStatus::Ended)),
        ("the line ran behind what it awaited", Row::Overdue(false)),
        ("both came", Row::Links(2)),
        ("the first link was closed", Row::End(0, Ended::Closed)),
        ("the second link was closed", Row::End(1, Ended::Closed)),
        ("the second one was drawn", Row::Sent(1, X_IS_DRAWN)),
        ("the second one struck first", Row::StruckFirst(1)),
    ],
};

#[test]
fn a_client_is_drawn_while_another_one_is_held_back(rt: HostRuntime) -> Result<(), Fail> {
    let alloc = rt.alloc();
    let mut spawner = ThreadSpawner::new(rt, alloc, move |job: HeldJob| begin(rt, alloc, job));
    let left = serve(&rt, alloc, &HELD_BACK, &mut spawner)?;
    assert_eq!(rt; first_wrong(&left, &HELD_BACK), None);
    Ok(())
}

static IN_TURN: Script = Script {
    file: Some("n"),
    first: ("", Some(1)),
    second: (TYPES_X, None),
    accepting: Some(3),
    held: (1, 0, 1),
    rows: &[
        ("accepting failed", Row::Status(ServerStatus::AcceptFault)),
        ("the line ran before what it awaited", Row::Overdue(true)),
        ("both came", Row::Links(2)),
        ("the first link failed", Row::End(0, Ended::LinkRead)),
        ("the second link was closed", Row::End(1, Ended::Closed)),
        (
            "the first one was drawn the file",
            Row::Sent(0, "\"contents\":\"n 1:1"),
        ),
        (
            "all of the second one's line came",
            Row::Received(1, TYPES_X),
        ),
        ("the second one made entries", Row::Made(1, 7)),
    ],
};

#[test]
fn links_served_in_turn_end_in_the_order_in_which_they_came(rt: HostRuntime) -> Result<(), Fail> {
    let alloc = rt.alloc();
    let mut spawner: InTurn<HeldJob> = InTurn::new(alloc, StartPlan::none(alloc));
    let left = serve(&rt, alloc, &IN_TURN, &mut spawner)?;
    assert_eq!(rt; first_wrong(&left, &IN_TURN), None);
    Ok(())
}
