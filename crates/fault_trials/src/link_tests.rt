//! Each call of a link fails in turn: the serving ends so, behind the phases before it.

ghost use Rattle.std.specs.Prelude.{◌≡◌, IfOk};
ghost use Rattle.client_links.specs.Wires.{IsFresh};
ghost use Rattle.client_links.specs.Memory.{memory_wire};

use crate::outside::PatternsAlone;
use client_links::{MemAcceptor, MemLink};
use jobs::{InTurn, StartPlan};
use kak_ports::FailingCalls;
use line_gates::OpenGate;
use link_lines::Ended;
use session_server::{LinkJob, run_server};
use std::alloc::{AllocError, Global};
use std::sync::Wait;
use std::test::Fail;

// The lines of a client, each of which comes at once. A phase is what is sent before them, and what each is answered: a drawing.
static LINES: [&str; 3] = [
    "{\"jsonrpc\":\"2.0\",\"method\":\"keys\",\"params\":[\"ix<esc>\"]}\n",
    "{\"jsonrpc\":\"2.0\",\"method\":\"keys\",\"params\":[\"h\"]}\n",
    "{\"jsonrpc\":\"2.0\",\"method\":\"keys\",\"params\":[\"l\"]}\n",
];

// What ends a drawing.
const DRAWN: &str = "{\"jsonrpc\":\"2.0\",\"method\":\"refresh\",\"params\":[false]}";

// Which hearing fails, or which sending, by its number.
#[derive(Clone, Copy)]
enum Failing {
    Hearing(u64),
    Sending(u64),
}

// Calls of which one fails, if one is named.
fn calls(alloc: Global, failing: Option<u64>) -> Result<FailingCalls, AllocError> {
    match failing {
        Some(number) => Ok(FailingCalls::at(vec![in alloc; number]?)),
        None => Ok(FailingCalls::none(alloc)),
    }
}

// The number of the hearing that fails, and of the sending.
fn numbers(failing: Failing) -> (Option<u64>, Option<u64>) {
    match failing {
        Failing::Hearing(number) => (Some(number), None),
        Failing::Sending(number) => (None, Some(number)),
    }
}

// The link of the client.
fn link_of(alloc: Global, failing: Failing) -> Result<MemLink, AllocError>
    ensures { IfOk result (λ link. IsFresh (memory_wire link)) }
{
    let (hearing, sending) = numbers(failing);
    let script = [
        LINES[0].as_bytes(),
        LINES[1].as_bytes(),
        LINES[2].as_bytes(),
    ];
    MemLink::new(
        alloc,
        &script,
        100_000,
        calls(alloc, hearing)?,
        calls(alloc, sending)?,
    )
}

// The words of a session.
fn words(alloc: Global) -> Result<Vec<String>, AllocError> {
    let mut words = Vec::new(alloc);
    words.push(String::from_str(alloc, "-s")?)?;
    words.push(String::from_str(alloc, "s")?)?;
    Ok(words)
}

// How many drawings are whole.
fn count_of(sent: &str) -> usize {
    sent.lines().filter(|line| *line == DRAWN).count()
}

// Serves the one link where something fails: how that ended, and how many drawings were sent whole. The next accepting fails.
fn serve<R: Wait>(rt: &R, alloc: Global, failing: Failing) -> Result<(Ended, usize), Fail> {
    let link = link_of(alloc, failing)?;
    let mut acceptor = MemAcceptor::new(alloc, vec![in alloc; link]?, calls(alloc, Some(2))?);
    let mut spawner: InTurn<LinkJob<MemLink, PatternsAlone, OpenGate>> = InTurn::new(
        alloc,
        StartPlan::none(alloc),
    );
    let words = words(alloc)?;
    let (_status, session) = run_server(
        rt,
        alloc,
        words.as_slice(),
        &mut acceptor,
        &mut spawner,
        OpenGate,
        PatternsAlone::new(),
    );
    let Some(session) = session else {
        return Err("there was a session".into());
    };
    let Some((ended, link)) = session.ends.get(0) else {
        return Err("the link was served".into());
    };
    Ok((*ended, count_of(str::from_utf8(link.contents())?)))
}

#[test]
fn each_call_of_a_link_that_fails_ends_it_behind_the_phases_before(
    rt: HostRuntime,
) -> Result<(), Fail> {
    let alloc = rt.alloc();
    for number in 0..=LINES.len() {
        let heard = serve(&rt, alloc, Failing::Hearing(number as u64))?;
        assert_eq!(rt;
            heard,
            (Ended::LinkRead, number.saturating_add(1)),
            "hearing {number}"
        );
        let sent = serve(&rt, alloc, Failing::Sending(number as u64))?;
        assert_eq!(rt; sent, (Ended::LinkWrite, number), "sending {number}");
    }
    let whole = serve(&rt, alloc, Failing::Hearing(LINES.len() as u64 + 1))?;
    assert_eq!(rt; whole, (Ended::Closed, LINES.len() + 1));
    Ok(())
}
