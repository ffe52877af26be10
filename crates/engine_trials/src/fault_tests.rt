//! Each call of a run's input and output fails in turn: the run ends with the status for that, and what was sent is what the phases
//! before it are due.

use crate::client_lines::{EMPTY, INVALID, OPTIONS};
use kak_app::{Status, run};
use kak_engine::NoOutside;
use kak_ports::{FailingCalls, MemSink, MemSource};
use std::alloc::{AllocError, Global};
use std::test::Fail;

// Lines that all have so many bytes, so that each is what one take gives.
const WIDE: usize = 64;

static LINES: [&str; 3] = [
    "{\"jsonrpc\":\"2.0\",\"method\":\"keys\",\"params\":[\"hjh\"]}",
    "[]",
    "{\"jsonrpc\":\"2.0\",\"method\":\"keys\",\"params\":[\"l\"]}",
];

// What the phases of the run are due, each in one put: its opening, and then each line.
static PHASES: [&[&str]; 4] = [&[OPTIONS, EMPTY], &[EMPTY], &[INVALID], &[EMPTY]];

// What fails in a run, if anything.
#[derive(Clone, Copy)]
enum Failing {
    Take(u64),
    Put(u64),
}

// The lines, each with blanks up to its newline.
fn input(alloc: Global) -> Result<Vec<u8>, AllocError> {
    let mut bytes = Vec::new(alloc);
    for line in &LINES {
        bytes.extend_from_slice(line.as_bytes())?;
        for _ in line.len() + 1..WIDE {
            bytes.push(b' ')?;
        }
        bytes.push(b'\n')?;
    }
    Ok(bytes)
}

// The bytes of a phase.
fn phase(alloc: Global, texts: &[&str]) -> Result<Vec<u8>, AllocError> {
    let mut bytes = Vec::new(alloc);
    for text in texts {
        bytes.extend_from_slice(text.as_bytes())?;
    }
    Ok(bytes)
}

// What so many phases are due, and the first half of the next, where its put fails.
fn due(alloc: Global, whole: usize, half: bool) -> Result<Vec<u8>, AllocError> {
    let mut bytes = Vec::new(alloc);
    for (n, texts) in PHASES.iter().enumerate() {
        let of_phase = phase(alloc, texts)?;
        if n < whole {
            bytes.extend_from_slice(of_phase.as_slice())?;
        }
        if n == whole && half {
            bytes.extend_from_slice(&of_phase.as_slice()[..of_phase.len() / 2])?;
        }
    }
    Ok(bytes)
}

// Calls of which one fails.
fn calls(alloc: Global, failing: Option<u64>) -> Result<FailingCalls, AllocError> {
    match failing {
        Some(number) => Ok(FailingCalls::at(vec![in alloc; number]?)),
        None => Ok(FailingCalls::none(alloc)),
    }
}

// The words of a client that is to be sent JSON.
fn words(alloc: Global) -> Result<Vec<String>, AllocError> {
    let mut words = Vec::new(alloc);
    words.push(String::from_str(alloc, "-ui")?)?;
    words.push(String::from_str(alloc, "json")?)?;
    Ok(words)
}

// The number of the take that fails, and of the put.
fn numbers(failing: Failing) -> (Option<u64>, Option<u64>) {
    match failing {
        Failing::Take(number) => (Some(number), None),
        Failing::Put(number) => (None, Some(number)),
    }
}

// Runs the program where something fails: its status, and what was sent.
fn play(alloc: Global, failing: Failing) -> Result<(Status, Vec<u8>), Fail> {
    let (take, put) = numbers(failing);
    let words = words(alloc)?;
    let mut source = MemSource::new(input(alloc)?, WIDE, calls(alloc, take)?);
    let mut sink = MemSink::new(alloc, 100_000, calls(alloc, put)?)?;
    let (status, _outside) = run(
        alloc,
        words.as_slice(),
        &mut source,
        &mut sink,
        NoOutside::new(),
    );
    let sent = Vec::from_slice(alloc, sink.contents())?;
    Ok((status, sent))
}

#[test]
fn each_take_that_fails_is_told_behind_the_lines_before_it(rt: HostRuntime) -> Result<(), Fail> {
    for number in 0..=LINES.len() {
        let (status, sent) = play(rt.alloc(), Failing::Take(number as u64))?;
        assert_eq!(rt; status, Status::ReadFault, "take {number}");
        assert!(rt;
            sent.as_slice() == due(rt.alloc(), number + 1, false)?.as_slice(),
            "take {number}"
        );
    }
    Ok(())
}

#[test]
fn each_put_that_fails_is_told_behind_the_phases_before_it(rt: HostRuntime) -> Result<(), Fail> {
    for number in 0..PHASES.len() {
        let (status, sent) = play(rt.alloc(), Failing::Put(number as u64))?;
        assert_eq!(rt; status, Status::WriteFault, "put {number}");
        assert!(rt;
            sent.as_slice() == due(rt.alloc(), number, true)?.as_slice(),
            "put {number}"
        );
    }
    Ok(())
}

#[test]
fn where_no_call_fails_all_is_sent(rt: HostRuntime) -> Result<(), Fail> {
    for failing in [
        Failing::Take(LINES.len() as u64 + 1),
        Failing::Put(PHASES.len() as u64),
    ] {
        let (status, sent) = play(rt.alloc(), failing)?;
        assert_eq!(rt; status, Status::Done);
        assert!(rt; sent.as_slice() == due(rt.alloc(), PHASES.len(), false)?.as_slice());
    }
    Ok(())
}
