//! Whole runs for one client over ports in memory: with inputs that come in pieces, calls that fail, and little room.

use crate::client_lines::{EMPTY, INVALID, OPTIONS};
use kak_app::{Status, run};
use kak_engine::NoOutside;
use kak_ports::{FailingCalls, MemSink, MemSource};
use std::alloc::{AllocError, Global};
use std::test::Fail;

// Keys that move nothing, a refused line, a leave, and a line that isn't read any more.
const LINES: &str =
    "{\"jsonrpc\": \"2.0\", \"method\": \"keys\", \"params\": [\"hjh\", \"j\"]}\n{\"jsonrpc\": \"2.0\", \"method\": \"keys\", \"params\": [\"hj\", \"hh\"]}\n[]\n{\"jsonrpc\": \"2.0\", \"method\": \"keys\", \"params\": [\":quit<ret>\"]}\n{\"jsonrpc\": \"2.0\", \"method\": \"keys\", \"params\": [\"l\"]}";

// A run: its input, of which so many bytes at most come at once, which taking of it fails, if one does, how many bytes there
// is room for in what is sent, and what is to come of it: the status, and what is sent, as far as there is room.
struct Row {
    name: &'static str,
    input: &'static str,
    piece: usize,
    failing: Option<u64>,
    room: usize,
    status: Status,
    sent: &'static [&'static str],
}

static ROWS: [Row; 6] = [
    Row {
        name: "lines that come byte by byte are answered in order up to the leave",
        input: LINES,
        piece: 1,
        failing: None,
        room: 100_000,
        status: Status::Done,
        sent: &[OPTIONS, EMPTY, EMPTY, EMPTY, INVALID, EMPTY],
    },
    Row {
        name: "so are lines that come in pieces",
        input: LINES,
        piece: 7,
        failing: None,
        room: 100_000,
        status: Status::Done,
        sent: &[OPTIONS, EMPTY, EMPTY, EMPTY, INVALID, EMPTY],
    },
    Row {
        name: "and lines that come at once",
        input: LINES,
        piece: 4096,
        failing: None,
        room: 100_000,
        status: Status::Done,
        sent: &[OPTIONS, EMPTY, EMPTY, EMPTY, INVALID, EMPTY],
    },
    Row {
        name: "a last part is a line too",
        input: "[]",
        piece: 1,
        failing: None,
        room: 100_000,
        status: Status::Done,
        sent: &[OPTIONS, EMPTY, INVALID],
    },
    Row {
        name: "taking fails behind the first drawing",
        input: "\n",
        piece: 4096,
        failing: Some(0),
        room: 100_000,
        status: Status::ReadFault,
        sent: &[OPTIONS, EMPTY],
    },
    Row {
        name: "there is no room for the first drawing",
        input: "\n",
        piece: 4096,
        failing: None,
        room: 100,
        status: Status::WriteFault,
        sent: &[OPTIONS, EMPTY],
    },
];

// What a run left: its status, and what was sent.
#[derive(Drop)]
struct Left {
    status: Status,
    sent: Vec<u8>,
}

// The words of a client that is to be sent JSON.
fn words(alloc: Global) -> Result<Vec<String>, AllocError> {
    let mut words = Vec::new(alloc);
    words.push(String::from_str(alloc, "-ui")?)?;
    words.push(String::from_str(alloc, "json")?)?;
    Ok(words)
}

// Calls of which one fails, if one is named.
fn calls(alloc: Global, failing: Option<u64>) -> Result<FailingCalls, AllocError> {
    match failing {
        Some(number) => Ok(FailingCalls::at(vec![in alloc; number]?)),
        None => Ok(FailingCalls::none(alloc)),
    }
}

// The input of a row.
fn source_of(alloc: Global, row: &Row) -> Result<MemSource, Fail> {
    if row.piece == 0 {
        return Err("a piece has a byte".into());
    }
    let bytes = Vec::from_slice(alloc, row.input.as_bytes())?;
    Ok(MemSource::new(bytes, row.piece, calls(alloc, row.failing)?))
}

// Runs the program by a row, with no files and no patterns.
fn play(alloc: Global, row: &Row) -> Result<Left, Fail> {
    let words = words(alloc)?;
    let mut source = source_of(alloc, row)?;
    let mut sink = MemSink::new(alloc, row.room, FailingCalls::none(alloc))?;
    let (status, _outside) = run(
        alloc,
        words.as_slice(),
        &mut source,
        &mut sink,
        NoOutside::new(),
    );
    Ok(left_of(alloc, status, &sink)?)
}

// What a run left, by its status and its sink.
fn left_of(alloc: Global, status: Status, sink: &MemSink) -> Result<Left, AllocError> {
    let sent = Vec::from_slice(alloc, sink.contents())?;
    Ok(Left { status, sent })
}

// The bytes of texts, as far as there is room.
fn bytes_of(alloc: Global, texts: &[&str], room: usize) -> Result<Vec<u8>, AllocError> {
    let mut bytes = Vec::new(alloc);
    for text in texts {
        bytes.extend_from_slice(text.as_bytes())?;
    }
    bytes.truncate(room);
    Ok(bytes)
}

// Whether what is to be sent was sent.
fn is_sent(alloc: Global, sent: &[u8], row: &Row) -> Result<bool, AllocError> {
    Ok(bytes_of(alloc, row.sent, row.room)?.as_slice() == sent)
}

#[test]
fn runs_over_ports_in_memory_answer_and_end_as_they_are_to(rt: HostRuntime) -> Result<(), Fail> {
    for row in &ROWS {
        let left = play(rt.alloc(), row)?;
        assert_eq!(rt; left.status, row.status, "{}", row.name);
        assert!(rt;
            is_sent(rt.alloc(), left.sent.as_slice(), row)?,
            "{}",
            row.name
        );
    }
    Ok(())
}
