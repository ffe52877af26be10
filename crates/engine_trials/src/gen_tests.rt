//! Generated sessions over a sink in memory, with and without room for the summary.

use kak_app::{Status, run};
use kak_engine::NoOutside;
use kak_ports::{FailingCalls, MemSink, MemSource};
use std::alloc::{AllocError, Global};
use std::test::Fail;

// A run: the three words behind `gen`, how many bytes there is room for in what is sent, and what is to come of it: the status,
// and what is sent.
struct Row {
    name: &'static str,
    numbers: [&'static str; 3],
    room: usize,
    status: Status,
    sent: &'static str,
}

static ROWS: [Row; 5] = [
    Row {
        name: "one client strikes one key, which is y",
        numbers: ["1", "1", "0"],
        room: 1_000,
        status: Status::Done,
        sent: "entries 2\nchars 1\nlines 1\nclient0 sels 1\n",
    },
    Row {
        name: "two clients come, and no key is struck",
        numbers: ["2", "0", "7"],
        room: 1_000,
        status: Status::Done,
        sent: "entries 2\nchars 1\nlines 1\nclient0 sels 1\nclient1 sels 1\n",
    },
    Row {
        name: "a line is opened, and nine letters are typed into it",
        numbers: ["01", "010", "007"],
        room: 1_000,
        status: Status::Done,
        sent: "entries 11\nchars 11\nlines 2\nclient0 sels 1\n",
    },
    Row {
        name: "there is no room for the whole summary",
        numbers: ["1", "1", "0"],
        room: 12,
        status: Status::WriteFault,
        sent: "entries 2\nch",
    },
    Row {
        name: "nobody comes",
        numbers: ["0", "1", "1"],
        room: 1_000,
        status: Status::Usage,
        sent: "",
    },
];

// What a run left: its status, and what was sent.
#[derive(Drop)]
struct Left {
    status: Status,
    sent: Vec<u8>,
}

// The words of a row.
fn words(alloc: Global, row: &Row) -> Result<Vec<String>, AllocError> {
    let mut words = Vec::new(alloc);
    words.push(String::from_str(alloc, "gen")?)?;
    for number in &row.numbers {
        words.push(String::from_str(alloc, *number)?)?;
    }
    Ok(words)
}

// Runs the program by a row, on an input of which each taking fails, with no outside.
fn play(alloc: Global, row: &Row) -> Result<Left, Fail> {
    let words = words(alloc, row)?;
    let failing = FailingCalls::at(vec![in alloc; 0u64]?);
    let mut source = MemSource::new(Vec::new(alloc), 1, failing);
    let mut sink = MemSink::new(alloc, row.room, FailingCalls::none(alloc))?;
    let (status, _outside) = run(
        alloc,
        words.as_slice(),
        &mut source,
        &mut sink,
        NoOutside::new(),
    );
    Ok(left_of(alloc, status, &sink)?)
}

// What a run left, by its status and its sink.
fn left_of(alloc: Global, status: Status, sink: &MemSink) -> Result<Left, AllocError> {
    let sent = Vec::from_slice(alloc, sink.contents())?;
    Ok(Left { status, sent })
}

#[test]
fn generated_sessions_are_summed_up(rt: HostRuntime) -> Result<(), Fail> {
    for row in &ROWS {
        let left = play(rt.alloc(), row)?;
        assert_eq!(rt; left.status, row.status, "{}", row.name);
        assert!(rt; left.sent.as_slice() == row.sent.as_bytes(), "{}", row.name);
    }
    Ok(())
}
