//! Each call of a run's files fails in turn: the client is told so, goes on with the text that it sees, and files hold what the writes
//! that went well left.

ghost use Rattle.std.specs.Prelude.{◌≡◌, IfOk};
ghost use Rattle.kak_engine.specs.Honesty.{IsUntouched};

use kak_app::{Status, run};
use kak_engine::FilesAndPatterns;
use kak_files::{MemFile, MemFiles};
use kak_ports::{FailingCalls, MemSink, MemSource};
use regex_ports::NoPatterns;
use std::alloc::{AllocError, Global};
use std::test::Fail;

type Files = FilesAndPatterns<MemFiles, NoPatterns>;

// What a client is sent first.
const OPTIONS: &str = "{\"jsonrpc\":\"2.0\",\"method\":\"set_ui_options\",\"params\":[{}]}\n";

const PLAIN: &str =
    "{\"attributes\":[],\"bg\":\"default\",\"fg\":\"default\",\"underline\":\"default\"}";

const PADDING: &str =
    "{\"attributes\":[],\"bg\":\"default\",\"fg\":\"blue\",\"underline\":\"default\"}";

const STATUS_LINE: &str =
    "{\"attributes\":[],\"bg\":\"default\",\"fg\":\"cyan\",\"underline\":\"default\"}";

const CURSOR: &str =
    "{\"attributes\":[],\"bg\":\"white\",\"fg\":\"black\",\"underline\":\"default\"}";

const ON_NEWLINE: &str =
    "{\"attributes\":[],\"bg\":\"cyan\",\"fg\":\"black\",\"underline\":\"default\"}";

const ERROR: &str = "{\"attributes\":[],\"bg\":\"red\",\"fg\":\"black\",\"underline\":\"default\"}";

// The keys of a line.
const EDIT: &str = ":edit n<ret>";

const TYPE: &str = "ia<esc>";

const WRITE: &str = ":write<ret>";

// What a client is shown of a text of one line: what stands before the cursor, whether the cursor is on a b behind that or on the
// newline, the name of the buffer, and the refusal that is told, if one is.
#[derive(Clone, Copy)]
struct Shown {
    before: &'static str,
    on_b: bool,
    name: &'static str,
    fault: &'static str,
}

const SCRATCH: Shown = Shown {
    before: "",
    on_b: false,
    name: "*scratch*",
    fault: "",
};

const OPENED: Shown = Shown {
    before: "",
    on_b: true,
    name: "n",
    fault: "",
};

const TYPED: Shown = Shown {
    before: "a",
    on_b: true,
    name: "n",
    fault: "",
};

const TYPED_TWICE: Shown = Shown {
    before: "aa",
    on_b: true,
    name: "n",
    fault: "",
};

// What is told of a file that can't be read or written.
const FAULT: &str = "file fault: n";

const SCRATCH_FAULT: Shown = Shown {
    before: "",
    on_b: false,
    name: "*scratch*",
    fault: FAULT,
};

const TYPED_FAULT: Shown = Shown {
    before: "a",
    on_b: true,
    name: "n",
    fault: FAULT,
};

const TWICE_FAULT: Shown = Shown {
    before: "aa",
    on_b: true,
    name: "n",
    fault: FAULT,
};

// A run in which a read fails, or a write, each by its number among all of its kind: the keys of its lines, what is shown first and
// behind each, and what the file holds at the end.
struct Row {
    name: &'static str,
    read: Option<u64>,
    write: Option<u64>,
    lines: &'static [&'static str],
    shown: &'static [Shown],
    held: &'static str,
}

static ROWS: [Row; 5] = [
    Row {
        name: "no call fails",
        read: Some(1),
        write: Some(1),
        lines: &[EDIT, TYPE, WRITE],
        shown: &[SCRATCH, OPENED, TYPED, TYPED],
        held: "ab\n",
    },
    Row {
        name: "the read fails, and goes well when it is tried again",
        read: Some(0),
        write: None,
        lines: &[EDIT, EDIT],
        shown: &[SCRATCH, SCRATCH_FAULT, OPENED],
        held: "b\n",
    },
    Row {
        name: "the first write fails",
        read: None,
        write: Some(0),
        lines: &[EDIT, TYPE, WRITE],
        shown: &[SCRATCH, OPENED, TYPED, TYPED_FAULT],
        held: "b\n",
    },
    Row {
        name: "it goes well when it is tried again",
        read: None,
        write: Some(0),
        lines: &[EDIT, TYPE, WRITE, WRITE],
        shown: &[SCRATCH, OPENED, TYPED, TYPED_FAULT, TYPED],
        held: "ab\n",
    },
    Row {
        name: "the second write fails",
        read: None,
        write: Some(1),
        lines: &[EDIT, TYPE, WRITE, TYPE, WRITE],
        shown: &[SCRATCH, OPENED, TYPED, TYPED, TYPED_TWICE, TWICE_FAULT],
        held: "ab\n",
    },
];

// Text in a face, with a comma before it unless it is the first.
fn push_atom(
    alloc: Global,
    out: &mut String,
    first: bool,
    text: &str,
    face: &str,
) -> Result<(), AllocError> {
    if !first {
        out.push_str(",")?;
    }
    let atom = format!(in alloc; "{{\"contents\":\"{text}\",\"face\":{face}}}")?;
    out.push_str(atom.as_str())
}

// The atoms of the line.
fn push_line(alloc: Global, out: &mut String, shown: &Shown) -> Result<(), AllocError> {
    if !shown.before.is_empty() {
        push_atom(alloc, out, true, shown.before, PLAIN)?;
    }
    if shown.on_b {
        push_atom(alloc, out, shown.before.is_empty(), "b", CURSOR)?;
        return push_atom(alloc, out, false, "\\n", PLAIN);
    }
    push_atom(alloc, out, shown.before.is_empty(), "\\n", ON_NEWLINE)
}

// The lines of a drawing.
fn push_drawing(alloc: Global, out: &mut String, shown: &Shown) -> Result<(), AllocError> {
    out.push_str("{\"jsonrpc\":\"2.0\",\"method\":\"draw\",\"params\":[[[")?;
    push_line(alloc, out, shown)?;
    let rest = format!(in alloc;
        "]],{PLAIN},{PADDING}]}}\n{{\"jsonrpc\":\"2.0\",\"method\":\"draw_status\",\"params\":[["
    )?;
    out.push_str(rest.as_str())?;
    if !shown.fault.is_empty() {
        push_atom(alloc, out, true, shown.fault, ERROR)?;
    }
    out.push_str("],[")?;
    let column = shown.before.len();
    let mode = format!(in alloc;
        "{} 1:{} normal 1/1 - client0",
        shown.name,
        column.saturating_add(1)
    )?;
    push_atom(alloc, out, true, mode.as_str(), STATUS_LINE)?;
    let end = format!(in alloc;
        "],{STATUS_LINE}]}}\n{{\"jsonrpc\":\"2.0\",\"method\":\"set_cursor\",\"params\":[\"buffer\",{{\"column\":{column},\"line\":0}}]}}\n{{\"jsonrpc\":\"2.0\",\"method\":\"refresh\",\"params\":[false]}}\n"
    )?;
    out.push_str(end.as_str())
}

// What a run is to send.
fn due(alloc: Global, row: &Row) -> Result<String, AllocError> {
    let mut sent = String::from_str(alloc, OPTIONS)?;
    for shown in row.shown {
        push_drawing(alloc, &mut sent, shown)?;
    }
    Ok(sent)
}

// The lines of a run.
fn input(alloc: Global, row: &Row) -> Result<Vec<u8>, AllocError> {
    let mut bytes = Vec::new(alloc);
    for keys in row.lines {
        let line = format!(in alloc;
            "{{\"jsonrpc\":\"2.0\",\"method\":\"keys\",\"params\":[\"{keys}\"]}}\n"
        )?;
        bytes.extend_from_slice(line.as_bytes())?;
    }
    Ok(bytes)
}

// Calls of which one fails, if one is named.
fn calls(alloc: Global, failing: Option<u64>) -> Result<FailingCalls, AllocError> {
    match failing {
        Some(number) => Ok(FailingCalls::at(vec![in alloc; number]?)),
        None => Ok(FailingCalls::none(alloc)),
    }
}

// One file in memory, with the calls that fail, and no patterns.
fn files_of(alloc: Global, row: &Row) -> Result<Files, AllocError>
    ensures { IfOk result (λ outside. IsUntouched outside.shelf.told) }
{
    let name = String::from_str(alloc, "n")?;
    let file = MemFile::new(name, Vec::from_slice(alloc, b"b\n")?);
    let reads = calls(alloc, row.read)?;
    let writes = calls(alloc, row.write)?;
    let files = MemFiles::new(alloc, vec![in alloc; file]?, 1_000, reads, writes)?;
    Ok(FilesAndPatterns::new(files, NoPatterns::new()))
}

// The words of a client that is to be sent JSON.
fn words(alloc: Global) -> Result<Vec<String>, AllocError> {
    let mut words = Vec::new(alloc);
    words.push(String::from_str(alloc, "-ui")?)?;
    words.push(String::from_str(alloc, "json")?)?;
    Ok(words)
}

// What a run left: its status, what was sent, and what the file holds.
#[derive(Drop)]
struct Left {
    status: Status,
    sent: Vec<u8>,
    held: Vec<u8>,
}

// Runs the program by a row.
fn play(alloc: Global, row: &Row) -> Result<Left, Fail> {
    let words = words(alloc)?;
    let mut source = MemSource::new(input(alloc, row)?, 4096, FailingCalls::none(alloc));
    let mut sink = MemSink::new(alloc, 100_000, FailingCalls::none(alloc))?;
    let files = files_of(alloc, row)?;
    let (status, outside) = run(alloc, words.as_slice(), &mut source, &mut sink, files);
    let (files, _patterns) = outside.into_parts();
    let Some(held) = files.contents("n") else {
        return Err("the file is there".into());
    };
    Ok(Left {
        status,
        sent: Vec::from_slice(alloc, sink.contents())?,
        held: Vec::from_slice(alloc, held)?,
    })
}

#[test]
fn each_call_of_files_that_fails_is_told_and_nothing_is_lost(rt: HostRuntime) -> Result<(), Fail> {
    let alloc = rt.alloc();
    for row in &ROWS {
        let left = play(alloc, row)?;
        assert_eq!(rt; left.status, Status::Done, "{}", row.name);
        assert!(rt;
            left.sent.as_slice() == due(alloc, row)?.as_bytes(),
            "{}",
            row.name
        );
        assert!(rt; left.held.as_slice() == row.held.as_bytes(), "{}", row.name);
    }
    Ok(())
}
