//! Texts are rescued to files in memory: which of them, as which bytes, and what a write that fails leaves.

ghost use Rattle.std.specs.Prelude.{◌≡◌, IfOk};
ghost use Rattle.kak_engine.specs.Honesty.{IsUntouched};

use kak_engine::{Engine, FilesAndPatterns};
use kak_files::MemFiles;
use kak_ports::FailingCalls;
use key_names::read_keys;
use regex_ports::NoPatterns;
use session_events::Event;
use std::alloc::{AllocError, Global};
use std::test::Fail;

type Files = FilesAndPatterns<MemFiles, NoPatterns>;

// A session of one client, then a rescue: the keys, which write fails, if one does, how many texts are rescued, and what files hold
// then; an empty text is that of a file that isn't there.
struct Row {
    name: &'static str,
    keys: &'static str,
    failing: Option<u64>,
    rescued: u32,
    held: &'static [(&'static str, &'static str)],
}

static ROWS: [Row; 7] = [
    Row {
        name: "a text that is no file's",
        keys: "ia<esc>",
        failing: None,
        rescued: 1,
        held: &[("*scratch*.kak-rescue", "a\n"), ("*scratch*", "")],
    },
    Row {
        name: "a text that is being typed",
        keys: "iab",
        failing: None,
        rescued: 1,
        held: &[("*scratch*.kak-rescue", "ab\n")],
    },
    Row {
        name: "nothing was typed",
        keys: "l:edit n<ret>",
        failing: None,
        rescued: 0,
        held: &[
            ("*scratch*.kak-rescue", ""),
            ("n.kak-rescue", ""),
            ("n", ""),
        ],
    },
    Row {
        name: "two texts",
        keys: "ia<esc>:edit n<ret>ib<esc>",
        failing: None,
        rescued: 2,
        held: &[
            ("*scratch*.kak-rescue", "a\n"),
            ("n.kak-rescue", "b\n"),
            ("n", ""),
        ],
    },
    Row {
        name: "two texts, of which the first can't be written",
        keys: "ia<esc>:edit n<ret>ib<esc>",
        failing: Some(0),
        rescued: 1,
        held: &[("*scratch*.kak-rescue", ""), ("n.kak-rescue", "b\n")],
    },
    Row {
        name: "a text that was saved isn't rescued",
        keys: "ia<esc>:edit n<ret>ib<esc>:write<ret>",
        failing: None,
        rescued: 1,
        held: &[
            ("*scratch*.kak-rescue", "a\n"),
            ("n", "b\n"),
            ("n.kak-rescue", ""),
        ],
    },
    Row {
        name: "a text in another form",
        keys: ":edit n<ret>:set-option buffer eolformat crlf<ret>ib<esc>",
        failing: None,
        rescued: 1,
        held: &[("n.kak-rescue", "b\r\n")],
    },
];

// Files in memory, of which none is there, and of whose writes one fails, if one is named; and no patterns.
fn files_of(alloc: Global, failing: Option<u64>) -> Result<Files, AllocError>
    ensures { IfOk result (λ outside. IsUntouched outside.shelf.told) }
{
    let writes = match failing {
        Some(number) => FailingCalls::at(vec![in alloc; number]?),
        None => FailingCalls::none(alloc),
    };
    let files = MemFiles::new(
        alloc,
        Vec::new(alloc),
        1_000,
        FailingCalls::none(alloc),
        writes,
    )?;
    Ok(FilesAndPatterns::new(files, NoPatterns::new()))
}

// An engine at which a client has come and struck keys.
fn played(alloc: Global, row: &Row) -> Result<Engine<Files>, Fail> {
    let Ok(mut engine) = Engine::new(alloc, files_of(alloc, row.failing)?, 1_000) else {
        return Err("there is memory for an engine".into());
    };
    engine.step(alloc, 0, &Event::Join)?;
    let keys = read_keys(alloc, row.keys)?;
    for key in keys.as_slice() {
        engine.step(alloc, 0, &Event::Key(*key))?;
    }
    Ok(engine)
}

// How many texts are rescued of an engine, and its files then.
fn rescued(alloc: Global, mut engine: Engine<Files>) -> Result<(u32, MemFiles), AllocError> {
    let done = engine.rescue(alloc)?;
    let (files, _patterns) = engine.into_outside().into_parts();
    Ok((done, files))
}

// What a file holds; nothing where it isn't there.
fn held<'a>(files: &'a MemFiles, name: &str) -> &'a [u8] {
    match files.contents(name) {
        Some(bytes) => bytes,
        None => b"",
    }
}

#[test]
fn texts_that_may_differ_from_what_was_saved_are_rescued(rt: HostRuntime) -> Result<(), Fail> {
    for row in &ROWS {
        let (done, files) = rescued(rt.alloc(), played(rt.alloc(), row)?)?;
        assert_eq!(rt; done, row.rescued, "{}", row.name);
        for (name, text) in row.held {
            assert!(rt;
                held(&files, name) == text.as_bytes(),
                "{}: {}",
                row.name,
                name
            );
        }
    }
    Ok(())
}
