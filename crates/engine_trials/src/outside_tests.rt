//! Each ask of files and a maker of patterns is one call of theirs.

use kak_engine::{FilesAndPatterns, Outside};
use kak_files::{FileRead, Files, NoFiles};
use kak_ports::Put;
use regex_ports::{Made, NoPattern, NoPatterns, PatternMaker};
use std::alloc::{AllocError, Global};
use std::test::Fail;

// Files that count their calls.
#[derive(Drop)]
struct CountedFiles {
    files: NoFiles,
    calls: u64,
}

impl Files for CountedFiles {
    ghost shelf = { λ f. ⟦<NoFiles as Files>⟧.shelf f.files };

    fn read(&mut self, alloc: Global, name: &str, max: usize) -> Result<FileRead, AllocError> {
        self.calls = self.calls.saturating_add(1);
        self.files.read(alloc, name, max)
    }

    fn write(&mut self, name: &str, bytes: &[u8]) -> Put {
        self.calls = self.calls.saturating_add(1);
        self.files.write(name, bytes)
    }
}

// A maker of patterns that counts its calls.
#[derive(Drop)]
struct CountedPatterns {
    patterns: NoPatterns,
    calls: u64,
}

impl PatternMaker for CountedPatterns {
    type P = NoPattern;

    ghost refusals = { λ m. ⟦<NoPatterns as PatternMaker>⟧.refusals m.patterns };

    fn make(&mut self, alloc: Global, pattern: &str) -> Result<Made<NoPattern>, AllocError> {
        self.calls = self.calls.saturating_add(1);
        self.patterns.make(alloc, pattern)
    }
}

// How often files and a maker were called by some asks of an outside over them: for patterns, and for files.
fn calls_of(
    alloc: Global,
    made: usize,
    read: usize,
    written: usize,
) -> Result<(u64, u64), AllocError> {
    let files = CountedFiles {
        files: NoFiles::new(),
        calls: 0,
    };
    let patterns = CountedPatterns {
        patterns: NoPatterns::new(),
        calls: 0,
    };
    let mut outside = FilesAndPatterns::new(files, patterns);
    for _ in 0..made {
        let _made = outside.make(alloc, "a")?;
    }
    for _ in 0..read {
        let _read = outside.read(alloc, "a")?;
    }
    for _ in 0..written {
        let _put = outside.write("a", b"b");
    }
    let (files, patterns) = outside.into_parts();
    Ok((patterns.calls, files.calls))
}

#[test]
fn each_ask_is_one_call(rt: HostRuntime) -> Result<(), Fail> {
    let alloc = rt.alloc();
    assert_eq!(rt; calls_of(alloc, 0, 0, 0)?, (0, 0));
    assert_eq!(rt; calls_of(alloc, 1, 0, 0)?, (1, 0));
    assert_eq!(rt; calls_of(alloc, 0, 1, 0)?, (0, 1));
    assert_eq!(rt; calls_of(alloc, 0, 0, 1)?, (0, 1));
    assert_eq!(rt; calls_of(alloc, 3, 2, 1)?, (3, 3));
    Ok(())
}
