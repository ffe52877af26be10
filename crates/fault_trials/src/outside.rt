//! An outside without files, whose patterns are a server's.

ghost use Rattle.std.specs.Prelude.{◌≡◌};
ghost use Rattle.kak_engine.specs.Honesty.{IsUntouched};

use kak_engine::{FilesAndPatterns, Outside};
use kak_files::{FileRead, NoFiles};
use kak_ports::Put;
use regex_ports::{Made, RegexMaker, RegexPattern};
use std::alloc::{AllocError, Global};

/// No file is there and none can be written, and patterns are regular expressions.
#[derive(Drop)]
pub(crate) struct PatternsAlone {
    parts: FilesAndPatterns<NoFiles, RegexMaker>,
}

impl PatternsAlone {
    /// One that was asked for nothing yet.
    pub(crate) fn new() -> PatternsAlone
        ensures { IsUntouched (⟦<PatternsAlone as Outside>⟧.seen result).shelf.told }
    {
        PatternsAlone {
            parts: FilesAndPatterns::new(NoFiles::new(), RegexMaker::new()),
        }
    }
}

impl Outside for PatternsAlone {
    type P = RegexPattern;

    ghost seen = { λ o. o.parts };

    fn make(&mut self, alloc: Global, pattern: &str) -> Result<Made<RegexPattern>, AllocError> {
        self.parts.make(alloc, pattern)
    }

    fn read(&mut self, alloc: Global, name: &str) -> Result<FileRead, AllocError> {
        self.parts.read(alloc, name)
    }

    fn write(&mut self, name: &str, bytes: &[u8]) -> Put {
        self.parts.write(name, bytes)
    }
}
