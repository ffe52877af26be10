//! An outside that has no files and makes no patterns.
#![tactic(auto)]

ghost use Rattle.std.specs.Prelude.{◌≡◌};
ghost use Rattle.kak_engine.specs.Honesty.{no_outside};

use crate::files_and_patterns::FilesAndPatterns;
use crate::outside::Outside;
use kak_files::{FileRead, NoFiles};
use kak_ports::Put;
use regex_ports::{Made, NoPattern, NoPatterns};
use std::alloc::{AllocError, Global};
use std::marker::Model;

/// An outside in which no file is there and none can be written, and whose maker refuses every pattern. Its type has no
/// parameters.
#[derive(Drop, Debug)]
pub struct NoOutside {
    parts: FilesAndPatterns<NoFiles, NoPatterns>,
}

impl Model for NoOutside {
    ghost use Rattle.kak_engine.specs.Honesty.{Outside as Seen};

    ghost Value = { Seen };

    ghost view = { λ o. o.parts };
}

impl NoOutside {
    /// One that was asked for nothing yet.
    pub fn new() -> NoOutside
        ensures { result ≡ no_outside }
    {
        NoOutside {
            parts: FilesAndPatterns::new(NoFiles::new(), NoPatterns::new()),
        }
    }
}

impl Outside for NoOutside {
    type P = NoPattern;

    ghost seen = { λ o. o };

    fn make(&mut self, alloc: Global, pattern: &str) -> Result<Made<NoPattern>, AllocError> {
        self.parts.make(alloc, pattern)
    }

    fn read(&mut self, alloc: Global, name: &str) -> Result<FileRead, AllocError> {
        self.parts.read(alloc, name)
    }

    fn write(&mut self, name: &str, bytes: &[u8]) -> Put {
        self.parts.write(name, bytes)
    }
}
