//! Files and a maker of patterns together, as the outside of an engine.
#![tactic(auto)]

ghost use Rattle.std.specs.Prelude.{◌≡◌};
ghost use Rattle.kak_engine.specs.Answering.{is_built};
ghost use Rattle.kak_engine.specs.Honesty.{outside_of};

use crate::outside::Outside;
use crate::trace::{Note, Trace};
use kak_files::{FileRead, Files, MAX_FILE};
use kak_ports::Put;
use regex_ports::{Made, Pattern, PatternMaker};
use std::alloc::{AllocError, Global};
use std::marker::Model;

/// Files and a maker of patterns, as the outside of an engine. Contracts see what the files are seen as, how often the maker
/// has refused, and all that both were asked for since they were put together, which takes no memory.
#[derive(Drop, Debug)]
pub struct FilesAndPatterns<F: Files, M: PatternMaker> {
    files: F,
    patterns: M,
    trace: Trace,
}

impl<F: Files, M: PatternMaker> Model for FilesAndPatterns<F, M> {
    ghost use Rattle.kak_engine.specs.Honesty.{Outside as Seen};

    ghost Value = { Seen };

    ghost view = { λ o. record { shelf = F.shelf o.files; refusals = M.refusals o.patterns; asked = o.trace.asked } };
}

// Whether a maker of patterns built one.
fn is_built<P: Pattern>(made: &Made<P>) -> bool
    ensures { result ≡ is_built made.now }
{
    matches!(made, Made::Built(_))
}

impl<F: Files, M: PatternMaker> FilesAndPatterns<F, M> {
    /// Files and a maker of patterns together, which were asked for nothing yet.
    pub fn new(files: F, patterns: M) -> FilesAndPatterns<F, M>
        ensures { result ≡ outside_of (F.shelf files) (M.refusals patterns) }
    {
        FilesAndPatterns {
            files,
            patterns,
            trace: Trace::new(),
        }
    }

    /// The files and the maker of patterns.
    pub fn into_parts(self) -> (F, M)
        ensures files { F.shelf result.0 ≡ self.shelf }
        ensures patterns { M.refusals result.1 ≡ self.refusals }
    {
        let FilesAndPatterns {
            files,
            patterns,
            trace: _,
        } = self;
        (files, patterns)
    }
}

impl<F: Files, M: PatternMaker> Outside for FilesAndPatterns<F, M> {
    type P = M::P;

    ghost seen = { λ o. o };

    fn make(&mut self, alloc: Global, pattern: &str) -> Result<Made<M::P>, AllocError> {
        let made = self.patterns.make(alloc, pattern)?;
        self.trace = self.trace.then(&Note::OfPattern(pattern, is_built(&made)));
        Ok(made)
    }

    fn read(&mut self, alloc: Global, name: &str) -> Result<FileRead, AllocError> {
        let read = self.files.read(alloc, name, MAX_FILE)?;
        self.trace = self.trace.then(&Note::OfRead(name, &read));
        Ok(read)
    }

    fn write(&mut self, name: &str, bytes: &[u8]) -> Put {
        let put = self.files.write(name, bytes);
        self.trace = self.trace.then(&Note::OfWrite(name, bytes, put));
        put
    }
}
