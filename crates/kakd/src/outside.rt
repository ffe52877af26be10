//! The outside of the server, as a type without parameters: a closure that starts a thread is handed none with parameters yet.

ghost use Rattle.std.specs.Prelude.{◌≡◌, None};

use crate::files::ServerFiles;
use kak_engine::{FilesAndPatterns, Outside};
use kak_files::FileRead;
use kak_ports::Put;
use regex_ports::{Made, RegexMaker, RegexPattern};
use std::alloc::{AllocError, Global};

/// The files of the disk, and regular expressions.
#[derive(Drop)]
pub struct ServerOutside {
    parts: FilesAndPatterns<ServerFiles, RegexMaker>,
}

impl ServerOutside {
    /// An outside whose files don't tell what they hold, and of which no read and no write has failed yet.
    pub fn new(rt: HostRuntime, alloc: Global) -> ServerOutside
        ensures untold { (⟦<ServerOutside as Outside>⟧.seen result).shelf.told ≡ None }
        ensures faults { (⟦<ServerOutside as Outside>⟧.seen result).shelf.faults ≡ 0 }
    {
        ServerOutside {
            parts: FilesAndPatterns::new(ServerFiles::new(rt, alloc), RegexMaker::new()),
        }
    }
}

impl Outside for ServerOutside {
    type P = RegexPattern;

    ghost seen = { λ o. o.parts };

    fn make(&mut self, alloc: Global, pattern: &str) -> Result<Made<RegexPattern>, AllocError> {
        self.parts.make(alloc, pattern)
    }

    fn read(&mut self, alloc: Global, name: &str) -> Result<FileRead, AllocError> {
        self.parts.read(alloc, name)
    }

    fn write(&mut self, name: &str, bytes: &[u8]) -> Put {
        self.parts.write(name, bytes)
    }
}
