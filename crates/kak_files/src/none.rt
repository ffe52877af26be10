//! Files that never hold anything.

ghost use Rattle.std.specs.Prelude.{◌≡◌};

use crate::files::{FileRead, Files};
use kak_ports::Put;
use std::alloc::{AllocError, Global};

/// Files of which none is there, and which take none. They tell that they hold nothing.
#[derive(Drop, Debug)]
pub struct NoFiles {
    faults: u64,
}

impl NoFiles {
    /// Files that have not failed yet.
    pub fn new() -> NoFiles
        ensures { result.faults ≡ 0 }
    {
        NoFiles { faults: 0 }
    }
}

impl Files for NoFiles {
    ghost use Rattle.std.specs.Prelude.{Some, [], true};

    ghost shelf = { λ f. record { told = Some (record { opening = []; held = []; spare = true }); faults = f.faults } };

    fn read(&mut self, alloc: Global, name: &str, max: usize) -> Result<FileRead, AllocError> {
        Ok(FileRead::NotThere)
    }

    fn write(&mut self, name: &str, bytes: &[u8]) -> Put {
        self.faults = self.faults.saturating_add(1);
        Put::Failed
    }
}
