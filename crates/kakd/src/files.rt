//! The files of the disk, as a type without parameters: a closure that starts a thread is handed none with parameters yet.

ghost use Rattle.std.specs.Prelude.{◌≡◌, None};

use disk_files::DiskFiles;
use kak_files::{FileRead, Files};
use kak_ports::Put;
use std::alloc::{AllocError, Global};

/// The files of the disk.
#[derive(Drop)]
pub struct ServerFiles {
    disk: DiskFiles<HostRuntime>,
}

impl ServerFiles {
    /// Files that don't tell what they hold, and of which no read and no write has failed yet.
    pub fn new(rt: HostRuntime, alloc: Global) -> ServerFiles
        ensures untold { (⟦<ServerFiles as Files>⟧.shelf result).told ≡ None }
        ensures faults { (⟦<ServerFiles as Files>⟧.shelf result).faults ≡ 0 }
    {
        ServerFiles {
            disk: DiskFiles::new(rt, alloc),
        }
    }
}

impl Files for ServerFiles {
    ghost shelf = { λ f. ⟦<DiskFiles<HostRuntime> as Files>⟧.shelf f.disk };

    fn read(&mut self, alloc: Global, name: &str, max: usize) -> Result<FileRead, AllocError> {
        self.disk.read(alloc, name, max)
    }

    fn write(&mut self, name: &str, bytes: &[u8]) -> Put {
        self.disk.write(name, bytes)
    }
}
