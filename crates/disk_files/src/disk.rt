//! Files of the disk: the edge of what is proved.

ghost use Rattle.std.specs.Prelude.{◌≡◌, ℕ, None, IfOk, OnOk};
ghost use Rattle.std.specs.Io.KnownBytes.{Appends};
ghost use Rattle.std.specs.IoError.{error_kind};
ghost use Rattle.kak_files.specs.Files.{IsWithin, one_more};
ghost use Rattle.disk_files.specs.Whole.{IsUnopened, IsWholeRead};

use byte_texts::Octets;
use kak_files::{FileRead, Files};
use kak_ports::Put;
use std::alloc::{AllocError, Global};
use std::fs::{self, Metadata, OpenFile, OpenOptions};
use std::io::{self, ErrorKind, Read, Write};
use std::os::unix::fs::{FileTypeExt, MetadataExt, OpenOptionsExt};
use std::path::{Path, PathBuf};
use std::rt;

// How many symbolic links are followed, one behind another.
const MAX_LINKS: usize = 40;

// How many names are tried for the file beside the old one.
const MAX_TRIES: usize = 1000;

// How many bytes one read asks for.
const CHUNK_BYTES: usize = 65_536;

/// The files of a runtime, which for that of the host are those of the disk. They tell nothing of what they hold.
///
/// A write makes a new file beside the old one, brings it to the disk, gives it the old one's mode and renames it over the
/// old one, so that at each moment the name stands for the whole old file or for the whole new one. A symbolic link is
/// followed to the file that it names. The old file itself is written, and may be left with a part of the bytes where that
/// fails, where no file can be made beside it, or it can't be renamed over, or that would change what it is: where it isn't
/// a plain file, has several names, or belongs to another user or group than a new file does. Access lists and other
/// attributes than the mode aren't looked at, and a new file doesn't have them. A named pipe is neither read nor written,
/// since opening one waits for its other side.
#[derive(Drop)]
pub struct DiskFiles<R> {
    runtime: R,
    alloc: Global,
    faults: u64,
}

impl<R: rt::Files> DiskFiles<R> {
    /// Files of which no read and no write has failed yet.
    pub fn new(runtime: R, alloc: Global) -> DiskFiles<R>
        ensures { result.faults ≡ 0 }
    {
        DiskFiles {
            runtime,
            alloc,
            faults: 0,
        }
    }

    // Counts a fault.
    fn count_fault(&mut self)
        ensures { self.new.faults ≡ one_more self.old.faults }
    {
        self.faults = self.faults.saturating_add(1);
    }

    // The file that a name stands for, behind all symbolic links, whether it is there or not.
    fn target(&self, name: &str) -> io::Result<PathBuf> {
        let mut path = PathBuf::from_str(self.alloc, name)?;
        for _ in 0..MAX_LINKS {
            match fs::symlink_metadata(&self.runtime, path.as_path()) {
                Ok(data) if data.is_symlink() => {}
                _ => return Ok(path),
            }
            let link = self.runtime.read_link(self.alloc, path.as_str())?;
            path.pop();
            path.push(link.as_path())?;
        }
        Err(io::Error::from(ErrorKind::FilesystemLoop))
    }

    // Opens a file that wasn't there, under a name of its own beside another. Nobody else may open it if `private`.
    fn open_beside(&self, path: Path<'_>, private: bool) -> io::Result<(PathBuf, R::File)> {
        let mut options = OpenOptions::new();
        options.write(true).create_new(true);
        if private {
            options.mode(0o600);
        }
        for n in 0..MAX_TRIES {
            let name = format!(in self.alloc; ".kak-write-{n}")?;
            let beside = path.with_file_name(self.alloc, name.as_str())?;
            match options.open(&self.runtime, beside.as_path()) {
                Ok(file) => return Ok((beside, file)),
                Err(error) if error.kind() == ErrorKind::AlreadyExists => {}
                Err(error) => return Err(error),
            }
        }
        Err(io::Error::from(ErrorKind::AlreadyExists))
    }

    // Writes the old file itself. What is no plain file can't be brought to a disk.
    fn write_in_place(&self, path: Path<'_>, old: &Metadata, bytes: &[u8]) -> io::Result<()> {
        let mut options = OpenOptions::new();
        options.write(true).truncate(true);
        let mut file = options.open(&self.runtime, path)?;
        if old.is_file() {
            return fill(&mut file, None, bytes);
        }
        file.write_all(bytes)
    }
}

// Whether a file is a named pipe.
fn is_pipe(data: &Metadata) -> bool {
    data.file_type().is_fifo()
}

// Whether a new file is to the old one as another of its kind: of the same user and group.
fn is_alike(old: &Metadata, new: &Metadata) -> bool {
    old.uid() == new.uid() && old.gid() == new.gid()
}

// Whether a rename over a file leaves it what it is: a plain file with one name.
fn is_plain(old: &Metadata) -> bool {
    old.is_file() && old.nlink() == 1
}

// What became of a write that was to go beside the old file.
#[derive(Clone, Copy)]
enum Beside {
    // The name stands for the new file.
    Done,
    // Nothing was done, since no such file can be had, or the name can't be given to it.
    CannotBe,
}

// Whether an error says that no file can be made or renamed at that place, whoever asks.
fn is_refusal(error: &io::Error) -> bool {
    matches!(
        error.kind(),
        ErrorKind::PermissionDenied
            | ErrorKind::ReadOnlyFilesystem
            | ErrorKind::ResourceBusy
            | ErrorKind::CrossesDevices
            | ErrorKind::AlreadyExists
            | ErrorKind::InvalidFilename
    )
}

// Fills a file that was opened for a write, gives it the mode of an old one, and brings it to the disk.
fn fill<F: Write + OpenFile>(file: &mut F, old: Option<&Metadata>, bytes: &[u8]) -> io::Result<()>
    ensures { OnOk result (Appends (F.contents file.old) (F.contents file.new) bytes.now) }
{
    file.write_all(bytes)?;
    if let Some(old) = old {
        file.set_permissions(old.permissions())?;
    }
    file.sync_all()
}

impl<R: rt::Files> DiskFiles<R> {
    // Fills the file beside and gives it the name; the file is gone again where that fails.
    fn fill_and_rename(
        &self,
        path: Path<'_>,
        beside: Path<'_>,
        file: &mut R::File,
        old: Option<&Metadata>,
        bytes: &[u8],
    ) -> io::Result<()> {
        let filled = fill(file, old, bytes);
        let renamed = match filled {
            Ok(()) => fs::rename(&self.runtime, beside, path),
            Err(error) => Err(error),
        };
        if renamed.is_err() {
            let _ = fs::remove_file(&self.runtime, beside);
        }
        renamed
    }

    // Writes a new file beside the old one, and gives it the name.
    fn write_beside(
        &self,
        path: Path<'_>,
        old: Option<&Metadata>,
        bytes: &[u8],
    ) -> io::Result<Beside> {
        let (beside, mut file) = match self.open_beside(path, old.is_some()) {
            Ok(opened) => opened,
            Err(error) if is_refusal(&error) => return Ok(Beside::CannotBe),
            Err(error) => return Err(error),
        };
        if let Some(old) = old {
            if !is_alike(old, &file.metadata()?) {
                fs::remove_file(&self.runtime, beside.as_path())?;
                return Ok(Beside::CannotBe);
            }
        }
        match self.fill_and_rename(path, beside.as_path(), &mut file, old, bytes) {
            Ok(()) => Ok(Beside::Done),
            Err(error) if is_refusal(&error) => Ok(Beside::CannotBe),
            Err(error) => Err(error),
        }
    }
}

impl<R: rt::Files> DiskFiles<R> {
    // Makes the file of a name hold some bytes.
    fn save(&self, name: &str, bytes: &[u8]) -> io::Result<()> {
        let path = self.target(name)?;
        let path = path.as_path();
        let old = match fs::metadata(&self.runtime, path) {
            Ok(old) => old,
            Err(error) if error.kind() == ErrorKind::NotFound => {
                return match self.write_beside(path, None, bytes)? {
                    Beside::Done => Ok(()),
                    Beside::CannotBe => Err(io::Error::from(ErrorKind::PermissionDenied)),
                };
            }
            Err(error) => return Err(error),
        };
        if is_pipe(&old) {
            return Err(io::Error::from(ErrorKind::Unsupported));
        }
        if is_plain(&old) {
            // A file that can't be written isn't replaced either.
            OpenOptions::new().write(true).open(&self.runtime, path)?;
            if let Beside::Done = self.write_beside(path, Some(&old), bytes)? {
                return Ok(());
            }
        }
        self.write_in_place(path, &old, bytes)
    }
}

// What is answered where a file wasn't opened for a read: that there is none only if nothing stands under the name.
fn unopened(error: &io::Error) -> FileRead
    ensures told { IsUnopened (error_kind error.now) result }
    ensures within { (max : ℕ) → IsWithin max result }
{
    match error.kind() {
        ErrorKind::NotFound => FileRead::NotThere,
        _ => FileRead::Failed,
    }
}

// What an open file holds, where that is at most `max` bytes. A failure isn't counted here.
fn read_all<F: Read + OpenFile>(
    alloc: Global,
    file: &mut F,
    max: usize,
) -> Result<FileRead, AllocError>
    ensures within { IfOk result (λ answer. IsWithin max answer) }
    ensures whole { IfOk result (λ answer. IsWholeRead (F.remaining file.old) answer) }
{
    let Ok(data) = file.metadata() else {
        return Ok(FileRead::Failed);
    };
    let expected = if data.is_file() { data.len() } else { 0 };
    if expected > max as u64 {
        return Ok(FileRead::TooBig);
    }
    let mut bytes = Vec::with_capacity(alloc, expected as usize)?;
    let mut chunk = [0u8; CHUNK_BYTES];
    for _ in 0..u64::MAX {
        let count = match file.read(&mut chunk) {
            Ok(0) => return Ok(FileRead::Bytes(Octets::of_vec(bytes))),
            Ok(count) => count,
            Err(error) if error.kind() == ErrorKind::Interrupted => continue,
            Err(_) => return Ok(FileRead::Failed),
        };
        if count > max.saturating_sub(bytes.len()) {
            return Ok(FileRead::TooBig);
        }
        bytes.extend_from_slice(&chunk[..count])?;
    }
    Ok(FileRead::Failed)
}

impl<R: rt::Files> DiskFiles<R> {
    // Opens a file for a read.
    fn open(&self, name: &str) -> io::Result<R::File> {
        if is_pipe(&fs::metadata(&self.runtime, name)?) {
            return Err(io::Error::from(ErrorKind::Unsupported));
        }
        fs::open(&self.runtime, name)
    }

    // What the file of a name holds. A failure isn't counted here.
    fn read_once(&self, alloc: Global, name: &str, max: usize) -> Result<FileRead, AllocError>
        ensures { IfOk result (λ answer. IsWithin max answer) }
    {
        match self.open(name) {
            Ok(mut file) => read_all(alloc, &mut file, max),
            Err(error) => Ok(unopened(&error)),
        }
    }
}

impl<R: rt::Files> Files for DiskFiles<R> {
    ghost shelf = { λ s. record { told = None; faults = s.faults } };

    /// What the file of a name holds. A folder, a named pipe, and a file that can't be opened or read, is `Failed`.
    fn read(&mut self, alloc: Global, name: &str, max: usize) -> Result<FileRead, AllocError> {
        let answer = self.read_once(alloc, name, max)?;
        if let FileRead::Failed = answer {
            self.count_fault();
            return Ok(FileRead::Failed);
        }
        Ok(answer)
    }

    fn write(&mut self, name: &str, bytes: &[u8]) -> Put {
        match self.save(name, bytes) {
            Ok(()) => Put::Done,
            Err(_) => {
                self.count_fault();
                Put::Failed
            }
        }
    }
}
