//! A session's socket: how it is made so that nobody but its owner ever may connect, and how it goes.

use crate::paths::Paths;
use crate::pausing::is_pause;
use mio::net::{UnixListener, UnixStream};
use mio::{Events, Interest, Poll, Token};
use std::alloc::Global;
use std::fs::{DirBuilder, File, Files, OpenOptions, Permissions};
use std::io::ErrorKind;
use std::net::Net;
use std::os::unix::fs::{DirBuilderExt, FileTypeExt, MetadataExt, OpenOptionsExt, PermissionsExt};
use std::os::unix::net;
use std::time::Duration;
use std::{fs, io};

/// How long a wait for the next connection is at most, in milliseconds.
const ACCEPTING_MILLIS: u64 = 50;

/// A socket that is listened to. The lock on its session is held until it is dropped.
#[derive(Drop)]
pub struct DoorSocket {
    paths: Paths,
    listener: UnixListener,
    poll: Poll,
    events: Events,
    _lock: File,
}

// Locks a session, which no two servers do at once. The lock goes with the server, however that ends. A file that holds
// anything is somebody else's.
fn lock_session<H: Files<File = File>>(files: &H, path: &str) -> io::Result<File> {
    let mut options = OpenOptions::new();
    options.write(true);
    options.create(true);
    options.mode(0o600);
    let lock = options.open(files, path)?;
    let opened = lock.metadata()?;
    if lock.try_lock().is_err() || opened.len() > 0 {
        return Err(io::Error::from(ErrorKind::AddrInUse));
    }
    // the server before may have removed the file in the meantime
    if opened.ino() != fs::metadata(files, path)?.ino() {
        return Err(io::Error::from(ErrorKind::AddrInUse));
    }
    Ok(lock)
}

// Whether a socket may be made at a path: nothing stands there, or a socket that nobody listens to.
fn is_free<H: Files + Net>(rt: &H, path: &str) -> io::Result<bool> {
    match fs::symlink_metadata(rt, path) {
        Ok(found) if found.file_type().is_socket() => Ok(is_dead(rt, path)),
        Ok(_) => Ok(false),
        Err(error) if error.kind() == ErrorKind::NotFound => Ok(true),
        Err(error) => Err(error),
    }
}

// Whether nobody listens to a socket.
fn is_dead<H: Net>(net: &H, path: &str) -> bool {
    match UnixStream::connect(net, path) {
        Ok(_) => false,
        Err(error) => error.kind() == ErrorKind::ConnectionRefused,
    }
}

// Removes what was made on the way to a socket, where it is there.
fn clear<H: Files>(files: &H, paths: &Paths) {
    let _ = fs::remove_file(files, paths.fresh.as_str());
    let _ = fs::remove_dir(files, paths.folder.as_str());
}

// Makes the socket in a folder that only its owner may enter, and puts it into its place once it is listened to and only
// its owner may connect to it.
fn make_socket<H: Files + Net>(rt: &H, paths: &Paths, poll: &Poll) -> io::Result<UnixListener> {
    let mut builder = DirBuilder::new();
    builder.mode(0o700);
    builder.create(rt, paths.folder.as_str())?;
    let fresh = paths.fresh.as_str();
    let mut listener = UnixListener::bind(rt, fresh)?;
    poll.registry()
        .register(&mut listener, Token(0), Interest::READABLE)?;
    fs::set_permissions(rt, fresh, Permissions::from_mode(0o600))?;
    fs::rename(rt, fresh, paths.socket.as_str())?;
    Ok(listener)
}

// Listens to the socket of a session that is locked.
fn listen<H: Files + Net>(
    rt: &H,
    alloc: Global,
    paths: &Paths,
) -> io::Result<(UnixListener, Poll, Events)> {
    if !is_free(rt, paths.socket.as_str())? {
        return Err(io::Error::from(ErrorKind::AddrInUse));
    }
    let poll = Poll::new(rt)?;
    let events = Events::with_capacity(alloc, 1)?;
    clear(rt, paths);
    let made = make_socket(rt, paths, &poll);
    clear(rt, paths);
    Ok((made?, poll, events))
}

impl DoorSocket {
    /// Makes the socket of a session and listens to it. An `Err` is of the system, or tells that the name isn't one of a
    /// file, that a server lives, or that something else than a socket stands there. Nothing is left then of what was
    /// made.
    pub(crate) fn open<H: Files<File = File> + Net>(
        rt: &H,
        alloc: Global,
        session: &str,
    ) -> io::Result<DoorSocket> {
        if session.contains('/') {
            return Err(io::Error::from(ErrorKind::InvalidInput));
        }
        let paths = Paths::of(alloc, session)?;
        let lock = lock_session(rt, paths.lock.as_str())?;
        match listen(rt, alloc, &paths) {
            Ok((listener, poll, events)) => Ok(DoorSocket {
                paths,
                listener,
                poll,
                events,
                _lock: lock,
            }),
            Err(error) => {
                let _ = fs::remove_file(rt, paths.lock.as_str());
                Err(error)
            }
        }
    }

    // The next connection, where one waits.
    fn accept(&self) -> io::Result<Option<net::UnixStream>> {
        match self.listener.accept() {
            Ok((stream, _)) => Ok(Some(net::UnixStream::from(stream))),
            Err(error) if is_pause(&error) => Ok(None),
            Err(error) => Err(error),
        }
    }

    /// Waits a while for the next connection. An `Err` is of the system.
    pub(crate) fn next(&mut self) -> io::Result<Option<net::UnixStream>> {
        if let Some(stream) = self.accept()? {
            return Ok(Some(stream));
        }
        let wait = Duration::from_millis(ACCEPTING_MILLIS);
        self.poll.poll(&mut self.events, Some(wait))?;
        self.accept()
    }

    /// Removes the socket and listens no more.
    pub(crate) fn close<H: Files>(self, files: &H) {
        let _ = fs::remove_file(files, self.paths.socket.as_str());
        let _ = fs::remove_file(files, self.paths.lock.as_str());
    }
}
