//! An acceptor over a Unix socket.

ghost use Rattle.std.specs.Prelude.{◌≡◌, IfOk, IfSome, None, option_map};
ghost use Rattle.kak_ports.specs.Ports.{Rose};
ghost use Rattle.client_links.specs.Wires.{IsFresh};
ghost use Rattle.unix_links.specs.Streams.{untold_door};

use crate::bell::Bell;
use crate::door::DoorSocket;
use crate::link::{UnixLink, over_socket};
use byte_texts::Utf8Text;
use client_links::{Acceptor, Bound, Link, Next};
use std::alloc::Global;
use std::fs::{File, Files};
use std::io;
use std::net::Net;
use std::sync::Wait;

// The socket of a session.
#[derive(Drop)]
struct SessionDoor {
    session: Utf8Text,
    socket: DoorSocket,
}

impl SessionDoor {
    // Makes the socket of a session and listens to it.
    fn open<H: Files<File = File> + Net>(
        rt: &H,
        alloc: Global,
        session: &str,
    ) -> io::Result<SessionDoor>
        ensures { IfOk result (λ door. door.session ≡ session.now) }
    {
        Ok(SessionDoor {
            session: Utf8Text::from_str(alloc, session)?,
            socket: DoorSocket::open(rt, alloc, session)?,
        })
    }

    // Waits a while for the next link, which the bell wakes.
    fn next<H: Net>(&mut self, rt: &H, alloc: Global, bell: &Bell) -> io::Result<Option<UnixLink>>
        ensures session { self.new.session ≡ self.old.session }
        ensures fresh { IfOk result (λ came. IfSome came (λ link. IsFresh (⟦<UnixLink as Link>⟧.wire link))) }
    {
        match self.socket.next()? {
            Some(stream) => Ok(Some(over_socket(rt, alloc, stream, bell)?)),
            None => Ok(None),
        }
    }
}

/// An acceptor over a Unix socket `<session>.kak` in the current folder, to which only its owner may connect. A socket
/// that a dead server left there is taken over; beside a living server, or where something else stands, `bind` fails. The
/// socket is removed when the acceptor is dropped.
pub struct UnixAcceptor<H: Files + Drop> {
    rt: H,
    alloc: Global,
    bell: Bell,
    door: Option<SessionDoor>,
    faults: u64,
}

impl<H: Files + Drop> Drop for UnixAcceptor<H> {
    fn drop(self) {
        let UnixAcceptor {
            rt,
            alloc: _,
            bell: _,
            door,
            faults: _,
        } = self;
        if let Some(door) = door {
            door.socket.close(&rt);
        }
    }
}

impl<H: Files<File = File> + Net + Drop> UnixAcceptor<H> {
    /// An acceptor that doesn't listen yet, whose links are woken by a bell. The handle is for its sockets and files.
    pub fn new(rt: H, alloc: Global, bell: Bell) -> UnixAcceptor<H>
        ensures silent { result.door ≡ None }
        ensures faults { result.faults ≡ 0 }
    {
        UnixAcceptor {
            rt,
            alloc,
            bell,
            door: None,
            faults: 0,
        }
    }

    // Listens no more.
    fn close(&mut self)
        ensures { self.new.faults ≡ self.old.faults }
    {
        if let Some(door) = self.door.take() {
            door.socket.close(&self.rt);
        }
    }

    // Counts a fault.
    fn count_fault(&mut self)
        ensures door { self.new.door ≡ self.old.door }
        ensures counted { Rose self.old.faults self.new.faults }
    {
        self.faults = self.faults.saturating_add(1);
    }
}

impl<H: Files<File = File> + Net + Drop> Acceptor for UnixAcceptor<H> {
    type Link = UnixLink;

    ghost door = { λ a. untold_door (option_map (λ door. door.session) a.door) a.faults };

    fn bind<R: Wait>(&mut self, _rt: &R, session: &str) -> Bound {
        match SessionDoor::open(&self.rt, self.alloc, session) {
            Ok(door) => {
                self.close();
                self.door = Some(door);
                Bound::Up
            }
            Err(_) => {
                self.count_fault();
                Bound::Failed
            }
        }
    }

    fn next<R: Wait>(&mut self, _rt: &R) -> Next<UnixLink> {
        let Some(door) = &mut self.door else {
            return Next::Idle;
        };
        match door.next(&self.rt, self.alloc, &self.bell) {
            Ok(Some(link)) => Next::Came(link),
            Ok(None) => Next::Idle,
            Err(_) => {
                self.count_fault();
                Next::Failed
            }
        }
    }
}
