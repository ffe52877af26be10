//! Who lets the clients of a session in.

ghost use Rattle.std.specs.Arc.{arc_value};
ghost use Rattle.std.specs.Prelude.{◌≡◌, IfOk, IfErr, OnErr, option_map, string_bytes, [], None};
ghost use Rattle.client_links.specs.Wires.{IsFresh};
ghost use Rattle.session_desk.specs.Tokens.{IsOf, IsSameKeeper};
ghost use Rattle.session_server.specs.Rows.{IsLinkReady};
ghost use Rattle.engine_desk.specs.Sharing.{frame_of};
ghost use Rattle.session_server.specs.Hosting.{IsNewHost, LooksIn, Admits, IsLinkRefused, job_view};

use crate::job::LinkJob;
use crate::status::ServerStatus;
use client_links::Link;
use engine_desk::SharedEngine;
use kak_engine::Outside;
use line_gates::Gate;
use regex_ports::RegexPattern;
use session_desk::{Desk, Keeper};
use std::alloc::{AllocError, Global};
use std::marker::Model;
use std::sync::{Arc, Wait};

/// How many links one session serves: 1,000,000.
pub const MAX_LINKS: u32 = 1_000_000;

/// Who lets the clients of a session in. Contracts see the desk, its keeper, and the file that the next client opens.
#[derive(Drop)]
pub(crate) struct Host<O: Outside<P = RegexPattern> + Drop, G: Gate> {
    alloc: Global,
    desk: Arc<Desk<SharedEngine<O>>, Global>,
    keeper: Keeper<SharedEngine<O>>,
    file: Option<String>,
    gate: G,
    // how many links were let in
    admitted: u32,
}

impl<O: Outside<P = RegexPattern> + Drop, G: Gate> Model for Host<O, G> {
    ghost use Rattle.std.specs.Arc.{arc_value};
    ghost use Rattle.std.specs.Prelude.{option_map, string_bytes};
    ghost use Rattle.session_server.specs.Hosting.{HostView, IsHosting};

    ghost Value = { HostView };

    ghost view = { λ h. record { home = arc_value h.desk; keeper = h.keeper; file = option_map (λ name. string_bytes name) h.file } };

    ghost invariant = { λ h. IsHosting (arc_value h.desk) h.keeper h.admitted };
}

impl<O: Outside<P = RegexPattern> + Drop, G: Gate> Host<O, G> {
    /// A host of a session in which nothing has happened, to which nobody was let in yet. Its first client opens the file,
    /// if one is named.
    pub fn new(
        alloc: Global,
        engine: SharedEngine<O>,
        file: Option<String>,
        gate: G,
    ) -> Result<Host<O, G>, AllocError>
        requires entries { engine.engine.history ≡ [] }
        requires mark { engine.engine.mark ≡ None }
        ensures { IfOk result (IsNewHost (frame_of engine) (option_map (λ name. string_bytes name) file)) }
    {
        let (desk, keeper) = Desk::new(alloc, engine)?;
        Ok(Host {
            alloc,
            desk: Arc::new(alloc, desk)?,
            keeper,
            file,
            gate,
            admitted: 0,
        })
    }

    /// Looks at the session. An `Err` tells why nobody is let in any more: all clients have left, or it is broken.
    pub fn look_in<R: Wait>(&mut self, rt: &R) -> Result<(), ServerStatus>
        ensures home { self.new.home ≡ self.old.home }
        ensures same { IsSameKeeper self.old.keeper self.new.keeper }
        ensures file { self.new.file ≡ self.old.file }
        ensures looks { LooksIn result self.new.keeper.seen self.new.keeper.mark }
    {
        let glimpse = self.desk.watch(rt, &mut self.keeper);
        if glimpse.joins > 0 && glimpse.joined == 0 {
            return Err(ServerStatus::Ended);
        }
        match glimpse.broken {
            Some(at) => Err(ServerStatus::Broken(at)),
            None => Ok(()),
        }
    }

    /// Gives a link that came a pass of its own, and makes the job that serves this link. An `Err` tells why it was dropped.
    pub fn admit<L: Link>(&mut self, link: L) -> Result<LinkJob<L, O, G>, ServerStatus>
    where
        G: Clone,
        requires { IsFresh (L.wire link) }
        ensures ready { IfOk result (λ job. IsLinkReady (arc_value job.desk) job.pass (L.wire job.link)) }
        ensures ok { IfOk result (λ job. Admits self.old self.new (job_view (arc_value job.desk) job.pass (option_map (λ name. string_bytes name) job.file))) }
        ensures link { IfOk result (λ job. L.wire job.link ≡ L.wire link) }
        ensures why { IfErr result (IsLinkRefused self.old) }
        ensures err { OnErr result (self.new ≡ self.old) }
    {
        if self.admitted >= MAX_LINKS {
            return Err(ServerStatus::LinksFull);
        }
        let Ok(desk) = Arc::try_clone(&self.desk) else {
            return Err(ServerStatus::NoMemory);
        };
        let Ok(gate) = self.gate.clone() else {
            return Err(ServerStatus::NoMemory);
        };
        self.admitted += 1;
        Ok(LinkJob {
            alloc: self.alloc,
            desk,
            pass: self.desk.admit(&mut self.keeper),
            file: self.file.take(),
            link,
            gate,
        })
    }

    /// The desk, and its keeper.
    pub fn into_parts(self) -> (Arc<Desk<SharedEngine<O>>, Global>, Keeper<SharedEngine<O>>)
        ensures desk { arc_value result.0 ≡ self.home }
        ensures keeper { result.1 ≡ self.keeper }
        ensures own { IsOf result.1.place (arc_value result.0) }
    {
        let Host {
            alloc: _,
            desk,
            keeper,
            file: _,
            gate: _,
            admitted: _,
        } = self;
        (desk, keeper)
    }
}
