//! The job of a connection.

use crate::link_serving::serve_link;
use client_links::Link;
use engine_desk::SharedEngine;
use jobs::Job;
use kak_engine::Outside;
use line_gates::Gate;
use link_lines::Ended;
use regex_ports::RegexPattern;
use session_desk::{Desk, Pass};
use std::alloc::Global;
use std::sync::{Arc, Wait};

/// A link that has just come, to be served under a pass that has no entry yet, and to be closed then.
#[derive(Drop)]
pub struct LinkJob<L: Link, O: Outside<P = RegexPattern> + Drop, G: Gate> {
    pub alloc: Global,
    pub desk: Arc<Desk<SharedEngine<O>>, Global>,
    pub pass: Pass<SharedEngine<O>>,
    /// The file that its client opens first, if one is named.
    pub file: Option<String>,
    pub link: L,
    pub gate: G,
}

impl<L: Link, O: Outside<P = RegexPattern> + Drop, G: Gate> Job for LinkJob<L, O, G> {
    ghost use Rattle.std.specs.Arc.{arc_value};
    ghost use Rattle.std.specs.Prelude.{option_map, string_bytes};
    ghost use Rattle.session_server.specs.Rows.{IsLinkReady, ServesLink};

    /// How the link was served, the pass, and what is left of the link.
    type Gives = (Ended, Pass<SharedEngine<O>>, L::Spent);

    ghost ready = { λ j. IsLinkReady (arc_value j.desk) j.pass (L.wire j.link) };

    ghost gives = { λ j given. ServesLink (arc_value j.desk).frame.limit (option_map (λ name. string_bytes name) j.file) j.pass given.0 given.1 (L.wire j.link) (L.spent given.2) };

    fn run<R: Wait>(self, rt: &R) -> (Ended, Pass<SharedEngine<O>>, L::Spent) {
        let LinkJob {
            alloc,
            desk,
            pass,
            file,
            mut link,
            mut gate,
        } = self;
        let (ended, pass) = serve_link(
            rt,
            alloc,
            &desk,
            pass,
            file.as_deref(),
            &mut link,
            &mut gate,
        );
        (ended, pass, link.finish())
    }
}
