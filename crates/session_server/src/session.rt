//! What a server gives.

use engine_desk::ClosedEngine;
use kak_engine::Outside;
use link_lines::Ended;
use regex_ports::RegexPattern;

/// What is left of a session.
#[derive(Drop)]
pub struct Session<O: Outside<P = RegexPattern> + Drop, T: Drop> {
    /// The engine. It is lost only where memory ran out; where it broke, its texts were rescued.
    pub engine: Option<ClosedEngine<O>>,
    /// How the serving of each link ended, and what is left of the link, in the order in which they came. Only where memory
    /// ran out some may be lost.
    pub ends: Vec<(Ended, T)>,
}
