//! What an acceptor over memory keeps.

ghost use Rattle.std.specs.Prelude.{◌+◌, ◌^◌, ◌<◌, All, length};
ghost use Rattle.client_links.specs.Wires.{IsFresh};
ghost use Rattle.client_links.specs.Memory.{memory_wire};

use crate::kept::MemLink;
use crate::planned::PlannedCalls;
use byte_texts::Utf8Text;
use std::alloc::Global;
use std::collections::VecDeque;

/// An acceptor over memory, whose links come one after another. Behind the last one none comes any more.
#[derive(Drop, Debug)]
pub struct MemAcceptor {
    pub(crate) alloc: Global,
    pub(crate) links: VecDeque<MemLink>,
    pub(crate) came: usize,
    pub(crate) session: Option<Utf8Text>,
    pub(crate) calls: PlannedCalls,
    ghost fresh: { All (λ link. IsFresh (memory_wire link)) links.items },
    ghost few: { came + length links.items < 2 ^ 64 },
}
