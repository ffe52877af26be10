//! What a link over memory keeps.

ghost use Rattle.std.specs.Prelude.{◌≡◌, ◌+◌, length};
ghost use Rattle.client_links.specs.Sizes.{total};

use crate::planned::PlannedCalls;
use byte_texts::Octets;
use kak_ports::MemSink;
use std::collections::VecDeque;

/// A link over memory, whose client sends what a script says, and which keeps what it is sent. It tells everything, and
/// stays what it is once it is closed.
#[derive(Drop, Debug)]
pub struct MemLink {
    pub(crate) bytes: Octets,
    // how many bytes were given
    pub(crate) at: usize,
    // how many bytes are left of the piece at hand
    pub(crate) piece: usize,
    // how many bytes each later piece has
    pub(crate) later: VecDeque<usize>,
    pub(crate) hearing: PlannedCalls,
    pub(crate) sent: MemSink,
    ghost pieces: { at + piece + total later.items ≡ length bytes },
}
