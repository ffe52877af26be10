//! Where bytes go.

ghost use Rattle.kak_ports.specs.Ports.{Outlet, Puts, PutIsCounted};

/// What a `put` answers.
#[derive(Clone, Copy, Debug, PartialEq, Eq)]
pub enum Put {
    /// All bytes were added.
    Done,
    /// The sink failed, and the count of its faults rose. Some of the first bytes may have been added.
    Failed,
}

/// A sink for bytes.
pub trait Sink {
    // The bytes that were put so far, where they are told, and how often a put failed.
    ghost outlet: { Self → Outlet };

    /// Adds bytes at the end.
    fn put(&mut self, bytes: &[u8]) -> Put
        ensures puts { Puts result (outlet self.old) (outlet self.new) bytes.now }
        ensures counted { PutIsCounted result (outlet self.old) (outlet self.new) };
}
