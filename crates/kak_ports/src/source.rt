//! Where bytes come from.

ghost use Rattle.std.specs.Prelude.{◌≡◌, ◌<◌, length};
ghost use Rattle.kak_ports.specs.Ports.{Inlet, Takes, TakeIsCounted};

/// What a `take` answers.
#[derive(Clone, Copy, Debug, PartialEq, Eq)]
pub enum Took {
    /// So many bytes were taken: at least one, and at most as many as there was room for.
    Got(usize),
    /// Nothing is left.
    End,
    /// The source failed, and the count of its faults rose. Nothing was taken.
    Failed,
}

/// A source of bytes.
pub trait Source {
    // What is left of its bytes, where they are told, the most that one take gives, and how often one failed.
    ghost inlet: { Self → Inlet };

    /// Takes the next bytes into the front of `into`, which isn't empty. What stands behind them is left open.
    fn take(&mut self, into: &mut [u8]) -> Took
        requires { 0 < length into.old }
        ensures takes { Takes result (inlet self.old) (inlet self.new) into.new }
        ensures counted { TakeIsCounted result (inlet self.old) (inlet self.new) }
        ensures most { (inlet self.new).most ≡ (inlet self.old).most };
}
