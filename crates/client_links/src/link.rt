//! A connection to one client.

ghost use Rattle.std.specs.Prelude.{◌≡◌, ◌<◌, length};
ghost use Rattle.kak_ports.specs.Ports.{Puts, PutIsCounted};
ghost use Rattle.client_links.specs.Wires.{Wire, Hears, HearingTakesPauses, HearingIsCounted, IsSameHearing, TellsNoMore};

use kak_ports::Put;
use std::sync::Wait;

/// What a `recv` answers.
#[derive(Clone, Copy, Debug, PartialEq, Eq)]
pub enum Heard {
    /// So many bytes came: at least one, and at most as many as there was room for.
    Got(usize),
    /// The other side has ended; nothing will come any more.
    End,
    /// Nothing has come yet, which takes one of the pauses of a link that tells these; a link that tells none, and what
    /// will come, isn't at its end. That is no fault.
    Idle,
    /// Receiving failed, and the count of such faults rose. Nothing was taken.
    Failed,
}

/// A connection to one client.
pub trait Link: Drop {
    /// What is left of a link once it is closed.
    type Spent: Drop;

    // What was received and sent, what will still come and with how many pauses, and how often each failed.
    ghost wire: { Self → Wire };

    // The same of a link that was closed.
    ghost spent: { Self.Spent → Wire };

    /// Waits a while for the next bytes, and takes them into the front of `into`, which isn't empty. What stands behind
    /// them is left open.
    fn recv<R: Wait>(&mut self, rt: &R, into: &mut [u8]) -> Heard
        requires { 0 < length into.old }
        ensures hears { Hears result (wire self.old) (wire self.new) into.new }
        ensures pauses { HearingTakesPauses result (wire self.old).pauses (wire self.new).pauses }
        ensures counted { HearingIsCounted result (wire self.old) (wire self.new) }
        ensures sent { (wire self.new).outlet ≡ (wire self.old).outlet }
        ensures told { TellsNoMore (wire self.old) (wire self.new) };

    /// Sends bytes.
    fn send<R: Wait>(&mut self, rt: &R, bytes: &[u8]) -> Put
        ensures puts { Puts result (wire self.old).outlet (wire self.new).outlet bytes.now }
        ensures counted { PutIsCounted result (wire self.old).outlet (wire self.new).outlet }
        ensures heard { IsSameHearing (wire self.old) (wire self.new) }
        ensures pauses { (wire self.new).pauses ≡ (wire self.old).pauses }
        ensures told { TellsNoMore (wire self.old) (wire self.new) };

    /// Closes the link.
    fn finish(self) -> Self::Spent
        ensures { spent result ≡ wire self };
}
