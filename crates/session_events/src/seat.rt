//! Where the events of one client are taken.

ghost use Rattle.std.specs.Prelude.{◌≡◌, List, ℕ, Bool, Err, IfOk, IfErr, IfSome, OnOk, OnErr, Some, true, false};
ghost use Rattle.session_events.specs.declared.event.Entry.{Entry};
ghost use Rattle.session_events.specs.declared.event.Output.{Output};
ghost use Rattle.session_events.specs.declared.fault.StepFault.TheVariants.{Broken};
ghost use Rattle.session_events.specs.Entries.{is_leave};
ghost use Rattle.session_events.specs.Meaning.{IsMeaning};
ghost use Rattle.session_events.specs.Seats.{Seated, IsIn, IsSameSeat, IsLegalSeat, IsAlone, turned_to, Steps, Sees, Refuses, StaysUnbroken};

use crate::event::{Event, Output};
use crate::fault::StepFault;
use std::alloc::Global;

/// A place at a session: it takes one client's events, while others may take theirs.
pub trait Seat {
    // What an entry gives its client, behind the entries before it.
    ghost gives: { List Entry → Entry → Output };

    // Whether no further client may come, behind some entries.
    ghost crowded: { List Entry → Bool };

    // Whether something is run where a client goes, behind some entries.
    ghost parting: { List Entry → Bool };

    // The client's number, how many entries the history may have, the session's mark, the entries that were seen, and those
    // of others among them where no other client plays.
    ghost seated: { Self → Seated };

    // What no step changes: of which type it is, and what it is.
    ghost Kept: { Type 0 };

    ghost kept: { Self → Kept };

    /// Takes one event of the client, which is joined then, unless it left.
    fn step(&mut self, alloc: Global, event: &Event) -> Result<Output, StepFault>
        ensures meaning { IsMeaning gives }
        ensures same { IsSameSeat (seated self.old) (seated self.new) }
        ensures kept { kept self.new ≡ kept self.old }
        ensures legal { IsLegalSeat (seated self.new) }
        ensures joined { OnOk result (is_leave event.now ≡ false → IsIn (seated self.new)) }
        ensures stays { OnErr result (IsIn (seated self.old) → IsIn (seated self.new)) }
        ensures ok { IfOk result (λ output. Steps gives (seated self.old) (seated self.new) event.now output) }
        ensures err { OnErr result (Sees gives (seated self.old) (seated self.new)) }
        ensures why { IfErr result (λ fault. Refuses crowded parting fault (seated self.new) event.now) }
        ensures whole { StaysUnbroken result (seated self.new) }
        ensures marked { IfSome (seated self.old).mark (λ at. (seated self.new).mark ≡ Some at) }
        ensures broken { IfSome (seated self.old).mark (λ at. result ≡ Err (Broken at)) };
}

/// The seats of a session that nobody else uses: its clients play one at a time.
pub trait Seats: Seat {
    /// Turns to a client, whose events are taken from here on.
    fn turn_to(&mut self, who: u32)
        ensures turned { Self.seated self.new ≡ turned_to who (Self.seated self.old) }
        ensures kept { Self.kept self.new ≡ Self.kept self.old };

    // Nobody else plays.
    ghost alone: { (seats : Self) → IsAlone (Self.seated seats) };
}
