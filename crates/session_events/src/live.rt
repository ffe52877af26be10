//! A seat that looks at what others do.

ghost use Rattle.std.specs.Prelude.{◌≡◌, IfSome, Some};
ghost use Rattle.session_events.specs.Seats.{IsIn, IsSameSeat, IsLegalSeat, Sees};
ghost use Rattle.session_events.specs.Missing.{TellsMissed};

use crate::seat::Seat;

/// What a look at the session tells its client.
#[derive(Clone, Copy, PartialEq, Eq, Debug)]
pub enum Missed {
    /// Nothing that it wasn't drawn since, of the entries seen; or the client isn't here.
    Nothing,
    /// The client is here, and something stands behind its last drawing.
    Something,
    /// The session is broken, since so many entries stood. No step is taken any more.
    Broken(u64),
}

/// A seat at a session where others play too.
pub trait LiveSeat: Seat {
    /// Looks at the session, which it doesn't change. Where nothing came since the client's last step that was taken, or since
    /// its last look, it waits for nobody. That a session broke is seen with the next entry that came, or in a step.
    fn look(&mut self) -> Missed
        ensures same { IsSameSeat (Self.seated self.old) (Self.seated self.new) }
        ensures kept { Self.kept self.new ≡ Self.kept self.old }
        ensures sees { Sees Self.gives (Self.seated self.old) (Self.seated self.new) }
        ensures legal { IsLegalSeat (Self.seated self.old) → IsLegalSeat (Self.seated self.new) }
        ensures stays { IsIn (Self.seated self.old) → IsIn (Self.seated self.new) }
        ensures tells { TellsMissed result (Self.seated self.new) }
        ensures marked { IfSome (Self.seated self.old).mark (λ at. (Self.seated self.new).mark ≡ Some at) };
}
