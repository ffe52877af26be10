//! Where links come from.

ghost use Rattle.std.specs.Prelude.{◌≡◌};
ghost use Rattle.client_links.specs.Wires.{IsFresh};
ghost use Rattle.client_links.specs.Doors.{Door, Binds, BindIsCounted, Comes, ComesInOrder, NextIsCounted, IfCame};

use crate::link::Link;
use std::sync::Wait;

/// What a `bind` answers.
#[derive(Clone, Copy, Debug, PartialEq, Eq)]
pub enum Bound {
    /// The acceptor listens for the session from now on.
    Up,
    /// Binding failed, and the count of faults rose. The acceptor listens for what it listened for before.
    Failed,
}

/// What a `next` answers.
#[derive(Drop)]
pub enum Next<L> {
    /// A link came.
    Came(L),
    /// None has come yet. That is no fault.
    Idle,
    /// Accepting failed, and the count of faults rose. No link came.
    Failed,
}

/// Where links come from.
pub trait Acceptor {
    /// The links that come.
    type Link: Link;

    // The session for which it listens, how many links came and which will, where this is told, and how often a call failed.
    ghost door: { Self → Door };

    /// Begins to listen for a session, in place of the one before.
    fn bind<R: Wait>(&mut self, rt: &R, session: &str) -> Bound
        ensures binds { Binds result (door self.old) (door self.new) session.now }
        ensures to_come { (door self.new).to_come ≡ (door self.old).to_come }
        ensures counted { BindIsCounted result (door self.old) (door self.new) };

    /// Waits a while for the next link, which has received and sent nothing. Where no session is listened for, none
    /// comes.
    fn next<R: Wait>(&mut self, rt: &R) -> Next<Self::Link>
        ensures comes { Comes result (door self.old) (door self.new) }
        ensures in_order { ComesInOrder (λ link. Self.Link.wire link) result (door self.old) (door self.new) }
        ensures fresh { IfCame result (λ link. IsFresh (Self.Link.wire link)) }
        ensures counted { NextIsCounted result (door self.old) (door self.new) };
}
