//! An acceptor over memory.

ghost use Rattle.std.specs.Prelude.{◌≡◌, All, IfOk, IsTrue, Some, None};
ghost use Rattle.kak_ports.specs.Plans.{is_planned, after_call};
ghost use Rattle.client_links.specs.Wires.{IsFresh};
ghost use Rattle.client_links.specs.Doors.{Binds, BindIsCounted, Comes, ComesInOrder, NextIsCounted, IfCame};
ghost use Rattle.client_links.specs.Memory.{memory_wire};
ghost use Rattle.client_links.specs.MemoryDoors.{memory_door, wires_of, NextIsPlanned};

use crate::acceptor::{Acceptor, Bound, Next};
use crate::kept::MemLink;
use crate::planned::PlannedCalls;
use crate::waiting::MemAcceptor;
use byte_texts::Utf8Text;
use kak_ports::FailingCalls;
use std::alloc::Global;
use std::collections::VecDeque;
use std::sync::Wait;

impl MemAcceptor {
    /// An acceptor to which these links come. It doesn't listen yet. The plan is of the calls of `bind` and `next`
    /// together.
    pub fn new(alloc: Global, links: Vec<MemLink>, plan: FailingCalls) -> MemAcceptor
        requires { All (λ link. IsFresh (memory_wire link)) links.items }
        ensures silent { (memory_door result).listens ≡ None }
        ensures none_came { (memory_door result).came ≡ Some 0 }
        ensures to_come { (memory_door result).to_come ≡ Some (wires_of links.items) }
        ensures links { result.links.items ≡ links.items }
        ensures plan { result.calls.plan ≡ plan }
        ensures faults { (memory_door result).faults ≡ 0 }
    {
        MemAcceptor {
            alloc,
            links: VecDeque::from_vec(links),
            came: 0,
            session: None,
            calls: PlannedCalls::new(plan),
        }
    }
}

impl Acceptor for MemAcceptor {
    type Link = MemLink;

    ghost door = { memory_door };

    /// Begins to listen for a session. It fails where it is planned to, or where memory is wanting.
    fn bind<R: Wait>(&mut self, _rt: &R, session: &str) -> Bound
        ensures planned { IsTrue (is_planned self.old.calls.plan) → result ≡ Bound.Failed }
        ensures binds { Binds result (memory_door self.old) (memory_door self.new) session.now }
        ensures to_come { self.new.links ≡ self.old.links }
        ensures counted { BindIsCounted result (memory_door self.old) (memory_door self.new) }
        ensures plan { self.new.calls.plan ≡ after_call self.old.calls.plan }
    {
        if self.calls.is_next_failing() {
            return Bound::Failed;
        }
        match Utf8Text::from_str(self.alloc, session) {
            Ok(session) => {
                self.session = Some(session);
                Bound::Up
            }
            Err(_) => {
                self.calls.count_fault();
                Bound::Failed
            }
        }
    }

    /// The next link. It fails where it is planned to.
    fn next<R: Wait>(&mut self, _rt: &R) -> Next<MemLink>
        ensures planned { NextIsPlanned result (is_planned self.old.calls.plan) }
        ensures comes { Comes result (memory_door self.old) (memory_door self.new) }
        ensures in_order { ComesInOrder memory_wire result (memory_door self.old) (memory_door self.new) }
        ensures fresh { IfCame result (λ link. IsFresh (memory_wire link)) }
        ensures counted { NextIsCounted result (memory_door self.old) (memory_door self.new) }
        ensures plan { self.new.calls.plan ≡ after_call self.old.calls.plan }
    {
        if self.calls.is_next_failing() {
            return Next::Failed;
        }
        if self.session.is_none() {
            return Next::Idle;
        }
        match self.links.pop_front() {
            Some(link) => {
                self.came += 1;
                Next::Came(link)
            }
            None => Next::Idle,
        }
    }
}
