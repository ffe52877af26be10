//! The table behind a desk, and the rule that each step on it keeps.
//! Word 0 is the turn, 0 free and 1 held. Word 1 is twice the length of the history, and one more where a mark is set.
//! Slot 0 has the object, and is out with the seat that has the turn.
use crate::played::Played;
use atomic_table::{Seat, Shared, Table, TableRule};
use std::alloc::Global;
use std::collections::LinkedList;
use std::marker::PhantomData;
use std::snapshot::Snapshot;

/// What a seat at the table is for.
pub enum Role {
    /// The keeper's: how many passes were made, and how many are out.
    Admits(u32, u32),
    /// A pass's: its number.
    Plays(u32),
    /// That of a pass that was given back.
    Spent,
}

/// What a seat at the table knows. No value of it is made.
pub struct View<E, F> {
    pub role: Role,
    /// Whether it has the turn.
    pub holds: bool,
    /// The history that it has seen.
    pub seen: LinkedList<E>,
    /// The mark that it met.
    pub mark: Option<u64>,
    pub frame: Option<F>,
    /// The history that it had seen before the last pass was given back to it.
    pub earlier: LinkedList<E>,
    /// The number, the list and the mark of each pass that was given back.
    pub given: LinkedList<(u32, LinkedList<E>, Option<u64>)>,
}

/// One history for all seats.
pub struct OneHistory<O> {
    object: PhantomData<O>,
}

impl<O: Played> TableRule<Option<O>, View<O::Entry, O::Frame>, Snapshot<O>> for OneHistory<O> {
    ghost use Rattle.session_desk.specs.Rule.{IsRuleKept, opening_view};

    ghost holds = { λ key. IsRuleKept O.entries O.maker O.marked O.frame (O.frame key.value) };

    ghost first = { λ key. opening_view (O.frame key.value) };
}

/// The word of the turn.
pub(crate) const TURN: usize = 0;

/// The word of the length and the mark.
pub(crate) const LENGTH: usize = 1;

/// The slot of the object.
pub(crate) const OBJECT: usize = 0;

/// A turn that no seat has.
pub(crate) const TURN_FREE: u64 = 0;

/// A turn that a seat has.
pub(crate) const TURN_HELD: u64 = 1;

/// The table behind a desk.
pub(crate) type DeskTable<O> = Table<
    Option<O>,
    View<<O as Played>::Entry, <O as Played>::Frame>,
    Snapshot<O>,
    OneHistory<O>,
    Global,
>;

/// The table as seats step on it.
pub(crate) type SharedTable<O> = Shared<
    Option<O>,
    View<<O as Played>::Entry, <O as Played>::Frame>,
    Snapshot<O>,
    OneHistory<O>,
>;

/// A seat at the table.
pub(crate) type TableSeat<O> = Seat<Option<O>, View<<O as Played>::Entry, <O as Played>::Frame>>;
