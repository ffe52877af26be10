//! The list that a client had when its key event began.

ghost use Rattle.std.specs.Prelude.{◌≡◌};
ghost use Rattle.list_archive.specs.Archives.{saved_carried, left_saved, is_had_by, saved_without, is_saved_of, least_saved, IsSavedCarriable};

use crate::lags::{carry, lesser};
use list_shelf::{Lag, SliceLog};
use text_model::Shift;

/// The list that a client had when its key event began. While the client has that list still it isn't stored: each change moves both
/// alike.
#[derive(Drop, Debug)]
pub enum Saved {
    /// There is none.
    Nothing,
    /// That of a client, which has it still.
    Same(u32),
    /// That of a client, which has another one.
    Own(u32, Lag),
}

impl Saved {
    /// Brings it up to date and through further shifts, for a log that begins again. Takes no memory.
    pub(crate) fn carry(&mut self, log: &SliceLog, shifts: &[Shift])
        requires { IsSavedCarriable log.now shifts.now self.old }
        ensures { self.new ≡ saved_carried log.now shifts.now self.old }
    {
        match self {
            Saved::Own(_, lag) => carry(lag, log, shifts),
            _ => {}
        }
    }

    /// The least of a stamp and of that at which it stands.
    pub(crate) fn least(&self, stamp: u64) -> u64
        ensures { result ≡ least_saved stamp self.now }
    {
        match self {
            Saved::Own(_, lag) => lesser(stamp, lag.stamp),
            _ => stamp,
        }
    }

    /// A client gets another list in place of one that it had: where that is this one, it is taken over.
    pub(crate) fn leave(&mut self, who: u32, had: Lag)
        ensures { self.new ≡ left_saved who had self.old }
    {
        if self.is_had_by(who) {
            *self = Saved::Own(who, had);
        }
    }

    /// Whether it is that of a client, which has it still.
    pub(crate) fn is_had_by(&self, who: u32) -> bool
        ensures { result ≡ is_had_by who self.now }
    {
        match self {
            Saved::Same(number) => *number == who,
            _ => false,
        }
    }

    /// A client leaves.
    pub(crate) fn forget(&mut self, who: u32)
        ensures { self.new ≡ saved_without who self.old }
    {
        if self.is_of(who) {
            *self = Saved::Nothing;
        }
    }

    // Whether it is a client's.
    fn is_of(&self, who: u32) -> bool
        ensures { result ≡ is_saved_of who self.now }
    {
        match self {
            Saved::Nothing => false,
            Saved::Same(number) => *number == who,
            Saved::Own(number, _) => *number == who,
        }
    }
}
