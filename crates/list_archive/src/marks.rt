//! The marks of registers.

ghost use Rattle.std.specs.Prelude.{◌≡◌, map};
ghost use Rattle.tables.specs.Tables.{place_where};
ghost use Rattle.list_archive.specs.Trails.{mark_with, is_mark_of};
ghost use Rattle.list_archive.specs.Archives.{carried, least_mark, AreMarksCarriable, IsCarriable};

use crate::lags::{carry, lesser};
use list_shelf::{Lag, SliceLog};
use std::marker::Model;
use text_model::Shift;

/// The mark of a register: a list, with the stamp at which it stands.
#[derive(Drop, Debug)]
pub struct MarkRow {
    register: char,
    pub(crate) lag: Lag,
}

impl Model for MarkRow {
    ghost use Rattle.list_shelf.specs.declared.lag.Lag.{Lag as LagSeen};
    ghost use Rattle.list_archive.specs.Trails.{Mark};

    ghost Value = { Mark LagSeen };

    ghost view = { λ m. record { register = m.register; list = m.lag } };
}

impl MarkRow {
    /// The mark of a register.
    pub(crate) fn new(register: char, lag: Lag) -> MarkRow
        ensures { result ≡ record { register = register; list = lag } }
    {
        MarkRow { register, lag }
    }

    /// Whose it is.
    pub(crate) fn register(&self) -> char
        ensures { result ≡ self.now.register }
    {
        self.register
    }

    /// Its list.
    pub(crate) fn lag(&self) -> &Lag
        ensures { result.now ≡ self.now.list }
    {
        &self.lag
    }

    /// Gives it another list.
    pub(crate) fn set_lag(&mut self, lag: Lag)
        ensures { self.new ≡ record { register = self.old.register; list = lag } }
    {
        self.lag = lag;
    }

    /// Brings its list up to date and through further shifts, for a log that begins again. Takes no memory.
    pub(crate) fn carry(&mut self, log: &SliceLog, shifts: &[Shift])
        requires { IsCarriable log.now shifts.now self.old.list }
        ensures { self.new ≡ mark_with (carried log.now shifts.now) self.old }
    {
        carry(&mut self.lag, log, shifts);
    }
}

/// The place of a register's mark, or how many marks there are where it has none.
pub(crate) fn place_of_mark(marks: &[MarkRow], register: char) -> usize
    ensures { result ≡ place_where (is_mark_of register) marks.now }
{
    for (i, mark) in marks.iter().enumerate() {
        if mark.register() == register {
            return i;
        }
    }
    marks.len()
}

/// Brings the lists of all marks up to date and through further shifts, for a log that begins again. Takes no memory.
pub(crate) fn carry_marks(marks: &mut Vec<MarkRow>, log: &SliceLog, shifts: &[Shift])
    requires { AreMarksCarriable log.now shifts.now marks.old.items }
    ensures { marks.new.items ≡ map (mark_with (carried log.now shifts.now)) marks.old.items }
{
    for n in 0..marks.len() {
        let mark = &mut marks[n];
        mark.carry(log, shifts);
    }
}

/// The least of a stamp and of those at which the lists of marks stand.
pub(crate) fn least_mark(marks: &[MarkRow], stamp: u64) -> u64
    ensures { result ≡ least_mark stamp marks.now }
{
    let mut least = stamp;
    for mark in marks {
        least = lesser(least, mark.lag().stamp);
    }
    least
}
