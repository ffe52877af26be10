//! The shelf of the lists on one text.

ghost use Rattle.std.specs.Prelude.{◌≡◌, ◌<◌, ◌≤◌, true, length, take, IfOk, IsOk, OnOk, OnErr};
ghost use Rattle.change_list.specs.Logs.{stamp_of};
ghost use Rattle.change_list.specs.declared.log.TheConstants.{MAX_STAMP};
ghost use Rattle.list_shelf.specs.Lagging.{seen_by};
ghost use Rattle.list_shelf.specs.Shelves.{empty_shelf, has_row, has_room, row_of, brought_up, with_sels, with_lag_of, with_main, listed, unlisted, with_corner, entered, begun_again, room_made, with_shift, noted, all_noted, all_moved, trimmed_shelf, trimmed_before, CanStand, CanFollow};

use crate::holder::Holder;
use crate::lag::{Lag, copy_up};
use crate::log::SliceLog;
use crate::rows::{ShelfRow, bring_up, least, move_all, place, renew_all};
use change_list::MAX_STAMP;
use selection_set::Sels;
use std::alloc::{AllocError, Global};
use std::marker::Model;
use text_model::Shift;
use window_view::Corner;

/// The lists of all holders on one text, each with the stamp at which it stands and the corner of its holder's window, and the log of the
/// shifts since the least of these stamps. Contracts see the log and the lists as they stand; from these each list follows that it would be if it
/// had been moved at every change.
#[derive(Drop, Debug)]
pub struct Shelf {
    limit: u64,
    log: SliceLog,
    rows: Vec<ShelfRow>,
}

impl Model for Shelf {
    ghost use Rattle.std.specs.Prelude.{◌<◌, ◌≤◌};
    ghost use Rattle.change_list.specs.declared.log.TheConstants.{MAX_STAMP};
    ghost use Rattle.list_shelf.specs.Shelves.{Shelved};

    ghost Value = { Shelved };

    ghost view = { λ s. record { limit = s.limit; log = s.log; rows = s.rows.items } };

    ghost invariant = { λ s. (0 < s.limit) × (s.limit ≤ MAX_STAMP) };
}

impl Shelf {
    /// A shelf with nobody's list on it; takes no memory.
    pub fn new(alloc: Global) -> Shelf
        ensures { result ≡ empty_shelf MAX_STAMP }
    {
        Shelf::with_limit(alloc, MAX_STAMP)
    }

    /// The same with another stamp at which the log begins again, for trials.
    pub fn with_limit(alloc: Global, limit: u64) -> Shelf
        requires some { 0 < limit }
        requires few { limit ≤ MAX_STAMP }
        ensures { result ≡ empty_shelf limit }
    {
        Shelf {
            limit,
            log: SliceLog::new(alloc),
            rows: Vec::new(alloc),
        }
    }

    /// The log of the shifts that some list has yet to go through.
    pub fn log(&self) -> &SliceLog
        ensures { result.now ≡ self.now.log }
    {
        &self.log
    }

    /// Whether a holder has a list.
    pub fn has_list(&self, holder: Holder) -> bool
        ensures { result ≡ has_row holder self.now }
    {
        place(self.rows.as_slice(), holder) < self.rows.len()
    }

    /// The stamp at which a holder's list stands.
    pub fn stamp(&self, holder: Holder) -> u64
        requires { has_row holder self.now ≡ true }
        ensures { result ≡ (row_of holder self.now).lag.stamp }
    {
        let row = &self.rows[place(self.rows.as_slice(), holder)];
        row.lag.stamp
    }

    /// A holder's list, which is up to date: no list that lags is handed out.
    pub fn sels(&self, holder: Holder) -> &Sels
        requires list { has_row holder self.now ≡ true }
        requires up { (row_of holder self.now).lag.stamp ≡ stamp_of self.now.log }
        ensures { result.now ≡ (row_of holder self.now).lag.sels }
    {
        let row = &self.rows[place(self.rows.as_slice(), holder)];
        &row.lag.sels
    }

    /// A copy of a holder's list as it is when it has gone through the changes that it missed; the list itself is left where it
    /// stands. Takes no memory for at most four selections.
    pub fn copy_of(&self, alloc: Global, holder: Holder) -> Result<Sels, AllocError>
        requires list { has_row holder self.now ≡ true }
        requires can { CanStand self.now }
        ensures ok { IfOk result (λ sels. sels ≡ seen_by self.now.log (row_of holder self.now).lag) }
        ensures few { length (row_of holder self.now).lag.sels.list ≤ 4 → IsOk result }
    {
        let row = &self.rows[place(self.rows.as_slice(), holder)];
        copy_up(&row.lag, alloc, &self.log)
    }

    /// Whether the log has room for so many shifts more: it doesn't begin again when they are noted.
    pub fn has_room(&self, count: usize) -> bool
        ensures { result ≡ has_room count self.now }
    {
        if count == 0 {
            return true;
        }
        let stamp = self.log.stamp();
        if stamp > self.limit {
            return false;
        }
        count as u64 <= self.limit - stamp
    }

    /// Gives a holder another list, of the text as it is now.
    pub fn set_sels(&mut self, holder: Holder, sels: Sels)
        requires { has_row holder self.old ≡ true }
        ensures { self.new ≡ with_sels holder sels self.old }
    {
        let now = self.log.stamp();
        let at = place(self.rows.as_slice(), holder);
        let row = &mut self.rows[at];
        row.lag = Lag { stamp: now, sels };
    }

    /// Exchanges a holder's list for another one, which stands at a stamp of its own.
    pub fn swap_lag(&mut self, holder: Holder, lag: &mut Lag)
        requires { has_row holder self.old ≡ true }
        ensures shelf { self.new ≡ with_lag_of holder lag.old self.old }
        ensures lag { lag.new ≡ (row_of holder self.old).lag }
    {
        let at = place(self.rows.as_slice(), holder);
        let row = &mut self.rows[at];
        std::mem::swap(&mut row.lag, lag);
    }

    /// Makes the n-th selection of a holder's list the main one, where the list is up to date.
    pub fn set_main(&mut self, holder: Holder, n: usize)
        requires list { has_row holder self.old ≡ true }
        requires up { (row_of holder self.old).lag.stamp ≡ stamp_of self.old.log }
        requires there { n < length (row_of holder self.old).lag.sels.list }
        ensures { self.new ≡ with_main holder n self.old }
    {
        let at = place(self.rows.as_slice(), holder);
        let row = &mut self.rows[at];
        row.lag.sels.set_main(n);
    }

    /// Where a holder's window on the text stands.
    pub fn corner(&self, holder: Holder) -> Corner
        requires { has_row holder self.now ≡ true }
        ensures { result ≡ (row_of holder self.now).corner }
    {
        let row = &self.rows[place(self.rows.as_slice(), holder)];
        row.corner
    }

    /// Lets a holder's window stand elsewhere.
    pub fn set_corner(&mut self, holder: Holder, corner: Corner)
        requires { has_row holder self.old ≡ true }
        ensures { self.new ≡ with_corner holder corner self.old }
    {
        let at = place(self.rows.as_slice(), holder);
        let row = &mut self.rows[at];
        row.corner = corner;
    }

    /// Gives a holder a list of the text as it is now, and the corner of a window, where it has none. An `Err` leaves the shelf.
    pub fn add_list(&mut self, holder: Holder, sels: Sels, corner: Corner) -> Result<(), AllocError>
        ensures ok { OnOk result (self.new ≡ listed holder sels corner self.old) }
        ensures err { OnErr result (self.new ≡ self.old) }
    {
        if place(self.rows.as_slice(), holder) < self.rows.len() {
            return Ok(());
        }
        let now = self.log.stamp();
        let lag = Lag { stamp: now, sels };
        self.rows.push(ShelfRow {
            holder,
            lag,
            corner,
        })?;
        Ok(())
    }

    /// How many lists there are.
    pub fn count(&self) -> usize
        ensures { result ≡ length self.now.rows }
    {
        self.rows.len()
    }

    /// Takes off all lists but the first so many, which came before the others: what was added is taken back. Takes no memory.
    pub fn keep_first(&mut self, count: usize)
        ensures { self.new ≡ record self.old { rows = take count self.old.rows } }
    {
        self.rows.truncate(count);
    }

    /// Takes a holder's lists off. Takes no memory.
    pub fn drop_lists(&mut self, holder: Holder)
        ensures { self.new ≡ unlisted holder self.old }
    {
        self.rows.retain(|row| !holder.is(row.holder));
    }

    /// Brings a holder's list up to date, where it has one; all other lists and their stamps are left. Takes no memory.
    pub fn bring_up(&mut self, holder: Holder)
        requires { CanStand self.old }
        ensures { self.new ≡ brought_up holder self.old }
    {
        bring_up(&mut self.rows, &self.log, holder);
    }

    /// Brings all lists up to date, and lets the log begin again. Takes no memory.
    pub fn begin_again(&mut self)
        requires { CanStand self.old }
        ensures again { self.new ≡ begun_again self.old }
        ensures room { stamp_of self.new.log < self.new.limit }
    {
        renew_all(&mut self.rows, &self.log);
        self.log.restart();
    }

    /// Notes a shift, where the log has room for it. An `Err` leaves the shelf.
    pub fn push(&mut self, shift: Shift) -> Result<(), AllocError>
        requires { stamp_of self.old.log < self.old.limit }
        ensures ok { OnOk result (self.new ≡ with_shift shift self.old) }
        ensures err { OnErr result (self.new ≡ self.old) }
    {
        self.log.push(shift)
    }

    // Makes room for one shift more: where the log stands at its limit, all lists are brought up to date, and it begins again.
    fn make_room(&mut self)
        requires { CanStand self.old }
        ensures { self.new ≡ room_made self.old }
    {
        if self.log.stamp() < self.limit {
            return;
        }
        renew_all(&mut self.rows, &self.log);
        self.log.restart();
    }

    // Notes a shift, the first of some; where memory is wanting, all lists go through all of these in its place.
    fn note_first(&mut self, first: Shift, shifts: &[Shift]) -> Result<(), AllocError>
        requires { CanFollow self.old shifts.now }
        ensures ok { OnOk result (self.new ≡ noted first self.old) }
        ensures err { OnErr result (self.new ≡ all_moved shifts.now self.old) }
    {
        self.make_room();
        if self.log.push(first).is_err() {
            self.move_through(shifts);
            return Err(AllocError);
        }
        Ok(())
    }

    /// Brings all lists up to date and through further shifts, and lets the log begin again. Takes no memory.
    pub fn move_through(&mut self, shifts: &[Shift])
        requires { CanFollow self.old shifts.now }
        ensures { self.new ≡ all_moved shifts.now self.old }
    {
        renew_all(&mut self.rows, &self.log);
        self.log.restart();
        move_all(&mut self.rows, shifts);
    }

    /// Notes the shifts of changes of the text, one after another. Lists stay where they stand, but where one more shift is
    /// due and the log stands at its limit: then all lists are brought up to date, and the log begins again. Where memory is
    /// wanting, no shift is lost either: all lists are brought up to date, through all of the shifts.
    pub fn note(&mut self, shifts: &[Shift]) -> Result<(), AllocError>
        requires { CanFollow self.old shifts.now }
        ensures ok { OnOk result (self.new ≡ all_noted shifts.now self.old) }
        ensures err { OnErr result (self.new ≡ all_moved shifts.now self.old) }
    {
        let mut rest = shifts;
        while let Some((first, others)) = rest.split_first() {
            self.note_first(*first, rest)?;
            rest = others;
        }
        Ok(())
    }

    /// Drops the shifts that no list has yet to go through. Takes no memory.
    pub fn trim(&mut self)
        requires { CanStand self.old }
        ensures { self.new ≡ trimmed_shelf self.old }
    {
        let to = least(self.rows.as_slice(), self.log.stamp());
        self.log.trim(to);
    }

    /// Drops the shifts before a stamp that no list has yet to go through. Takes no memory.
    pub fn trim_before(&mut self, stamp: u64)
        requires can { CanStand self.old }
        requires first { self.old.log.first ≤ stamp }
        requires last { stamp ≤ stamp_of self.old.log }
        ensures { self.new ≡ trimmed_before stamp self.old }
    {
        let from = least(self.rows.as_slice(), stamp);
        self.log.trim(from);
    }

    /// Brings a holder's list up to date, where it has one, and drops the shifts that no list has yet to go through then; all
    /// other lists and their stamps are left. Takes no memory.
    pub fn enter(&mut self, holder: Holder)
        requires { CanStand self.old }
        ensures { self.new ≡ entered holder self.old }
    {
        self.bring_up(holder);
        self.trim();
    }

    /// Notes the shifts of changes that a holder made, and brings that holder's list up to date; other lists stay where they
    /// stand, as `note` says. Where memory is wanting, no shift is lost either.
    pub fn note_for(&mut self, holder: Holder, shifts: &[Shift]) -> Result<(), AllocError>
        requires { CanFollow self.old shifts.now }
        ensures ok { OnOk result (self.new ≡ entered holder (all_noted shifts.now self.old)) }
        ensures err { OnErr result (self.new ≡ entered holder (all_moved shifts.now self.old)) }
    {
        let noted = self.note(shifts);
        self.enter(holder);
        noted
    }
}
