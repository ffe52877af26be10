//! The trails of clients: the lists that they can take back and redo.

ghost use Rattle.std.specs.Prelude.{◌≡◌, ◌≤◌, ◌++◌, ◌∷◌, [], true, false, length, take, drop, map, slice_get, Some, None, IfOk, OnOk, OnErr, ◌-◌};
ghost use Rattle.tables.specs.Tables.{place_where};
ghost use Rattle.list_shelf.specs.declared.holder.Holder.TheVariants.{Of};
ghost use Rattle.list_shelf.specs.Lagging.{up_to_date};
ghost use Rattle.list_shelf.specs.Shelves.{has_row, row_of, with_lag_of};
ghost use Rattle.list_archive.specs.Trails.{trail_with, is_trail_of};
ghost use Rattle.list_archive.specs.Archives.{carried, least_lag, least_trail, newest_lags, own_lag, AreAllLagging, IsTrailCarriable, AreTrailsCarriable, WentBack, WentForward};

use crate::lags::{bring_first, carry_all, least_lag};
use crate::limits::{count_too_many, fits};
use list_shelf::{Holder, Lag, Shelf, SliceLog, catch_up};
use std::alloc::{AllocError, Global};
use std::marker::Model;
use text_model::Shift;

/// A client's trail: the lists that it had before the one that it has, the oldest first, and behind them those that it took back,
/// the nearest first. Going back and forward exchanges one of them for the client's list, and takes no memory.
#[derive(Drop, Debug)]
pub struct TrailRow {
    who: u32,
    // how many of the lists come before the one that the client has
    past: usize,
    lags: Vec<Lag>,
}

impl Model for TrailRow {
    ghost use Rattle.std.specs.Prelude.{◌≤◌, length, take, drop};
    ghost use Rattle.list_shelf.specs.declared.lag.Lag.{Lag as LagSeen};
    ghost use Rattle.list_archive.specs.Trails.{Trail};

    ghost Value = { Trail LagSeen };

    ghost view = { λ t. record { who = t.who; past = take t.past t.lags.items; ahead = drop t.past t.lags.items } };

    ghost invariant = { λ t. t.past ≤ length t.lags.items };
}

impl TrailRow {
    /// The trail of a client that went on from one list.
    pub(crate) fn new(alloc: Global, who: u32, lag: Lag) -> Result<TrailRow, AllocError>
        ensures { IfOk result (λ t. t ≡ record { who = who; past = lag ∷ []; ahead = [] }) }
    {
        let mut lags = Vec::new(alloc);
        lags.push(lag)?;
        Ok(TrailRow { who, past: 1, lags })
    }

    /// Whose it is.
    pub(crate) fn who(&self) -> u32
        ensures { result ≡ self.now.who }
    {
        self.who
    }

    /// Brings its lists up to date and through further shifts, for a log that begins again. Takes no memory.
    pub(crate) fn carry(&mut self, log: &SliceLog, shifts: &[Shift])
        requires { IsTrailCarriable log.now shifts.now self.old }
        ensures { self.new ≡ trail_with (carried log.now shifts.now) self.old }
    {
        carry_all(&mut self.lags, log, shifts);
    }

    /// The least of a stamp and of those at which its lists stand.
    pub(crate) fn least(&self, stamp: u64) -> u64
        ensures { result ≡ least_lag (least_lag stamp self.now.past) self.now.ahead }
    {
        least_lag(self.lags.as_slice(), stamp)
    }

    // Drops the oldest lists before the client's own, where there are too many.
    fn keep_newest(&mut self, log: &SliceLog)
        requires { AreAllLagging log.now self.old.past }
        ensures { self.new ≡ record { who = self.old.who; past = newest_lags log.now self.old.past; ahead = self.old.ahead } }
    {
        if fits(&self.lags[..self.past]) {
            return;
        }
        bring_first(&mut self.lags, log, self.past);
        let less = count_too_many(&self.lags[..self.past]);
        drop(self.lags.drain(..less));
        self.past -= less;
    }

    // Puts a list behind those before the client's own, and forgets those ahead.
    fn put_behind(&mut self, lag: Lag) -> Result<(), AllocError>
        ensures ok { OnOk result (self.new ≡ record { who = self.old.who; past = self.old.past ++ lag ∷ []; ahead = [] }) }
        ensures err { OnErr result (self.new ≡ self.old) }
    {
        self.lags.insert(self.past, lag)?;
        self.past += 1;
        self.lags.truncate(self.past);
        Ok(())
    }

    /// The client went on from a list to another one. An `Err` leaves the trail.
    pub(crate) fn go_on(&mut self, log: &SliceLog, lag: Lag) -> Result<(), AllocError>
        requires { AreAllLagging log.now (self.old.past ++ lag ∷ []) }
        ensures ok { OnOk result (self.new ≡ record { who = self.old.who; past = newest_lags log.now (self.old.past ++ lag ∷ []); ahead = [] }) }
        ensures err { OnErr result (self.new ≡ self.old) }
    {
        self.put_behind(lag)?;
        self.keep_newest(log);
        Ok(())
    }

    /// The client goes back to the list before the one that it has, and tells whether there is one. Takes no memory.
    pub(crate) fn go_back(&mut self, shelf: &mut Shelf) -> bool
        requires list { has_row (Of self.old.who) shelf.old ≡ true }
        requires lagging { AreAllLagging shelf.old.log self.old.past }
        ensures { WentBack (slice_get self.old.past (length self.old.past - 1)) result self.old shelf.old self.new shelf.new }
    {
        if self.past == 0 {
            return false;
        }
        self.past -= 1;
        let lag = &mut self.lags[self.past];
        catch_up(lag, shelf.log());
        shelf.swap_lag(Holder::Of(self.who), lag);
        true
    }

    // Exchanges the client's list for the nearest one that it took back.
    fn step_forward(&mut self, shelf: &mut Shelf) -> bool
        requires list { has_row (Of self.old.who) shelf.old ≡ true }
        requires lagging { AreAllLagging shelf.old.log self.old.ahead }
        ensures { WentForward (λ lags. lags) (slice_get self.old.ahead 0) result self.old shelf.old self.new shelf.new }
    {
        if self.past >= self.lags.len() {
            return false;
        }
        let next = &mut self.lags[self.past];
        catch_up(next, shelf.log());
        shelf.swap_lag(Holder::Of(self.who), next);
        self.past += 1;
        true
    }

    /// The client goes forward to the nearest list that it took back, and tells whether there is one. Takes no memory.
    pub(crate) fn go_forward(&mut self, shelf: &mut Shelf) -> bool
        requires list { has_row (Of self.old.who) shelf.old ≡ true }
        requires past { AreAllLagging shelf.old.log (self.old.past ++ own_lag self.old.who shelf.old ∷ []) }
        requires ahead { AreAllLagging shelf.old.log self.old.ahead }
        ensures { WentForward (newest_lags shelf.old.log) (slice_get self.old.ahead 0) result self.old shelf.old self.new shelf.new }
    {
        if !self.step_forward(shelf) {
            return false;
        }
        self.keep_newest(shelf.log());
        true
    }
}

/// The place of a client's trail, or how many trails there are where it has none.
pub(crate) fn place_of_trail(trails: &[TrailRow], who: u32) -> usize
    ensures { result ≡ place_where (is_trail_of who) trails.now }
{
    for (i, trail) in trails.iter().enumerate() {
        if trail.who() == who {
            return i;
        }
    }
    trails.len()
}

/// Brings the lists of all trails up to date and through further shifts, for a log that begins again. Takes no memory.
pub(crate) fn carry_trails(trails: &mut Vec<TrailRow>, log: &SliceLog, shifts: &[Shift])
    requires { AreTrailsCarriable log.now shifts.now trails.old.items }
    ensures { trails.new.items ≡ map (trail_with (carried log.now shifts.now)) trails.old.items }
{
    for n in 0..trails.len() {
        let trail = &mut trails[n];
        trail.carry(log, shifts);
    }
}

/// The least of a stamp and of those at which the lists of trails stand.
pub(crate) fn least_trail(trails: &[TrailRow], stamp: u64) -> u64
    ensures { result ≡ least_trail stamp trails.now }
{
    let mut least = stamp;
    for trail in trails {
        least = trail.least(least);
    }
    least
}
