//! Rows of lists that lag behind one text.

ghost use Rattle.std.specs.Prelude.{◌≡◌, ◌≤◌, ◌++◌, length, map, take, drop, min};
ghost use Rattle.list_shelf.specs.Lagging.{IsLagging, up_to_date};
ghost use Rattle.list_archive.specs.Archives.{carried, least_lag, IsCarriable, AreAllLagging, AreCarriable};

use list_shelf::{Lag, SliceLog, catch_up, go_through};
use text_model::Shift;

/// Brings a list up to date and through further shifts, for a log that begins again. Takes no memory.
pub(crate) fn carry(lag: &mut Lag, log: &SliceLog, shifts: &[Shift])
    requires { IsCarriable log.now shifts.now lag.old }
    ensures { lag.new ≡ carried log.now shifts.now lag.old }
{
    catch_up(lag, log);
    go_through(lag, shifts);
    lag.stamp = 0;
}

/// So with each of some lists.
pub(crate) fn carry_all(lags: &mut Vec<Lag>, log: &SliceLog, shifts: &[Shift])
    requires { AreCarriable log.now shifts.now lags.old.items }
    ensures { lags.new.items ≡ map (carried log.now shifts.now) lags.old.items }
{
    for n in 0..lags.len() {
        let lag = &mut lags[n];
        carry(lag, log, shifts);
    }
}

/// Brings the first of some lists up to date. Takes no memory.
pub(crate) fn bring_first(lags: &mut Vec<Lag>, log: &SliceLog, count: usize)
    requires lagging { AreAllLagging log.now (take count lags.old.items) }
    requires within { count ≤ length lags.old.items }
    ensures { lags.new.items ≡ map (up_to_date log.now) (take count lags.old.items) ++ drop count lags.old.items }
{
    for n in 0..count {
        let lag = &mut lags[n];
        catch_up(lag, log);
    }
}

/// The lesser of two stamps.
pub(crate) fn lesser(a: u64, b: u64) -> u64
    ensures { result ≡ min a b }
{
    if a <= b { a } else { b }
}

/// The least of a stamp and of those at which some lists stand.
pub(crate) fn least_lag(lags: &[Lag], stamp: u64) -> u64
    ensures { result ≡ least_lag stamp lags.now }
{
    let mut least = stamp;
    for lag in lags {
        least = lesser(least, lag.stamp);
    }
    least
}
