//! A list that may lag behind the text that it is on.

ghost use Rattle.std.specs.Prelude.{◌≡◌, ◌≤◌, ◌+◌, ◌*◌, length, IfOk, IsOk};
ghost use Rattle.selection_map.specs.Behind.{AreRising};
ghost use Rattle.selection_map.specs.Catching.{IsCatchable};
ghost use Rattle.selection_map.specs.Staying.{count_moved};
ghost use Rattle.list_shelf.specs.Lagging.{IsLagging, since, seen_by, up_to_date, renewed, gone_through};

use crate::log::SliceLog;
use selection_set::Sels;
use std::alloc::{AllocError, Global};
use std::sync::ledger::Ledger;
use step_count::Steps;
use text_model::Shift;

/// A list as it was when the log of its text stood at a stamp.
#[derive(Drop, Debug)]
pub struct Lag {
    /// The stamp of the first shift that the list has yet to go through.
    pub stamp: u64,
    /// The list, settled and inside the text of that stamp.
    pub sels: Sels,
}

/// Brings a list up to date: it goes through each shift from its stamp on, and is settled once. One that is up to date isn't
/// looked at. Takes no memory.
pub fn catch_up(lag: &mut Lag, log: &SliceLog)
    requires { IsLagging log.now lag.old }
    ensures { lag.new ≡ up_to_date log.now lag.old }
{
    if lag.stamp == log.stamp() {
        return;
    }
    selection_map::catch_up(&mut lag.sels, log.since(lag.stamp));
    lag.stamp = log.stamp();
}

/// The same for shifts that rise, in one walk with a count of its turns: each finishes one end of a selection or passes one
/// shift. There are two for each selection that moves at least, and two for each selection and one for each shift at most.
pub fn catch_up_forward<L: Ledger>(lag: &mut Lag, log: &SliceLog, steps: &mut Steps<L>)
    requires lags { IsLagging log.now lag.old }
    requires rise { AreRising (since log.now lag.old.stamp) }
    ensures caught { lag.new ≡ up_to_date log.now lag.old }
    ensures ends { steps.old + 2 * count_moved (since log.now lag.old.stamp) lag.old.sels.list ≤ steps.new }
    ensures turns { steps.new ≤ steps.old + (2 * length lag.old.sels.list + length (since log.now lag.old.stamp)) }
{
    selection_map::catch_up_forward(&mut lag.sels, log.since(lag.stamp), steps);
    lag.stamp = log.stamp();
}

/// A copy of a list that is up to date; the list itself is left where it stands. Takes no memory for at most four selections.
pub fn copy_up(lag: &Lag, alloc: Global, log: &SliceLog) -> Result<Sels, AllocError>
    requires { IsLagging log.now lag.now }
    ensures ok { IfOk result (λ sels. sels ≡ seen_by log.now lag.now) }
    ensures few { length lag.now.sels.list ≤ 4 → IsOk result }
{
    let sels = lag.sels.copy(alloc)?;
    let mut copy = Lag {
        stamp: lag.stamp,
        sels,
    };
    catch_up(&mut copy, log);
    Ok(copy.sels)
}

/// Brings a list up to date, for a log that begins again. Takes no memory.
pub(crate) fn renew(lag: &mut Lag, log: &SliceLog)
    requires { IsLagging log.now lag.old }
    ensures { lag.new ≡ renewed log.now lag.old }
{
    catch_up(lag, log);
    lag.stamp = 0;
}

/// Takes a list through shifts that no log holds. Takes no memory.
pub fn go_through(lag: &mut Lag, shifts: &[Shift])
    requires { IsCatchable shifts.now lag.old.sels }
    ensures { lag.new ≡ gone_through shifts.now lag.old }
{
    selection_map::catch_up(&mut lag.sels, shifts);
}
