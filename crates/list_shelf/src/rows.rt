//! The lists of a shelf, each with its holder.

ghost use Rattle.std.specs.Prelude.{◌≡◌, ◌≤◌, length, map, min};
ghost use Rattle.tables.specs.Tables.{place_where, changed_where};
ghost use Rattle.selection_map.specs.Catching.{IsCatchable};
ghost use Rattle.list_shelf.specs.Lagging.{IsLagging, up_to_date, renewed, gone_through};
ghost use Rattle.list_shelf.specs.Shelves.{is_of, with_lag, least, AreLagging, AreCatchable};

use crate::holder::Holder;
use crate::lag::{Lag, catch_up, go_through, renew};
use crate::log::SliceLog;
use text_model::Shift;
use window_view::Corner;

/// A list on a shelf, whose it is, and where its holder's window on the text stands.
#[derive(Drop, Debug)]
pub struct ShelfRow {
    /// Whose it is.
    pub holder: Holder,
    /// The list, with the stamp at which it stands.
    pub lag: Lag,
    /// Where its holder's window on the text stands; how large that is belongs to the holder, and not to the list.
    pub corner: Corner,
}

/// The place of a holder's list, or how many lists there are where it has none.
pub(crate) fn place(rows: &[ShelfRow], holder: Holder) -> usize
    ensures { result ≡ place_where (is_of holder) rows.now }
{
    for (i, row) in rows.iter().enumerate() {
        if holder.is(row.holder) {
            return i;
        }
    }
    rows.len()
}

// Brings a row's list up to date.
fn bring_row_up(row: &mut ShelfRow, log: &SliceLog)
    requires { IsLagging log.now row.old.lag }
    ensures { row.new ≡ with_lag (up_to_date log.now) row.old }
{
    catch_up(&mut row.lag, log);
}

/// Brings a holder's list up to date, where it has one, and leaves all others. Takes no memory.
pub(crate) fn bring_up(rows: &mut Vec<ShelfRow>, log: &SliceLog, holder: Holder)
    requires { AreLagging log.now rows.old.items }
    ensures { rows.new.items ≡ changed_where (is_of holder) (with_lag (up_to_date log.now)) rows.old.items }
{
    let at = place(rows.as_slice(), holder);
    if at >= rows.len() {
        return;
    }
    let row = &mut rows[at];
    bring_row_up(row, log);
}

// Brings a row's list up to date, for a log that begins again.
fn renew_row(row: &mut ShelfRow, log: &SliceLog)
    requires { IsLagging log.now row.old.lag }
    ensures { row.new ≡ with_lag (renewed log.now) row.old }
{
    renew(&mut row.lag, log);
}

/// Brings all lists up to date, for a log that begins again. Takes no memory.
pub(crate) fn renew_all(rows: &mut Vec<ShelfRow>, log: &SliceLog)
    requires { AreLagging log.now rows.old.items }
    ensures { rows.new.items ≡ map (with_lag (renewed log.now)) rows.old.items }
{
    for n in 0..rows.len() {
        let row = &mut rows[n];
        renew_row(row, log);
    }
}

// Takes a row's list through shifts that no log holds.
fn move_row(row: &mut ShelfRow, shifts: &[Shift])
    requires { IsCatchable shifts.now row.old.lag.sels }
    ensures { row.new ≡ with_lag (gone_through shifts.now) row.old }
{
    go_through(&mut row.lag, shifts);
}

/// Takes all lists through shifts that no log holds. Takes no memory.
pub(crate) fn move_all(rows: &mut Vec<ShelfRow>, shifts: &[Shift])
    requires { AreCatchable shifts.now rows.old.items }
    ensures { rows.new.items ≡ map (with_lag (gone_through shifts.now)) rows.old.items }
{
    for n in 0..rows.len() {
        let row = &mut rows[n];
        move_row(row, shifts);
    }
}

// The lesser of two stamps.
fn lesser(a: u64, b: u64) -> u64
    ensures { result ≡ min a b }
{
    if a <= b { a } else { b }
}

/// The least of a stamp and of those at which lists stand.
pub(crate) fn least(rows: &[ShelfRow], stamp: u64) -> u64
    ensures { result ≡ least stamp rows.now }
{
    let mut least = stamp;
    for row in rows {
        least = lesser(least, row.lag.stamp);
    }
    least
}
