//! Items taken out of a row, and put into it.

ghost use Rattle.std.specs.Prelude.{◌≡◌, ◌+◌, ◌-◌, ◌≤◌, ◌++◌, length, take, drop, OnOk, OnErr};

use smallvec::SmallVec;
use std::alloc::{AllocError, Global};
use std::default::MadeWith;

/// How many items behind a change of a row wait in a room beside it; where there are more, they are turned round.
pub const NEAR: usize = 32;

// Moves so many items from a place on behind the others.
fn turn_left<T>(row: &mut [T], from: usize, some: usize)
    requires { from + some ≤ length row.old }
    ensures { row.new ≡ take from row.old ++ (drop some (drop from row.old) ++ take some (drop from row.old)) }
{
    row[from..].rotate_left(some);
}

/// Takes the items from a place to before another out; takes no memory. It costs them and what stands behind.
pub fn cut_out<T: MadeWith<Global> + Copy, const N: usize>(
    row: &mut SmallVec<T, N>,
    from: usize,
    to: usize,
    room: &mut [T],
)
    requires room { NEAR ≤ length room.old }
    requires ordered { from ≤ to }
    requires inside { to ≤ length row.old.items }
    ensures { row.new.items ≡ take from row.old.items ++ drop to row.old.items }
{
    let left = row.len() - (to - from);
    close_up(row.as_mut_slice(), from, to, room);
    row.truncate(left);
}

// Lets what stands behind a place follow what stands before another; what the row ends in then is of no use.
fn close_up<T: Copy>(row: &mut [T], from: usize, to: usize, room: &mut [T])
    requires room { NEAR ≤ length room.old }
    requires ordered { from ≤ to }
    requires inside { to ≤ length row.old }
    ensures left { take (length row.old - (to - from)) row.new ≡ take from row.old ++ drop to row.old }
    ensures len { length row.new ≡ length row.old }
{
    if row.len() - to > NEAR {
        turn_left(row, from, to - from);
        return;
    }
    let behind = row.len() - to;
    keep(room, &row[to..]);
    lay(row, from, &room[..behind]);
}

/// Puts items in at a place. It costs them and what stands behind. After an error the row is as it was.
pub fn put_in<T: MadeWith<Global> + Copy, const N: usize>(
    row: &mut SmallVec<T, N>,
    at: usize,
    items: &[T],
    room: &mut [T],
) -> Result<(), AllocError>
    requires room { NEAR ≤ length room.old }
    requires inside { at ≤ length row.old.items }
    ensures ok { OnOk result (row.new.items ≡ take at row.old.items ++ (items.now ++ drop at row.old.items)) }
    ensures err { OnErr result (row.new.items ≡ row.old.items) }
{
    if row.len() - at > NEAR {
        return row.insert_from_slice(at, items);
    }
    row.extend_from_slice(items)?;
    open_up(row.as_mut_slice(), at, items, room);
    Ok(())
}

/// Puts other items in the place of those from one on. It costs them alone. After an error the row is as it was.
pub fn end_with<T: MadeWith<Global> + Copy, const N: usize>(
    row: &mut SmallVec<T, N>,
    at: usize,
    end: &[T],
) -> Result<(), AllocError>
    requires { at ≤ length row.old.items }
    ensures ok { OnOk result (row.new.items ≡ take at row.old.items ++ end.now) }
    ensures err { OnErr result (row.new.items ≡ row.old.items) }
{
    let gone = row.len() - at;
    row.reserve(end.len().saturating_sub(gone))?;
    row.truncate(at);
    row.extend_from_slice(end)
}

// Lays items on a place, and behind them the few that stood there, up to as many as the row has more places than
// the items need.
fn open_up<T: Copy>(row: &mut [T], at: usize, items: &[T], room: &mut [T])
    requires room { NEAR ≤ length room.old }
    requires places { at + length items.now ≤ length row.old }
    requires near { length row.old ≤ at + length items.now + NEAR }
    ensures { row.new ≡ take at row.old ++ (items.now ++ take (length row.old - (at + length items.now)) (drop at row.old)) }
{
    let behind = row.len() - at - items.len();
    keep(room, &row[at..at + behind]);
    lay_both(row, at, items, &room[..behind]);
}

// Lays items on a place, and others behind them up to the end.
fn lay_both<T: Copy>(row: &mut [T], at: usize, first: &[T], second: &[T])
    requires { at + length first.now + length second.now ≡ length row.old }
    ensures { row.new ≡ take at row.old ++ (first.now ++ second.now) }
{
    lay(row, at, first);
    lay(row, at + first.len(), second);
}

// Copies items to the begin of a room for them.
fn keep<T: Copy>(room: &mut [T], items: &[T])
    requires { length items.now ≤ length room.old }
    ensures { take (length items.now) room.new ≡ items.now }
{
    room[..items.len()].copy_from_slice(items);
}

// Copies items over those at a place.
fn lay<T: Copy>(row: &mut [T], at: usize, items: &[T])
    requires { at + length items.now ≤ length row.old }
    ensures { row.new ≡ take at row.old ++ (items.now ++ drop (at + length items.now) row.old) }
{
    row[at..at + items.len()].copy_from_slice(items);
}
