//! Selections in any order put into order by their first characters, and where these are the same, by their places in
//! the list. The sort takes no memory, so it isn't a stable one: the places are numbers that go along.

ghost use Rattle.std.specs.Prelude.{◌≡◌, ◌≤◌, ◌<◌, ◌^◌, ◌==◌, false, None, length, map, IfOk, IsOk};
ghost use Rattle.std.specs.List.{All, position};
ghost use Rattle.std.specs.List.Sorted.{IsPermutation, IsNonDecreasingBy};
ghost use Rattle.selection_set.specs.Numbering.{numbered_from, rank, HasSmallNumbers, in_order};

use crate::sel::Sel;
use smallvec::SmallVec;
use std::alloc::{AllocError, Global};
use text_model::Coord;

/// A selection, and the number of its place in a list.
#[derive(Clone, Copy, Debug)]
pub(crate) struct Numbered {
    pub(crate) sel: Sel,
    pub(crate) number: u32,
}

impl Default for Numbered {
    ghost is_default = { λ n. n ≡ record { sel = record { low = record { line = 0; column = 0 }; high = record { line = 0; column = 0 }; turned = false; target = None }; number = 0 } };

    fn default() -> Numbered {
        Numbered {
            sel: Sel::default(),
            number: 0,
        }
    }
}

// A selection with a number.
fn numbered_sel(sel: Sel, number: u32) -> Numbered
    ensures value { result ≡ record { sel = sel; number = number } }
    ensures small { HasSmallNumbers result }
{
    Numbered { sel, number }
}

/// The selections of a list with the numbers of their places. Takes no memory for at most four.
pub(crate) fn with_numbers(alloc: Global, list: &[Sel]) -> Result<SmallVec<Numbered, 4>, AllocError>
    requires { length list.now < 2 ^ 32 }
    ensures ok { IfOk result (λ all. all.items ≡ numbered_from 0 list.now) }
    ensures small { IfOk result (λ all. All HasSmallNumbers all.items) }
    ensures few { length list.now ≤ 4 → IsOk result }
{
    let mut all = SmallVec::with_capacity(alloc, list.len())?;
    for (i, sel) in list.iter().enumerate() {
        all.push_reserved(numbered_sel(*sel, i as u32));
    }
    Ok(all)
}

// One number for a first character and a place: the line, then the column, then the place.
fn rank_of(low: Coord, number: u32) -> u128
    ensures { result ≡ rank (record { sel = record { low = low; high = low; turned = false; target = None }; number = number }) }
{
    ((low.line as u128) * 4_294_967_296 + low.column as u128) * 4_294_967_296 + number as u128
}

/// Puts them into order.
pub(crate) fn sort(all: &mut SmallVec<Numbered, 4>)
    ensures permutation { IsPermutation all.old.items all.new.items }
    ensures order { IsNonDecreasingBy rank all.new.items }
{
    all.sort_unstable_by_key(|n| rank_of(n.sel.low, n.number));
}

/// The place of the one with a number.
pub(crate) fn place_of(all: &[Numbered], number: u32) -> Option<usize>
    ensures { result ≡ position (λ n. n.number == number) all.now }
{
    all.iter().position(|n| n.number == number)
}

/// Puts the selections alone into a list of as many.
pub(crate) fn put_back(list: &mut [Sel], all: &[Numbered])
    requires { length all.now ≡ length list.old }
    ensures { list.new ≡ map (λ n. n.sel) all.now }
{
    for (i, n) in all.iter().enumerate() {
        list[i] = n.sel;
    }
}

/// Whether no selection begins before the one in front of it.
pub(crate) fn is_in_order(list: &[Sel]) -> bool
    ensures { result ≡ in_order list.now }
{
    for i in 1..list.len() {
        if !list[i - 1].low.is_at_most(list[i].low) {
            return false;
        }
    }
    true
}
