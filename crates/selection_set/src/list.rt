//! A list of selections, one of which is the main one.

ghost use Rattle.std.specs.Prelude.{◌≡◌, ℕ, ◌+◌, ◌<◌, ◌≤◌, List, length, take, slice_set, slice_index_or, IfOk, IsOk};
ghost use Rattle.selection_set.specs.Sweeping.{joined_sel, swept_sels, swept_sels_place};

use crate::sel::Sel;
use smallvec::SmallVec;
use std::alloc::{AllocError, Global};
use std::marker::Model;

/// Selections, and which of them is the main one. There is one at least, and there are at most `MAX_SELECTIONS`.
#[derive(Drop, Debug)]
pub struct Sels {
    list: SmallVec<Sel, 4>,
    main: usize,
}

impl Model for Sels {
    ghost use Rattle.selection_set.specs.Listing.{Listed, IsList};

    ghost Value = { Listed };

    ghost view = { λ a. record { list = a.list.items; main = a.main } };

    ghost invariant = { λ a. IsList a.list.items a.main };
}

impl Sels {
    ghost use Rattle.std.specs.Prelude.{◌≡◌, ℕ, ◌<◌, ◌≤◌, List, [], ◌∷◌, length, slice_set, slice_index_or, IfOk, IsOk};
    ghost use Rattle.selection_set.specs.Listing.{IsList, AreInside, ranges_of, LowsDontFall, IsSettledIn};
    ghost use Rattle.selection_set.specs.Sweeping.{swept_listed};

    // The list of these selections.
    pub(crate) fn of_list(list: SmallVec<Sel, 4>, main: usize) -> Sels
        requires { IsList list.items main }
        ensures { result ≡ record { list = list.items; main = main } }
    {
        Sels { list, main }
    }

    /// The list of one selection. Takes no memory.
    pub fn one(alloc: Global, sel: Sel) -> Sels
        ensures { result ≡ record { list = sel ∷ []; main = 0 } }
    {
        let mut list = SmallVec::new(alloc);
        list.push_reserved(sel);
        Sels::of_list(list, 0)
    }

    /// The selections.
    pub fn as_slice(&self) -> &[Sel]
        ensures value { result.now ≡ self.now.list }
        ensures valid { IsList self.now.list self.now.main }
    {
        self.list.as_slice()
    }

    /// How many selections there are.
    pub fn len(&self) -> usize
        ensures value { result ≡ length self.now.list }
        ensures valid { IsList self.now.list self.now.main }
    {
        self.list.len()
    }

    /// The place of the main one.
    pub fn main(&self) -> usize
        ensures value { result ≡ self.now.main }
        ensures valid { IsList self.now.list self.now.main }
    {
        self.main
    }

    /// The n-th one, from 0.
    pub fn at(&self, n: usize) -> Sel
        requires { n < length self.now.list }
        ensures { (d : Sel) → result ≡ slice_index_or self.now.list n d }
    {
        self.list[n]
    }

    /// Puts a selection in the place of the n-th one.
    pub fn put(&mut self, n: usize, sel: Sel)
        requires { n < length self.old.list }
        ensures { self.new ≡ record { list = slice_set self.old.list n sel; main = self.old.main } }
    {
        self.list[n] = sel;
    }

    /// Makes the n-th one the main one.
    pub fn set_main(&mut self, n: usize)
        requires { n < length self.old.list }
        ensures { self.new ≡ record { list = self.old.list; main = n } }
    {
        self.main = n;
    }

    /// Settles the list, in which no selection begins before an earlier one: those that share characters become one, with
    /// the flag and the target of the first, and those that only touch stay apart. The main one is the one that holds the
    /// former main one. Takes no memory.
    pub fn settle(&mut self)
        ensures pass { self.new ≡ swept_listed self.old }
        ensures settles { (text : List ℕ) → AreInside text self.old.list → LowsDontFall (ranges_of text self.old.list) → IsSettledIn text (ranges_of text self.old.list) self.old.main self.new }
    {
        let (kept, main) = sweep_slice(self.list.as_mut_slice(), self.main);
        self.list.truncate(kept);
        self.main = main;
    }

    /// A copy. Takes no memory for at most four selections.
    pub fn copy(&self, alloc: Global) -> Result<Sels, AllocError>
        ensures ok { IfOk result (λ s. s ≡ self.now) }
        ensures few { length self.now.list ≤ 4 → IsOk result }
    {
        Ok(Sels {
            list: SmallVec::from_slice(alloc, self.list.as_slice())?,
            main: self.main,
        })
    }
}

// A selection with the characters of a later one.
fn joined(a: Sel, b: Sel) -> Sel
    ensures { result ≡ joined_sel a b }
{
    let high = if a.high.is_at_most(b.high) {
        b.high
    } else {
        a.high
    };
    Sel {
        low: a.low,
        high,
        turned: a.turned,
        target: a.target,
    }
}

// Joins the neighbours of a list in order, whose selections are moved to its front: how many there are then, and the
// place of the main one.
fn sweep_slice(list: &mut [Sel], main: usize) -> (usize, usize)
    requires { main < length list.old }
    ensures list { take result.0 list.new ≡ swept_sels list.old }
    ensures main { result.1 ≡ swept_sels_place list.old main }
{
    let mut current = list[0];
    let mut at = 0;
    let mut place = 0;
    for i in 1..list.len() {
        let next = list[i];
        if next.low.is_at_most(current.high) {
            current = joined(current, next);
        } else {
            list[at] = current;
            at += 1;
            current = next;
        }
        if i <= main {
            place = at;
        }
    }
    list[at] = current;
    (at + 1, place)
}
