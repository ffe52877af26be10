//! Lists of selections made of selections in any order.

ghost use Rattle.std.specs.Prelude.{◌≡◌, ℕ, ◌<◌, ◌≤◌, ◌↔◌, List, length, map, IfOk, IsOk, IsErrOf};
ghost use Rattle.std.specs.List.{AllByRecursion};
ghost use Rattle.text_model.specs.declared.TheConstants.{MAX_SELECTIONS};
ghost use Rattle.selection_set.specs.Listing.{AreInside, ranges_of, LowsDontFall, IsSettledIn, IsPairInside, range_of_pair, sel_of_pair};
ghost use Rattle.selection_set.specs.declared.making.SelsError.TheVariants.{NoMemory};

use crate::list::Sels;
use crate::order::{is_in_order, place_of, put_back, sort, with_numbers};
use crate::sel::{Pair, Sel};
use smallvec::SmallVec;
use std::alloc::{AllocError, Global};
use text_model::MAX_SELECTIONS;
use thiserror::Error;

/// Why no list was made.
#[derive(Clone, Copy, PartialEq, Eq, Debug, Error)]
pub enum SelsError {
    /// Memory ran out.
    #[error("out of memory")]
    NoMemory,
    /// More than `MAX_SELECTIONS` were given.
    #[error("too many selections")]
    TooMany,
}

impl From<AllocError> for SelsError {
    ghost from_gives = { λ _ e. e ≡ NoMemory };

    fn from(_e: AllocError) -> SelsError {
        SelsError::NoMemory
    }
}

impl Sels {
    /// The settled list of selections in any order, of which the one at `main` is the main one. They are ordered by
    /// their first characters, and where these are the same, by their places in the list; those that share characters
    /// become one, with the flag and the target of the first, and those that only touch stay apart. The main one is
    /// the one that holds the former main one. `TooMany` comes exactly where more than `MAX_SELECTIONS` are given.
    ///
    /// The vector that is given becomes the list. Where no selection in it begins before an earlier one, that takes no
    /// memory and one pass, and the answer is Ok; else so many numbers are sorted along. At most four never take memory.
    pub fn of_vec(alloc: Global, list: SmallVec<Sel, 4>, main: usize) -> Result<Sels, SelsError>
        requires { main < length list.items }
        ensures settles { IfOk result (λ s. (text : List ℕ) → AreInside text list.items → IsSettledIn text (ranges_of text list.items) main s) }
        ensures too_many { IsErrOf result SelsError.TooMany ↔ (MAX_SELECTIONS < length list.items) }
        ensures few { length list.items ≤ 4 → IsOk result }
        ensures in_order { (text : List ℕ) → AreInside text list.items → LowsDontFall (ranges_of text list.items) → length list.items ≤ MAX_SELECTIONS → IsOk result }
    {
        if list.len() > MAX_SELECTIONS {
            return Err(SelsError::TooMany);
        }
        Ok(settled(alloc, list, main)?)
    }

    /// The same for a slice, which is copied.
    pub fn of_sels(alloc: Global, list: &[Sel], main: usize) -> Result<Sels, SelsError>
        requires { main < length list.now }
        ensures settles { IfOk result (λ s. (text : List ℕ) → AreInside text list.now → IsSettledIn text (ranges_of text list.now) main s) }
        ensures too_many { IsErrOf result SelsError.TooMany ↔ (MAX_SELECTIONS < length list.now) }
        ensures few { length list.now ≤ 4 → IsOk result }
    {
        if list.len() > MAX_SELECTIONS {
            return Err(SelsError::TooMany);
        }
        Sels::of_vec(alloc, SmallVec::from_slice(alloc, list)?, main)
    }

    /// The same for selections that are given by their two ends.
    pub fn of_pairs(alloc: Global, pairs: &[Pair], main: usize) -> Result<Sels, SelsError>
        requires { main < length pairs.now }
        ensures settles { IfOk result (λ s. (text : List ℕ) → AllByRecursion (IsPairInside text) pairs.now → IsSettledIn text (map (range_of_pair text) pairs.now) main s) }
        ensures too_many { IsErrOf result SelsError.TooMany ↔ (MAX_SELECTIONS < length pairs.now) }
        ensures few { length pairs.now ≤ 4 → IsOk result }
    {
        if pairs.len() > MAX_SELECTIONS {
            return Err(SelsError::TooMany);
        }
        Sels::of_vec(alloc, sels_of(alloc, pairs)?, main)
    }
}

// The selections between two ends.
fn sels_of(alloc: Global, pairs: &[Pair]) -> Result<SmallVec<Sel, 4>, AllocError>
    ensures ok { IfOk result (λ list. list.items ≡ map sel_of_pair pairs.now) }
    ensures few { length pairs.now ≤ 4 → IsOk result }
{
    let mut list = SmallVec::with_capacity(alloc, pairs.len())?;
    for pair in pairs {
        list.push_reserved(Sel::of_pair(*pair));
    }
    Ok(list)
}

// The settled list of no more selections than are allowed.
fn settled(alloc: Global, list: SmallVec<Sel, 4>, main: usize) -> Result<Sels, AllocError>
    requires main { main < length list.items }
    requires few { length list.items ≤ MAX_SELECTIONS }
    ensures settles { IfOk result (λ s. (text : List ℕ) → AreInside text list.items → IsSettledIn text (ranges_of text list.items) main s) }
    ensures few { length list.items ≤ 4 → IsOk result }
    ensures in_order { (text : List ℕ) → AreInside text list.items → LowsDontFall (ranges_of text list.items) → IsOk result }
{
    if !is_in_order(list.as_slice()) {
        return reordered(alloc, list, main);
    }
    let mut sels = Sels::of_list(list, main);
    sels.settle();
    Ok(sels)
}

// The same, where some selection may begin before an earlier one.
fn reordered(alloc: Global, list: SmallVec<Sel, 4>, main: usize) -> Result<Sels, AllocError>
    requires main { main < length list.items }
    requires few { length list.items ≤ MAX_SELECTIONS }
    ensures settles { IfOk result (λ s. (text : List ℕ) → AreInside text list.items → IsSettledIn text (ranges_of text list.items) main s) }
    ensures few { length list.items ≤ 4 → IsOk result }
{
    let mut list = list;
    let mut all = with_numbers(alloc, list.as_slice())?;
    sort(&mut all);
    let place = place_of(all.as_slice(), main as u32).unwrap_or(0);
    put_back(list.as_mut_slice(), all.as_slice());
    let mut sels = Sels::of_list(list, place);
    sels.settle();
    Ok(sels)
}
