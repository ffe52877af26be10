//! Two settled lists joined to one.

ghost use Rattle.std.specs.Prelude.{◌≡◌, ℕ, ◌+◌, ◌<◌, ◌≤◌, List, ◌++◌, length, IfOk, IsOk};
ghost use Rattle.std.specs.List.{AllByRecursion};
ghost use Rattle.smallvec.specs.SmallVec.{HasRoomFor};
ghost use Rattle.text_model.specs.declared.TheConstants.{MAX_SELECTIONS};
ghost use Rattle.list_model.specs.Ranges.{Range};
ghost use Rattle.selection_set.specs.Listing.{AreInside, ranges_of, IsSettledIn};
ghost use Rattle.move_marks.specs.Joining.{in_one, count_ahead, IsPlain};

use selection_set::{Sel, Sels, SelsError};
use smallvec::SmallVec;
use std::alloc::{AllocError, Global};
use text_model::Coord;

/// Two lists of a text, each settled from some ranges, as the list that is settled from all of these. Its main one is
/// the one that holds the main one of the second list. Costs both lists once.
pub(crate) fn both(alloc: Global, first: &Sels, second: &Sels) -> Result<Sels, AllocError>
    requires { length first.now.list + length second.now.list ≤ MAX_SELECTIONS }
    ensures settles { IfOk result (λ s. (text : List ℕ) (xs zs : List Range) (m n : ℕ) → AllByRecursion IsPlain xs → AllByRecursion IsPlain zs
        → IsSettledIn text xs m first.now → IsSettledIn text zs n second.now → IsSettledIn text (xs ++ zs) (length xs + n) s) }
    ensures few { length first.now.list + length second.now.list ≤ 4 → IsOk result }
{
    let main = second.at(second.main());
    let place = second.main() + count_ahead(first.as_slice(), main.low);
    let list = in_one(alloc, first.as_slice(), second.as_slice())?;
    settled(alloc, list, place)
}

/// The settled list of some selections that are few enough.
pub(crate) fn settled(
    alloc: Global,
    list: SmallVec<Sel, 4>,
    main: usize,
) -> Result<Sels, AllocError>
    requires main { main < length list.items }
    requires few { length list.items ≤ MAX_SELECTIONS }
    ensures settles { IfOk result (λ s. (text : List ℕ) → AreInside text list.items → IsSettledIn text (ranges_of text list.items) main s) }
    ensures few { length list.items ≤ 4 → IsOk result }
{
    match Sels::of_vec(alloc, list, main) {
        Ok(sels) => Ok(sels),
        Err(SelsError::NoMemory) => Err(AllocError),
        Err(SelsError::TooMany) => unreachable!(),
    }
}

// How many of the first selections of a list begin at a place or before it.
fn count_ahead(list: &[Sel], low: Coord) -> usize
    ensures value { result ≡ count_ahead low list.now }
    ensures few { result ≤ length list.now }
{
    let mut n = 0;
    while n < list.len() {
        if !list[n].low.is_at_most(low) {
            return n;
        }
        n += 1;
    }
    n
}

// The selections of two lists in order as one list in order.
fn in_one(alloc: Global, first: &[Sel], second: &[Sel]) -> Result<SmallVec<Sel, 4>, AllocError>
    requires { length first.now + length second.now ≤ MAX_SELECTIONS }
    ensures ok { IfOk result (λ list. list.items ≡ in_one first.now second.now) }
    ensures few { length first.now + length second.now ≤ 4 → IsOk result }
{
    let mut list = SmallVec::with_capacity(alloc, first.len() + second.len())?;
    let mut i = 0;
    let mut j = 0;
    while i < first.len() && j < second.len() {
        if first[i].low.is_at_most(second[j].low) {
            list.push_reserved(first[i]);
            i += 1;
            continue;
        }
        list.push_reserved(second[j]);
        j += 1;
    }
    push_all(&mut list, &first[i..]);
    push_all(&mut list, &second[j..]);
    Ok(list)
}

// Puts selections behind a list that has room for them.
fn push_all(list: &mut SmallVec<Sel, 4>, more: &[Sel])
    requires { HasRoomFor list.old (length more.now) }
    ensures items { list.new.items ≡ list.old.items ++ more.now }
    ensures capacity { list.new.capacity ≡ list.old.capacity }
{
    for sel in more {
        list.push_reserved(*sel);
    }
}
