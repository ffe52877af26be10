//! Selections that are few enough, as a list.

ghost use Rattle.std.specs.Prelude.{ℕ, ◌<◌, ◌≤◌, List, length, IfOk};
ghost use Rattle.text_model.specs.declared.TheConstants.{MAX_SELECTIONS};
ghost use Rattle.selection_set.specs.Listing.{AreInside, ranges_of, IsSettledIn};

use selection_set::{Sel, Sels, SelsError};
use smallvec::SmallVec;
use std::alloc::{AllocError, Global};

/// The settled list of some selections, of which the one at `main` is the main one.
pub(crate) fn settled(
    alloc: Global,
    list: SmallVec<Sel, 4>,
    main: usize,
) -> Result<Sels, AllocError>
    requires main { main < length list.items }
    requires few { length list.items ≤ MAX_SELECTIONS }
    ensures { IfOk result (λ s. (text : List ℕ) → AreInside text list.items → IsSettledIn text (ranges_of text list.items) main s) }
{
    match Sels::of_vec(alloc, list, main) {
        Ok(sels) => Ok(sels),
        Err(SelsError::NoMemory) => Err(AllocError),
        Err(SelsError::TooMany) => unreachable!(),
    }
}
