//! Lists of selections through one change.

ghost use Rattle.std.specs.Prelude.{ℕ, List, map};
ghost use Rattle.text_model.specs.Changes.{Move};
ghost use Rattle.text_model.specs.Mapping.{shifted};
ghost use Rattle.list_model.specs.Settling.{carried};
ghost use Rattle.selection_set.specs.Listing.{AreInside, ranges_of, LowsDontFall, IsSettledIn};
ghost use Rattle.selection_map.specs.Carrying.{IsShiftStep, AllSmall};

use crate::carrying::map_sel;
use selection_set::Sels;
use text_model::Shift;

/// Where a list of selections, in which none begins before an earlier one, goes when its text is changed: each of them
/// goes as `map_sel` says, and then the list is settled. The main one is the one that holds the former main one. Takes
/// no memory.
pub fn map_sels(sels: &mut Sels, shift: &Shift)
    requires { AllSmall sels.old.list shift.now }
    ensures settles { (old new : List ℕ) (m : Move) → IsShiftStep old new shift.now m → AreInside old sels.old.list → LowsDontFall (ranges_of old sels.old.list)
        → IsSettledIn new (map (carried (shifted m)) (ranges_of old sels.old.list)) sels.old.main sels.new }
{
    for n in 0..sels.len() {
        let moved = map_sel(sels.at(n), shift);
        sels.put(n, moved);
    }
    sels.settle();
}
