//! Keys that change a client's list of selections as a whole.
#![tactic(auto, using(kak_world::proofs::WorldLaws::world_laws))]

ghost use Rattle.std.specs.Prelude.{◌≡◌, ◌≤◌, true, length, IsErrOf};
ghost use Rattle.kak_world.specs.Flat.{acts, sels_of};
ghost use Rattle.kak_world.specs.Rows.{GivesRow};
ghost use Rattle.list_keys.specs.Changes.{change_adds};
ghost use Rattle.normal_keys.specs.Listing.{list_changed};

use kak_world::{Ask, EditError, Turn, World};
use list_keys::{ListChange, changed};
use regex_ports::Pattern;
use selection_set::SelsError;
use std::alloc::Global;

/// Changes a client's list. `NothingSelected` comes where no selection would be left, `TooManySelections` where there
/// would be more than a list may have; they leave the world. For at most four selections, only a change that can add
/// some takes memory.
pub(crate) fn change_list<P: Pattern, T: Turn>(
    alloc: Global,
    world: &mut World<P, T>,
    who: u32,
    change: ListChange,
) -> Result<Ask, EditError>
    requires { acts who world.old.flat ≡ true }
    ensures row { GivesRow result world.new.flat (list_changed change who world.old.flat) }
    ensures wanting { IsErrOf result EditError.NoMemory → world.new.flat ≡ world.old.flat }
    ensures few { length (sels_of who world.old.flat).list ≤ 4 → IsErrOf result EditError.NoMemory → change_adds change ≡ true }
{
    match changed(alloc, world.lines(who), world.sels(who), change) {
        Ok(Some(sels)) => {
            world.set_sels(who, sels);
            Ok(Ask::Nothing)
        }
        Ok(None) => Err(EditError::NothingSelected),
        Err(SelsError::TooMany) => Err(EditError::TooManySelections),
        Err(SelsError::NoMemory) => Err(EditError::NoMemory),
    }
}
