//! What a command selects.
#![tactic(auto, using(kak_world::proofs::WorldLaws::world_laws))]

ghost use Rattle.std.specs.Prelude.{◌≡◌, ◌<◌, true, length, IsErrOf};
ghost use Rattle.kak_world.specs.declared.ask.EditError.TheVariants.{NoMemory};
ghost use Rattle.kak_world.specs.Flat.{acts};
ghost use Rattle.kak_world.specs.Rows.{Answers};
ghost use Rattle.command_set.specs.Selecting.{described_selected, select_row};

use command_forms::{Columns, Described, Selection};
use kak_world::{EditError, Turn, World};
use regex_ports::Pattern;
use selection_set::SelsError;
use selection_texts::list_meant;
use std::alloc::Global;

// Selects what is described, of which there is something.
fn select_described<P: Pattern, T: Turn>(
    alloc: Global,
    world: &mut World<P, T>,
    who: u32,
    columns: Columns,
    described: &[Described],
) -> Result<(), EditError>
    requires acts { acts who world.old.flat ≡ true }
    requires some { 0 < length described.now }
    ensures row { Answers result world.new.flat (described_selected columns described.now who world.old.flat) }
    ensures wanting { IsErrOf result NoMemory → world.new.flat ≡ world.old.flat }
{
    match list_meant(alloc, world.lines(who), columns, described) {
        Ok(sels) => {
            world.set_sels(who, sels);
            Ok(())
        }
        Err(SelsError::TooMany) => Err(EditError::TooManySelections),
        Err(SelsError::NoMemory) => Err(EditError::NoMemory),
    }
}

/// Selects what is described. `TooManySelections` and want of memory leave the world.
pub(crate) fn select<P: Pattern, T: Turn>(
    alloc: Global,
    world: &mut World<P, T>,
    who: u32,
    selection: &Selection,
) -> Result<(), EditError>
    requires { acts who world.old.flat ≡ true }
    ensures row { Answers result world.new.flat (select_row selection.now who world.old.flat) }
    ensures wanting { IsErrOf result NoMemory → world.new.flat ≡ world.old.flat }
{
    let described = selection.ranges.as_slice();
    if described.is_empty() {
        return Ok(());
    }
    select_described(alloc, world, who, selection.columns, described)
}
