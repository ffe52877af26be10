//! Hooks whose patterns were made.
#![tactic(auto, using(kak_world::proofs::WorldLaws::world_laws))]

ghost use Rattle.std.specs.Prelude.{◌≡◌, IsErrOf};
ghost use Rattle.kak_world.specs.declared.ask.EditError.TheVariants.{NoMemory};
ghost use Rattle.kak_world.specs.Rows.{GivesRow};
ghost use Rattle.command_set.specs.Hooking.{hooked_row};

use kak_world::{Ask, CommandError, EditError, NewHook, Turn, World};
use regex_ports::Pattern;
use scope_tables::{HookRow, TableError};

/// Adds a hook whose pattern was made. `TooManyHooks` leaves the world, and so does want of memory.
pub(crate) fn add_made<P: Pattern, T: Turn>(
    world: &mut World<P, T>,
    new: NewHook,
    pattern: P,
) -> Result<Ask, EditError>
    ensures row { GivesRow result world.new.flat (hooked_row new (P.source pattern) world.old.flat) }
    ensures wanting { IsErrOf result NoMemory → world.new.flat ≡ world.old.flat }
{
    let NewHook {
        scope,
        name,
        group,
        once,
        commands,
    } = new;
    let row = HookRow {
        name,
        pattern,
        group,
        once,
        commands,
    };
    match world.add_hook(scope, row) {
        Ok(()) => Ok(Ask::Nothing),
        Err(TableError::TableFull) => Err(EditError::Command(CommandError::TooManyHooks)),
        Err(TableError::NoMemory) => Err(EditError::NoMemory),
    }
}
