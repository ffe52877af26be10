//! Edits that leave their client the list of what was put in.
#![tactic(auto, using(kak_world::proofs::WorldLaws::world_laws))]

ghost use Rattle.std.specs.Prelude.{◌≡◌, true, length, IsErrOf};
ghost use Rattle.buffer_store.specs.Buffers.{AreSplicesOf, flat_splices, changes_of};
ghost use Rattle.kak_world.specs.declared.ask.EditError.TheVariants.{NoMemory};
ghost use Rattle.kak_world.specs.Changing.{IsAfterSomeChanges};
ghost use Rattle.kak_world.specs.Flat.{acts, text_of, sels_of};
ghost use Rattle.kak_world.specs.Rows.{Answers};
ghost use Rattle.key_rows.specs.Edits.{leaving_row};

use buffer_store::Splice;
use edit_ops::left_list;
use kak_world::{EditError, Turn, World};
use regex_ports::Pattern;
use std::alloc::Global;

/// Makes a client's replacements in the text that it sees, one for each of its selections: its list is then what was put in
/// for them. `UndoFull` and `TextFull` leave the world; after want of memory it is as it is behind some of the single changes,
/// from the first on, with all lists moved along.
#[tactic(auto, using(kak_world::proofs::WorldLaws::world_laws), unfolding(crate::specs::Edits::leaving_row))]
pub fn edit_leaving<P: Pattern, T: Turn>(
    alloc: Global,
    world: &mut World<P, T>,
    who: u32,
    splices: &[Splice],
) -> Result<(), EditError>
    requires acts { acts who world.old.flat ≡ true }
    requires splices { AreSplicesOf (text_of who world.old.flat) splices.now }
    requires one_each { length splices.now ≡ length (sels_of who world.old.flat).list }
    ensures row { Answers result world.new.flat (leaving_row (flat_splices (text_of who world.old.flat) splices.now) who world.old.flat) }
    ensures wanting { IsErrOf result NoMemory → IsAfterSomeChanges who (changes_of (text_of who world.old.flat) splices.now) world.old.flat world.new.flat }
{
    let main = world.sels(who).main();
    let last = world.lines(who).last_place();
    let shifts = world.edit(alloc, who, splices)?;
    let sels = left_list(alloc, last, main, splices, shifts.as_slice())?;
    world.set_sels(who, sels);
    Ok(())
}
