//! Keys that are run as often as a count says.
#![tactic(auto, using(kak_world::proofs::WorldLaws::world_laws))]

ghost use Rattle.std.specs.Prelude.{◌≡◌, ◌≤◌, true, false, None, length, IsOk, IsErrOf};
ghost use Rattle.kak_world.specs.declared.ask.EditError.TheVariants.{NoMemory};
ghost use Rattle.kak_world.specs.Flat.{acts, sels_of};
ghost use Rattle.kak_world.specs.Rows.{Answers, GivesRow};
ghost use Rattle.normal_keys.specs.Running.{runs};
ghost use Rattle.normal_keys.specs.Listing.{main_moved};
ghost use Rattle.normal_keys.specs.Repeating.{node_row, once, repeated_grows};
ghost use Rattle.normal_keys.specs.Wanting.{is_part_of_once, ArePartOfKey};

use crate::actions::Repeated;
use crate::prefixes::Prefix;
use directions::Direction;
use kak_world::{Ask, EditError, Turn, World};
use key_rows::{Each, change_each, put};
use list_keys::main_beside;
use regex_ports::Pattern;
use std::alloc::Global;
use undo_model::Travel;

// Another selection becomes the main one.
fn turn_main<P: Pattern, T: Turn>(world: &mut World<P, T>, who: u32, direction: Direction)
    requires { acts who world.old.flat ≡ true }
    ensures { world.new.flat ≡ main_moved direction who world.old.flat }
{
    let main = main_beside(world.sels(who), direction);
    world.set_main(who, main);
}

// Goes to the node of the undo tree with the next lower or the next higher number.
fn go_to_node<P: Pattern, T: Turn>(
    alloc: Global,
    world: &mut World<P, T>,
    who: u32,
    direction: Direction,
) -> Result<(), EditError>
    requires { acts who world.old.flat ≡ true }
    ensures row { Answers result world.new.flat (node_row direction who world.old.flat) }
    ensures wanting { IsErrOf result NoMemory → is_part_of_once (Repeated.GoesToNode direction) None who world.old.flat world.new.flat }
{
    let node = world.node(who);
    let to = match direction {
        Direction::Forward => node + 1,
        Direction::Backward => {
            if node == 0 {
                return Err(EditError::NoSuchNode);
            }
            node - 1
        }
    };
    world.travel(alloc, who, Travel::Node(to))
}

// Runs a key once.
fn run_once<P: Pattern, T: Turn>(
    alloc: Global,
    world: &mut World<P, T>,
    who: u32,
    register: Option<char>,
    what: Repeated,
) -> Result<(), EditError>
    requires { acts who world.old.flat ≡ true }
    ensures row { Answers result world.new.flat (once what register who world.old.flat) }
    ensures wanting { IsErrOf result NoMemory → is_part_of_once what register who world.old.flat world.new.flat }
    ensures few { repeated_grows what ≡ false → length (sels_of who world.old.flat).list ≤ 4 → IsOk result }
{
    match what {
        Repeated::Moves(motion, reach) => {
            change_each(alloc, world, who, Each::Moved(motion, reach))?;
            Ok(())
        }
        Repeated::TurnsMain(direction) => {
            turn_main(world, who, direction);
            Ok(())
        }
        Repeated::Travels(travel) => world.travel(alloc, who, travel),
        Repeated::GoesToNode(direction) => go_to_node(alloc, world, who, direction),
        Repeated::Puts(how) => put(alloc, world, who, register, how),
    }
}

/// Runs a key of a client as often as a count says, and once without one, up to the first run that fails. Each further run
/// takes a unit. `BudgetSpent` comes where none is left for the next one. What can't change the text or add selections takes no
/// memory for at most four.
pub(crate) fn run_often<P: Pattern, T: Turn>(
    alloc: Global,
    world: &mut World<P, T>,
    who: u32,
    prefix: Prefix,
    what: Repeated,
) -> Result<Ask, EditError>
    requires { acts who world.old.flat ≡ true }
    ensures row { GivesRow result world.new.flat (runs prefix.count (once what prefix.register who) world.old.flat) }
    ensures wanting { IsErrOf result NoMemory → ArePartOfKey what prefix.count prefix.register who world.old.flat world.new.flat }
    ensures few { repeated_grows what ≡ false → length (sels_of who world.old.flat).list ≤ 4 → ¬ IsErrOf result EditError.NoMemory }
{
    run_once(alloc, world, who, prefix.register, what)?;
    for _ in 1..prefix.count {
        if !world.take_unit() {
            return Err(EditError::BudgetSpent);
        }
        run_once(alloc, world, who, prefix.register, what)?;
    }
    Ok(Ask::Nothing)
}
