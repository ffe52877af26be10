//! What keys do to the texts of a client's selections.
#![tactic(auto, using(kak_world::proofs::WorldLaws::world_laws))]

ghost use Rattle.std.specs.Prelude.{◌≡◌, true, None, IfOk, IfErr, IsErrOf};
ghost use Rattle.kak_world.specs.declared.ask.EditError.TheVariants.{NoMemory};
ghost use Rattle.kak_world.specs.Flat.{acts};
ghost use Rattle.kak_world.specs.Rows.{Answers};
ghost use Rattle.key_rows.specs.Handing.{AreAlignments, IsUnaligned};
ghost use Rattle.key_rows.specs.Edits.{erase_row, open_row, rotate_row, indent_row, join_row, align_row, fill_row, cut_row, put_row, edit_done};
ghost use Rattle.key_rows.specs.declared.entries.InsertEntry.TheVariants.{Open};
ghost use Rattle.key_rows.specs.Wanting.{IsPartOfPut, IsPartOfFill, IsPartOfEdit, IsPartOfPlace};

use crate::leaving::edit_leaving;
use crate::reading::{is_stored, keep, register_puts, used};
use buffer_store::Splice;
use directions::Direction;
use edit_ops::{AlignError, Erase, Indent, Put};
use kak_world::{EditError, Turn, World};
use regex_ports::Pattern;
use std::alloc::Global;

/// What is done once to the texts of the selections.
#[derive(Clone, Copy, PartialEq, Eq, Debug)]
pub enum Edit {
    /// A register keeps them, and they are erased.
    Cut,
    /// They are erased.
    Erase,
    /// A register keeps them.
    Keep,
    /// The n-th string of a register takes the place of the n-th.
    Replace,
    /// They go round.
    Rotate(Direction),
    /// Their lines get blanks at their start, or lose them.
    Indent(Indent),
    /// Their lines are joined.
    Join,
    /// Their cursors are brought to one display column.
    Align,
}

/// Erases at each selection of a client. `UndoFull` and `TextFull` leave the world.
pub fn erase<P: Pattern, T: Turn>(
    alloc: Global,
    world: &mut World<P, T>,
    who: u32,
) -> Result<(), EditError>
    requires { acts who world.old.flat ≡ true }
    ensures row { Answers result world.new.flat (erase_row who world.old.flat) }
    ensures wanting { IsErrOf result NoMemory → IsPartOfEdit Edit.Erase None who world.old.flat world.new.flat }
{
    let splices = edit_ops::erase(alloc, world.lines(who), world.sels(who), Erase::Selection)?;
    edit_leaving(alloc, world, who, splices.as_slice())
}

/// Opens a line below or above each selection of a client. `UndoFull` and `TextFull` leave the world.
pub(crate) fn open<P: Pattern, T: Turn>(
    alloc: Global,
    world: &mut World<P, T>,
    who: u32,
    direction: Direction,
) -> Result<(), EditError>
    requires { acts who world.old.flat ≡ true }
    ensures row { Answers result world.new.flat (open_row direction who world.old.flat) }
    ensures wanting { IsErrOf result NoMemory → IsPartOfPlace (Open direction) None who world.old.flat world.new.flat }
{
    let splices = edit_ops::open(alloc, world.lines(who), world.sels(who), direction)?;
    edit_leaving(alloc, world, who, splices.as_slice())
}

// Lets the texts of a client's selections go round.
fn rotate<P: Pattern, T: Turn>(
    alloc: Global,
    world: &mut World<P, T>,
    who: u32,
    direction: Direction,
) -> Result<(), EditError>
    requires { acts who world.old.flat ≡ true }
    ensures row { Answers result world.new.flat (rotate_row direction who world.old.flat) }
    ensures wanting { IsErrOf result NoMemory → IsPartOfEdit (Edit.Rotate direction) None who world.old.flat world.new.flat }
{
    let splices = edit_ops::rotate(alloc, world.lines(who), world.sels(who), direction)?;
    edit_leaving(alloc, world, who, splices.as_slice())
}

/// Puts a character in the place of each one in the selections of a client. `UndoFull` and `TextFull` leave the world.
pub fn fill<P: Pattern, T: Turn>(
    alloc: Global,
    world: &mut World<P, T>,
    who: u32,
    c: char,
) -> Result<(), EditError>
    requires { acts who world.old.flat ≡ true }
    ensures row { Answers result world.new.flat (fill_row c who world.old.flat) }
    ensures wanting { IsErrOf result NoMemory → IsPartOfFill c who world.old.flat world.new.flat }
{
    let splices = edit_ops::fill(alloc, world.lines(who), world.sels(who), c)?;
    edit_leaving(alloc, world, who, splices.as_slice())
}

// Indents the lines that a client's selections touch, or less so.
fn indent<P: Pattern, T: Turn>(
    alloc: Global,
    world: &mut World<P, T>,
    who: u32,
    how: Indent,
) -> Result<(), EditError>
    requires { acts who world.old.flat ≡ true }
    ensures row { Answers result world.new.flat (indent_row how who world.old.flat) }
    ensures wanting { IsErrOf result NoMemory → IsPartOfEdit (Edit.Indent how) None who world.old.flat world.new.flat }
{
    let splices = edit_ops::indent(
        alloc,
        world.lines(who),
        world.sels(who),
        how,
        world.indentwidth(who),
        world.tabstop(who),
    )?;
    world.edit(alloc, who, splices.as_slice())?;
    Ok(())
}

// Joins the lines that a client's selections touch.
fn join<P: Pattern, T: Turn>(
    alloc: Global,
    world: &mut World<P, T>,
    who: u32,
) -> Result<(), EditError>
    requires { acts who world.old.flat ≡ true }
    ensures row { Answers result world.new.flat (join_row who world.old.flat) }
    ensures wanting { IsErrOf result NoMemory → IsPartOfEdit Edit.Join None who world.old.flat world.new.flat }
{
    let splices = edit_ops::join(alloc, world.lines(who), world.sels(who))?;
    world.edit(alloc, who, splices.as_slice())?;
    Ok(())
}

// The spaces that bring a client's cursors to one display column.
fn alignment<P: Pattern, T: Turn>(
    alloc: Global,
    world: &World<P, T>,
    who: u32,
) -> Result<Vec<Splice>, EditError>
    requires { acts who world.now.flat ≡ true }
    ensures aligns { IfOk result (λ splices. AreAlignments who world.now.flat splices.items) }
    ensures refused { IfErr result (λ error. IsUnaligned error who world.now.flat) }
{
    let lines = world.lines(who);
    match edit_ops::align(alloc, lines, world.sels(who), world.tabstop(who)) {
        Ok(splices) => Ok(splices),
        Err(AlignError::SameLine) => Err(EditError::SharedLine),
        Err(AlignError::TooLong) => {
            is_stored(lines);
            Err(world.long_refusal(who))
        }
        Err(AlignError::NoMemory) => Err(EditError::NoMemory),
    }
}

// Brings a client's cursors to one display column.
fn align<P: Pattern, T: Turn>(
    alloc: Global,
    world: &mut World<P, T>,
    who: u32,
) -> Result<(), EditError>
    requires { acts who world.old.flat ≡ true }
    ensures row { Answers result world.new.flat (align_row who world.old.flat) }
    ensures wanting { IsErrOf result NoMemory → IsPartOfEdit Edit.Align None who world.old.flat world.new.flat }
{
    let splices = alignment(alloc, world, who)?;
    world.edit(alloc, who, splices.as_slice())?;
    Ok(())
}

/// Has a register keep the texts of a client's selections, and erases them. Where the register can't be set nothing is erased;
/// where the erasure is refused the register is set.
pub fn cut<P: Pattern, T: Turn>(
    alloc: Global,
    world: &mut World<P, T>,
    who: u32,
    register: Option<char>,
) -> Result<(), EditError>
    requires { acts who world.old.flat ≡ true }
    ensures row { Answers result world.new.flat (cut_row register who world.old.flat) }
    ensures wanting { IsErrOf result NoMemory → IsPartOfEdit Edit.Cut register who world.old.flat world.new.flat }
{
    keep(alloc, world, who, register)?;
    erase(alloc, world, who)
}

/// Puts the n-th string of a register at the n-th selection of a client. `NoSuchRegister` comes where there is no such
/// register; it, `UndoFull` and `TextFull` leave the world.
pub fn put<P: Pattern, T: Turn>(
    alloc: Global,
    world: &mut World<P, T>,
    who: u32,
    register: Option<char>,
    how: Put,
) -> Result<(), EditError>
    requires { acts who world.old.flat ≡ true }
    ensures row { Answers result world.new.flat (put_row how register who world.old.flat) }
    ensures wanting { IsErrOf result NoMemory → IsPartOfPut how register who world.old.flat world.new.flat }
{
    let splices = register_puts(alloc, world, who, used(register), how)?;
    edit_leaving(alloc, world, who, splices.as_slice())
}

/// Does something once to the texts of a client's selections. An error leaves the world, but that a cut may be refused when its
/// register is set already, and that memory may run out half way.
pub fn edit_texts<P: Pattern, T: Turn>(
    alloc: Global,
    world: &mut World<P, T>,
    who: u32,
    edit: Edit,
    register: Option<char>,
) -> Result<(), EditError>
    requires { acts who world.old.flat ≡ true }
    ensures row { Answers result world.new.flat (edit_done edit register who world.old.flat) }
    ensures wanting { IsErrOf result NoMemory → IsPartOfEdit edit register who world.old.flat world.new.flat }
{
    match edit {
        Edit::Cut => cut(alloc, world, who, register),
        Edit::Erase => erase(alloc, world, who),
        Edit::Keep => keep(alloc, world, who, register),
        Edit::Replace => put(alloc, world, who, register, Put::Over),
        Edit::Rotate(direction) => rotate(alloc, world, who, direction),
        Edit::Indent(how) => indent(alloc, world, who, how),
        Edit::Join => join(alloc, world, who),
        Edit::Align => align(alloc, world, who),
    }
}
