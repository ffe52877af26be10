//! The rows of insert mode.
#![tactic(auto, using(kak_world::proofs::WorldLaws::world_laws))]

ghost use Rattle.std.specs.Prelude.{◌≡◌, true, None, Some, ◌∷◌, [], OnOk, IsErrOf};
ghost use Rattle.kak_world.specs.declared.ask.EditError.TheVariants.{NoMemory};
ghost use Rattle.kak_world.specs.Flat.{acts, pending_of};
ghost use Rattle.kak_world.specs.Rows.{Answers, GivesRow, does};
ghost use Rattle.key_rows.specs.Each.{each_changed, each_moved};
ghost use Rattle.key_rows.specs.Naming.{register_named};
ghost use Rattle.insert_prompt.specs.Rows.{typed, character_row, erased_row, leave_insert, awaiting, insert_control, put_register, put_named, insert_base, insert_first, row_insert};
ghost use Rattle.insert_prompt.specs.Wanting.{is_part_of_typing, is_part_of_erasing, is_part_of_putting, IsPartOfBase, IsPartOfInsert};

use directions::Direction;
use edit_ops::{Erase, Put, before_cursors, erase};
use kak_world::{Ask, EditError, Mode, Turn, World};
use key_names::{Base, Key};
use key_rows::{Each, Shape, change_each, register_named, register_puts};
use motion_keys::{Motion, Place, Reach};
use regex_ports::Pattern;
use std::alloc::Global;

// Puts a character in before each cursor.
fn type_in<P: Pattern, T: Turn>(
    alloc: Global,
    world: &mut World<P, T>,
    who: u32,
    c: char,
) -> Result<(), EditError>
    requires { acts who world.old.flat ≡ true }
    ensures row { Answers result world.new.flat (typed (c ∷ []) who world.old.flat) }
    ensures made { OnOk result (is_part_of_typing c who world.old.flat world.new.flat) }
    ensures acts { OnOk result (acts who world.new.flat ≡ true) }
    ensures wanting { IsErrOf result NoMemory → is_part_of_typing c who world.old.flat world.new.flat }
{
    let splices = before_cursors(alloc, world.sels(who).as_slice(), &[c])?;
    match world.edit(alloc, who, splices.as_slice()) {
        Ok(_) => Ok(()),
        Err(error) => Err(error),
    }
}

// Puts a character in before each cursor, which hooks hear once.
fn put_in<P: Pattern, T: Turn>(
    alloc: Global,
    world: &mut World<P, T>,
    who: u32,
    c: char,
) -> Result<Ask, EditError>
    requires { acts who world.old.flat ≡ true }
    ensures row { GivesRow result world.new.flat (character_row c who world.old.flat) }
    ensures wanting { IsErrOf result NoMemory → is_part_of_typing c who world.old.flat world.new.flat }
{
    type_in(alloc, world, who, c)?;
    world.note_typed(alloc, who, c)?;
    Ok(Ask::Nothing)
}

// Erases a character before each cursor, or at it.
fn erase_at<P: Pattern, T: Turn>(
    alloc: Global,
    world: &mut World<P, T>,
    who: u32,
    what: Erase,
) -> Result<Ask, EditError>
    requires { acts who world.old.flat ≡ true }
    ensures row { GivesRow result world.new.flat (erased_row what who world.old.flat) }
    ensures wanting { IsErrOf result NoMemory → is_part_of_erasing what who world.old.flat world.new.flat }
{
    let splices = erase(alloc, world.lines(who), world.sels(who), what)?;
    world.edit(alloc, who, splices.as_slice())?;
    Ok(Ask::Nothing)
}

// Moves each selection.
fn step<P: Pattern, T: Turn>(
    alloc: Global,
    world: &mut World<P, T>,
    who: u32,
    motion: Motion,
) -> Result<Ask, EditError>
    requires { acts who world.old.flat ≡ true }
    ensures row { GivesRow result world.new.flat (does (each_moved motion Reach.Select who world.old.flat)) }
    ensures wanting { IsErrOf result NoMemory → world.new.flat ≡ world.old.flat }
{
    change(alloc, world, who, Each::Moved(motion, Reach::Select))
}

// Does something to each selection.
fn change<P: Pattern, T: Turn>(
    alloc: Global,
    world: &mut World<P, T>,
    who: u32,
    change: Each,
) -> Result<Ask, EditError>
    requires { acts who world.old.flat ≡ true }
    ensures row { GivesRow result world.new.flat (does (each_changed change who world.old.flat)) }
    ensures wanting { IsErrOf result NoMemory → world.new.flat ≡ world.old.flat }
{
    change_each(alloc, world, who, change)?;
    Ok(Ask::Nothing)
}

// Leaves insert mode, which hooks hear; where it was entered behind selections, the cursors go back.
fn leave<P: Pattern, T: Turn>(
    alloc: Global,
    world: &mut World<P, T>,
    who: u32,
) -> Result<Ask, EditError>
    requires { acts who world.old.flat ≡ true }
    ensures row { GivesRow result world.new.flat (does (leave_insert who world.old.flat)) }
    ensures wanting { IsErrOf result NoMemory → IsPartOfBase Base.Esc who world.old.flat world.new.flat }
{
    world.note_left(alloc, who, Mode::Insert)?;
    if world.own(who).appending {
        change_each(alloc, world, who, Each::Reshaped(Shape::OneBack))?;
    }
    let own = world.own_mut(who);
    own.mode = Mode::Normal;
    own.appending = false;
    Ok(Ask::Nothing)
}

// Puts the n-th string of a register in before the n-th cursor.
fn put_register<P: Pattern, T: Turn>(
    alloc: Global,
    world: &mut World<P, T>,
    who: u32,
    name: char,
) -> Result<Ask, EditError>
    requires { acts who world.old.flat ≡ true }
    ensures row { GivesRow result world.new.flat (put_register name who world.old.flat) }
    ensures wanting { IsErrOf result NoMemory → is_part_of_putting (Some name) who world.old.flat world.new.flat }
{
    let splices = register_puts(alloc, world, who, name, Put::BeforeCursor)?;
    world.edit(alloc, who, splices.as_slice())?;
    Ok(Ask::Nothing)
}

// Lets a key wait for the next one, or none.
pub(crate) fn set_pending<P: Pattern, T: Turn>(world: &mut World<P, T>, who: u32, key: Option<Key>)
    requires { acts who world.old.flat ≡ true }
    ensures { world.new.flat ≡ awaiting key who world.old.flat }
{
    world.own_mut(who).pending = key;
}

// Runs a key with control alone.
fn run_control<P: Pattern, T: Turn>(world: &mut World<P, T>, who: u32, key: Key)
    requires { acts who world.old.flat ≡ true }
    ensures { does world.new.flat ≡ insert_control key.base key who world.old.flat }
{
    match key.base {
        Base::Char('u') => world.commit(who),
        Base::Char('r') => set_pending(world, who, Some(key)),
        _ => {}
    }
}

// Runs a key without modifiers.
fn run_plain<P: Pattern, T: Turn>(
    alloc: Global,
    world: &mut World<P, T>,
    who: u32,
    base: Base,
) -> Result<Ask, EditError>
    requires { acts who world.old.flat ≡ true }
    ensures row { GivesRow result world.new.flat (insert_base base who world.old.flat) }
    ensures wanting { IsErrOf result NoMemory → IsPartOfBase base who world.old.flat world.new.flat }
{
    match base {
        Base::Char(c) => put_in(alloc, world, who, c),
        Base::Ret => put_in(alloc, world, who, '\n'),
        Base::Tab => put_in(alloc, world, who, '\t'),
        Base::Backspace => erase_at(alloc, world, who, Erase::BeforeCursor),
        Base::Del => erase_at(alloc, world, who, Erase::AtCursor),
        Base::Left => step(alloc, world, who, Motion::Step(Direction::Backward)),
        Base::Right => step(alloc, world, who, Motion::Step(Direction::Forward)),
        Base::Up => step(alloc, world, who, Motion::Line(Direction::Backward)),
        Base::Down => step(alloc, world, who, Motion::Line(Direction::Forward)),
        Base::Home => step(alloc, world, who, Motion::To(Place::LineStart)),
        Base::End => change(alloc, world, who, Each::Reshaped(Shape::CursorNewline)),
        Base::Esc => leave(alloc, world, who),
        _ => Ok(Ask::Nothing),
    }
}

// Runs a key that no other key waits for.
fn run_first<P: Pattern, T: Turn>(
    alloc: Global,
    world: &mut World<P, T>,
    who: u32,
    key: Key,
) -> Result<Ask, EditError>
    requires { acts who world.old.flat ≡ true }
    ensures row { GivesRow result world.new.flat (insert_first key who world.old.flat) }
    ensures wanting { IsErrOf result NoMemory → IsPartOfBase key.base who world.old.flat world.new.flat }
{
    if key.control && !(key.alt || key.shift) {
        run_control(world, who, key);
        return Ok(Ask::Nothing);
    }
    if key.is_modified() {
        return Ok(Ask::Nothing);
    }
    run_plain(alloc, world, who, key.base)
}

// Runs a key for which `<c-r>` waited: it names a register, or does nothing.
fn run_named<P: Pattern, T: Turn>(
    alloc: Global,
    world: &mut World<P, T>,
    who: u32,
    key: Key,
) -> Result<Ask, EditError>
    requires { acts who world.old.flat ≡ true }
    ensures row { GivesRow result world.new.flat (put_named (register_named key) who (awaiting None who world.old.flat)) }
    ensures wanting { IsErrOf result NoMemory → is_part_of_putting (register_named key) who (awaiting None who world.old.flat) world.new.flat }
{
    set_pending(world, who, None);
    match register_named(key) {
        Some(name) => put_register(alloc, world, who, name),
        None => Ok(Ask::Nothing),
    }
}

/// Runs one key of insert mode. `UndoFull` and `TextFull` come exactly where the undo tree has no place for an edit, or else the
/// text no room, and `NoSuchRegister` where a key names no register; they leave the text, the selections and the registers.
#[tactic(auto, using(kak_world::proofs::WorldLaws::world_laws), unfolding(crate::specs::Rows::row_insert))]
pub fn insert_key<P: Pattern, T: Turn>(
    alloc: Global,
    world: &mut World<P, T>,
    who: u32,
    key: Key,
) -> Result<Ask, EditError>
    requires { acts who world.old.flat ≡ true }
    ensures row { GivesRow result world.new.flat (row_insert key who world.old.flat) }
    ensures wanting { IsErrOf result NoMemory → IsPartOfInsert (pending_of who world.old.flat) key who world.old.flat world.new.flat }
{
    match world.own(who).pending {
        None => run_first(alloc, world, who, key),
        Some(_) => run_named(alloc, world, who, key),
    }
}
