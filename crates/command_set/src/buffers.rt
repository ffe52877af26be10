//! What commands do to buffers, and when a client may leave.
#![tactic(auto, using(kak_world::proofs::WorldLaws::world_laws))]

ghost use Rattle.std.specs.Prelude.{◌≡◌, true, slice_index_or, unwrap_or, encode_utf8_all, IfOk, IfSome, IsErrOf, OnOk, OnErr, None};
ghost use Rattle.std.specs.Str.{chars};
ghost use Rattle.kak_world.specs.declared.ask.EditError.TheVariants.{NoMemory};
ghost use Rattle.kak_world.specs.Flat.{acts, is_there, name_of};
ghost use Rattle.kak_world.specs.Rows.{GivesRow, Answers, does};
ghost use Rattle.kak_world.specs.Events.{displayed, IsUnheard};
ghost use Rattle.kak_world.specs.Showing.{shows};
ghost use Rattle.command_set.specs.Buffers.{show_row, edit_named_row, unsaved_in, name_at, closing, drop_at, drop_row, drop_if, quit_row, write_row, drop_noted, written_later, dropped_later, row_later};
ghost use Rattle.kak_world.specs.Saving.{number_named};

use byte_texts::Utf8Text;
use kak_text::Chars;
use kak_world::{Ask, CommandError, Dropping, EditError, Later, Saving, Turn, World};
use key_rows::string_of;
use regex_ports::Pattern;
use scope_tables::HookName;
use std::alloc::{AllocError, Global};

// The number of the buffer of a name, if there is one.
fn number_named<P: Pattern, T: Turn>(
    alloc: Global,
    world: &World<P, T>,
    name: &str,
) -> Result<Option<u32>, AllocError>
    ensures value { IfOk result (λ n. n ≡ number_named (chars name.now) world.now.flat) }
    ensures there { IfOk result (λ o. IfSome o (λ n. is_there n world.now.flat.buffers ≡ true)) }
{
    let name = Chars::from_str(alloc, name)?;
    Ok(world.number_named(name.as_slice()))
}

// Shows a client the buffer of a number, which hooks hear.
fn show_at<P: Pattern, T: Turn>(
    alloc: Global,
    world: &mut World<P, T>,
    who: u32,
    n: u32,
) -> Result<(), AllocError>
    requires acts { acts who world.old.flat ≡ true }
    requires there { is_there n world.old.flat.buffers ≡ true }
    ensures ok { OnOk result (world.new.flat ≡ displayed who (shows who n world.old.flat)) }
    ensures err { OnErr result (IsUnheard (does (displayed who (shows who n world.old.flat))) world.old.flat world.new.flat) }
{
    world.show(alloc, who, n)?;
    world.note_displayed(alloc, who)
}

/// Shows a client the buffer of a name, which hooks hear. A refusal leaves the world; behind want of memory it may be shown.
pub(crate) fn show<P: Pattern, T: Turn>(
    alloc: Global,
    world: &mut World<P, T>,
    who: u32,
    name: Utf8Text,
) -> Result<(), EditError>
    requires { acts who world.old.flat ≡ true }
    ensures row { Answers result world.new.flat (show_row name who world.old.flat) }
    ensures wanting { IsErrOf result NoMemory → IsUnheard (show_row name who world.old.flat) world.old.flat world.new.flat }
{
    match number_named(alloc, world, name.as_str())? {
        None => Err(EditError::Command(CommandError::NoSuchBuffer(name))),
        Some(n) => {
            show_at(alloc, world, who, n)?;
            Ok(())
        }
    }
}

/// Shows a client the buffer of a name, or asks for the file of that name. A refusal leaves the world; behind want of memory the
/// buffer may be shown.
pub(crate) fn edit<P: Pattern, T: Turn>(
    alloc: Global,
    world: &mut World<P, T>,
    who: u32,
    name: Utf8Text,
) -> Result<Ask, EditError>
    requires { acts who world.old.flat ≡ true }
    ensures row { GivesRow result world.new.flat (edit_named_row name who world.old.flat) }
    ensures wanting { IsErrOf result NoMemory → IsUnheard (edit_named_row name who world.old.flat) world.old.flat world.new.flat }
{
    match number_named(alloc, world, name.as_str())? {
        Some(n) => {
            show_at(alloc, world, who, n)?;
            Ok(Ask::Nothing)
        }
        None if world.has_all_buffers() => Err(EditError::Command(CommandError::TooManyBuffers)),
        None => Ok(Ask::Read(name)),
    }
}

// The name of a buffer of which something would be lost.
fn unsaved_in<P: Pattern, T: Turn>(
    alloc: Global,
    world: &World<P, T>,
    n: u32,
) -> Result<Option<Chars>, AllocError>
    ensures { IfOk result (λ name. name ≡ unsaved_in (slice_index_or world.now.flat.buffers n None)) }
{
    match world.buffer(n) {
        Some(buffer) if buffer.is_unsaved() => {
            Ok(Some(Chars::from_slice(alloc, buffer.name())?))
        }
        _ => Ok(None),
    }
}

// The name of the buffer of a number.
fn name_at<P: Pattern, T: Turn>(
    alloc: Global,
    world: &World<P, T>,
    n: u32,
) -> Result<Utf8Text, AllocError>
    requires { is_there n world.now.flat.buffers ≡ true }
    ensures { IfOk result (λ name. name ≡ name_at n world.now.flat) }
{
    match world.buffer(n) {
        None => unreachable!(),
        Some(buffer) => Ok(Utf8Text::of_string(string_of(alloc, buffer.name())?)),
    }
}

// Has hooks hear that a buffer is to be dropped, and asks for that.
fn close<P: Pattern, T: Turn>(
    alloc: Global,
    world: &mut World<P, T>,
    n: u32,
) -> Result<Ask, EditError>
    requires { is_there n world.old.flat.buffers ≡ true }
    ensures row { GivesRow result world.new.flat (closing n world.old.flat) }
    ensures wanting { IsErrOf result NoMemory → world.new.flat ≡ world.old.flat }
{
    let name = name_at(alloc, world, n)?;
    world.note(alloc, HookName::BufClose, name.as_str(), n)?;
    Ok(Ask::Then(Later::Drop(Dropping { buffer: n, name })))
}

// Asks for a buffer to be dropped, unless something would be lost, or where that is forced.
fn drop_at<P: Pattern, T: Turn>(
    alloc: Global,
    world: &mut World<P, T>,
    n: u32,
    forced: bool,
) -> Result<Ask, EditError>
    requires { is_there n world.old.flat.buffers ≡ true }
    ensures row { GivesRow result world.new.flat (drop_at forced n world.old.flat) }
    ensures wanting { IsErrOf result NoMemory → world.new.flat ≡ world.old.flat }
{
    if !forced {
        if let Some(name) = unsaved_in(alloc, world, n)? {
            return Err(EditError::Command(CommandError::ModifiedRemain(name)));
        }
    }
    close(alloc, world, n)
}

// Asks for the buffer of a name to be dropped.
fn drop_named<P: Pattern, T: Turn>(
    alloc: Global,
    world: &mut World<P, T>,
    name: Utf8Text,
    forced: bool,
) -> Result<Ask, EditError>
    ensures row { GivesRow result world.new.flat (drop_if (number_named (chars name) world.old.flat) forced name world.old.flat) }
    ensures wanting { IsErrOf result NoMemory → world.new.flat ≡ world.old.flat }
{
    match number_named(alloc, world, name.as_str())? {
        None => Err(EditError::Command(CommandError::NoSuchBuffer(name))),
        Some(n) => drop_at(alloc, world, n, forced),
    }
}

/// Asks for the buffer of a name to be dropped, or for the one that a client sees, once hooks heard that. `ModifiedRemain` doesn't
/// come where the drop is forced. An error leaves the world.
pub(crate) fn drop_buffer<P: Pattern, T: Turn>(
    alloc: Global,
    world: &mut World<P, T>,
    who: u32,
    name: Option<Utf8Text>,
    forced: bool,
) -> Result<Ask, EditError>
    requires { acts who world.old.flat ≡ true }
    ensures row { GivesRow result world.new.flat (drop_row forced name who world.old.flat) }
    ensures wanting { IsErrOf result NoMemory → world.new.flat ≡ world.old.flat }
{
    match name {
        None => {
            let n = world.shown_number(who);
            drop_at(alloc, world, n, forced)
        }
        Some(name) => drop_named(alloc, world, name, forced),
    }
}

/// Lets a client leave. `ModifiedRemain` comes where something would be lost and each other client was granted to leave.
pub(crate) fn quit<P: Pattern, T: Turn>(
    alloc: Global,
    world: &World<P, T>,
    who: u32,
) -> Result<Ask, EditError>
    ensures row { GivesRow result world.now.flat (quit_row who world.now.flat) }
{
    if !world.others_leave(who) {
        return Ok(Ask::Leave);
    }
    match world.unsaved_names(alloc)? {
        None => Ok(Ask::Leave),
        Some(names) => Err(EditError::Command(CommandError::ModifiedRemain(names))),
    }
}

// The name of a file, or else that of the buffer that a client sees.
fn file_or_name<P: Pattern, T: Turn>(
    alloc: Global,
    world: &World<P, T>,
    who: u32,
    file: Option<Utf8Text>,
) -> Result<Utf8Text, AllocError>
    requires { acts who world.now.flat ≡ true }
    ensures { IfOk result (λ name. name ≡ unwrap_or file (encode_utf8_all (name_of who world.now.flat))) }
{
    match file {
        Some(file) => Ok(file),
        None => Ok(Utf8Text::of_string(string_of(alloc, world.buffer_name(who))?)),
    }
}

// The name of the buffer that a client sees.
fn own_name<P: Pattern, T: Turn>(
    alloc: Global,
    world: &World<P, T>,
    who: u32,
) -> Result<Utf8Text, AllocError>
    requires { acts who world.now.flat ≡ true }
    ensures { IfOk result (λ name. name ≡ encode_utf8_all (name_of who world.now.flat)) }
{
    Ok(Utf8Text::of_string(string_of(alloc, world.buffer_name(who))?))
}

/// Asks for the text that a client sees to be written, once hooks heard that, to a file or to that of the buffer's name, and whether
/// the client is to leave then. Want of memory leaves the world.
pub(crate) fn write<P: Pattern, T: Turn>(
    alloc: Global,
    world: &mut World<P, T>,
    who: u32,
    file: Option<Utf8Text>,
    quits: bool,
) -> Result<Ask, EditError>
    requires { acts who world.old.flat ≡ true }
    ensures row { GivesRow result world.new.flat (write_row file quits who world.old.flat) }
    ensures wanting { IsErrOf result NoMemory → world.new.flat ≡ world.old.flat }
{
    let file = file_or_name(alloc, world, who, file)?;
    let name = own_name(alloc, world, who)?;
    let buffer = world.shown_number(who);
    world.note(alloc, HookName::BufWritePre, file.as_str(), buffer)?;
    Ok(Ask::Then(Later::Write(Saving {
        file,
        buffer,
        name,
        quits,
    })))
}

// Goes on with a buffer that is to be written, if it is there still.
#[tactic(auto, using(kak_world::proofs::WorldLaws::world_laws), unfolding(crate::specs::Buffers::written_later))]
fn go_on_writing<P: Pattern, T: Turn>(world: &World<P, T>, saving: Saving) -> Result<Ask, EditError>
    ensures row { GivesRow result world.now.flat (written_later saving world.now.flat) }
    ensures memory { ¬ IsErrOf result NoMemory }
{
    if world.buffer(saving.buffer).is_none() {
        return Err(EditError::Command(CommandError::NoSuchBuffer(saving.name)));
    }
    Ok(Ask::Write(saving))
}

// Drops a buffer; where it was the only one, hooks hear that another one was made.
fn drop_now<P: Pattern, T: Turn>(
    alloc: Global,
    world: &mut World<P, T>,
    n: u32,
) -> Result<(), AllocError>
    requires { is_there n world.old.flat.buffers ≡ true }
    ensures ok { OnOk result (world.new.flat ≡ drop_noted n world.old.flat) }
    ensures err { OnErr result (IsUnheard (does (drop_noted n world.old.flat)) world.old.flat world.new.flat) }
{
    let only = world.is_only(n);
    world.drop_buffer(alloc, n)?;
    if !only {
        return Ok(());
    }
    world.note(alloc, HookName::BufCreate, "*scratch*", 0)
}

// Goes on with a buffer that is to be dropped, if it is there still.
#[tactic(auto, using(kak_world::proofs::WorldLaws::world_laws), unfolding(crate::specs::Buffers::dropped_later))]
fn go_on_dropping<P: Pattern, T: Turn>(
    alloc: Global,
    world: &mut World<P, T>,
    dropping: Dropping,
) -> Result<Ask, EditError>
    ensures row { GivesRow result world.new.flat (dropped_later dropping world.old.flat) }
    ensures wanting { IsErrOf result NoMemory → IsUnheard (dropped_later dropping world.old.flat) world.old.flat world.new.flat }
{
    let Dropping { buffer, name } = dropping;
    if world.buffer(buffer).is_none() {
        return Err(EditError::Command(CommandError::NoSuchBuffer(name)));
    }
    drop_now(alloc, world, buffer)?;
    Ok(Ask::Nothing)
}

/// Goes on with a row, once the hooks of what it did were run. `NoSuchBuffer` comes where its buffer isn't there any more, and
/// `ModifiedRemain` as where a client leaves; they leave the world. Behind want of memory a buffer may be dropped.
#[tactic(auto, using(kak_world::proofs::WorldLaws::world_laws), unfolding(crate::specs::Buffers::row_later))]
pub fn go_later<P: Pattern, T: Turn>(
    alloc: Global,
    world: &mut World<P, T>,
    who: u32,
    later: Later,
) -> Result<Ask, EditError>
    ensures row { GivesRow result world.new.flat (row_later later who world.old.flat) }
    ensures wanting { IsErrOf result NoMemory → IsUnheard (row_later later who world.old.flat) world.old.flat world.new.flat }
{
    match later {
        Later::Write(saving) => go_on_writing(world, saving),
        Later::Quit => quit(alloc, world, who),
        Later::Drop(dropping) => go_on_dropping(alloc, world, dropping),
    }
}
