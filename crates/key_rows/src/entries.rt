//! How insert mode is entered.
#![tactic(auto, using(kak_world::proofs::WorldLaws::world_laws))]

ghost use Rattle.std.specs.Prelude.{◌≡◌, ◌≤◌, true, false, [], ◌∷◌, length, IfOk, IsOk, IsErrOf, OnOk};
ghost use Rattle.selection_set.specs.Listing.{AreInside, ranges_of};
ghost use Rattle.buffer_store.specs.Buffers.{flat_splice, IsSpliceOf};
ghost use Rattle.edit_ops.specs.Putting.{put_in_at};
ghost use Rattle.kak_world.specs.declared.ask.EditError.TheVariants.{NoMemory};
ghost use Rattle.kak_world.specs.Flat.{acts, sels_of};
ghost use Rattle.kak_world.specs.Rows.{Answers};
ghost use Rattle.key_rows.specs.Entering.{reaches_end, room_row, place_row, edits_first, appends, enter_row};
ghost use Rattle.kak_world.specs.Events.{has_hooks};
ghost use Rattle.key_rows.specs.Wanting.{IsPartOfPlace, IsPartOfEntry};

use crate::each::{Each, change_each};
use crate::edits::{cut, erase, open};
use crate::shapes::Shape;
use buffer_store::Splice;
use directions::Direction;
use kak_text::Chars;
use kak_world::{EditError, Mode, Turn, World};
use line_buffer::Lines;
use regex_ports::Pattern;
use selection_set::Sel;
use std::alloc::{AllocError, Global};

/// How insert mode is entered.
#[derive(Clone, Copy, PartialEq, Eq, Debug)]
pub enum InsertEntry {
    /// Before each selection.
    Before,
    /// Behind each selection; where one ends the text, a newline goes in there first.
    Behind,
    /// At the first character of the first line of each that is no blank.
    FirstLine,
    /// At the newline of the last line of each.
    LastNewline,
    /// In the place of their texts, which a register keeps.
    Cut,
    /// In the place of their texts.
    Erase,
    /// On a new line below or above each.
    Open(Direction),
}

// Whether some selection reaches the text's last character.
fn reaches_end(lines: &Lines, sels: &[Sel]) -> bool
    requires { AreInside lines.now sels.now }
    ensures { result ≡ reaches_end lines.now (ranges_of lines.now sels.now) }
{
    let last = lines.last_place();
    for sel in sels {
        if last.is_at_most(sel.high) {
            return true;
        }
    }
    false
}

// A newline that goes in at the end of a text.
fn newline_at_end(alloc: Global, lines: &Lines) -> Result<Splice, AllocError>
    ensures puts { IfOk result (λ splice. flat_splice lines.now splice ≡ put_in_at (length lines.now) (10 ∷ [])) }
    ensures ends { IfOk result (λ splice. IsSpliceOf lines.now splice) }
{
    let at = lines.coord_of(lines.len());
    let text = Chars::from_slice(alloc, &['\n'])?;
    Ok(Splice {
        from: at,
        to: at,
        text,
    })
}

// Puts a newline in at the end of the text, where a client's selection reaches its last character.
fn make_room<P: Pattern, T: Turn>(
    alloc: Global,
    world: &mut World<P, T>,
    who: u32,
) -> Result<(), EditError>
    requires { acts who world.old.flat ≡ true }
    ensures row { Answers result world.new.flat (room_row who world.old.flat) }
    ensures made { OnOk result (IsPartOfPlace InsertEntry.Behind None who world.old.flat world.new.flat) }
    ensures wanting { IsErrOf result NoMemory → IsPartOfPlace InsertEntry.Behind None who world.old.flat world.new.flat }
    ensures acts { OnOk result (acts who world.new.flat ≡ true) }
{
    if !reaches_end(world.lines(who), world.sels(who).as_slice()) {
        return Ok(());
    }
    let splices = [newline_at_end(alloc, world.lines(who))?];
    world.edit(alloc, who, splices.as_slice())?;
    Ok(())
}

// Takes a client's selections to where insert mode is entered.
fn place<P: Pattern, T: Turn>(
    alloc: Global,
    world: &mut World<P, T>,
    who: u32,
    entry: InsertEntry,
    register: Option<char>,
) -> Result<(), EditError>
    requires { acts who world.old.flat ≡ true }
    ensures row { Answers result world.new.flat (place_row entry register who world.old.flat) }
    ensures wanting { IsErrOf result NoMemory → IsPartOfPlace entry register who world.old.flat world.new.flat }
    ensures few { length (sels_of who world.old.flat).list ≤ 4 → edits_first entry ≡ false → IsOk result }
{
    match entry {
        InsertEntry::Before => change_each(alloc, world, who, Each::Reshaped(Shape::AtStart))?,
        InsertEntry::Behind => {
            make_room(alloc, world, who)?;
            change_each(alloc, world, who, Each::Reshaped(Shape::OneFurther))?
        }
        InsertEntry::FirstLine => change_each(alloc, world, who, Each::AtFirstLine)?,
        InsertEntry::LastNewline => {
            change_each(alloc, world, who, Each::Reshaped(Shape::LastNewline))?
        }
        InsertEntry::Cut => cut(alloc, world, who, register)?,
        InsertEntry::Erase => erase(alloc, world, who)?,
        InsertEntry::Open(direction) => open(alloc, world, who, direction)?,
    }
    Ok(())
}

// Whether leaving insert mode takes cursors back.
fn appends(entry: InsertEntry) -> bool
    ensures { result ≡ appends entry }
{
    match entry {
        InsertEntry::Behind => true,
        _ => false,
    }
}

/// Enters insert mode. It is refused as the edits are that go before it, and then the mode stays. Where no edit goes before,
/// and no hook is held, it takes no memory for at most four selections.
pub fn enter_insert<P: Pattern, T: Turn>(
    alloc: Global,
    world: &mut World<P, T>,
    who: u32,
    entry: InsertEntry,
    register: Option<char>,
) -> Result<(), EditError>
    requires { acts who world.old.flat ≡ true }
    ensures row { Answers result world.new.flat (enter_row entry register who world.old.flat) }
    ensures wanting { IsErrOf result NoMemory → IsPartOfEntry entry register who world.old.flat world.new.flat }
    ensures few { has_hooks world.old.flat ≡ false → length (sels_of who world.old.flat).list ≤ 4 → edits_first entry ≡ false → IsOk result }
{
    place(alloc, world, who, entry, register)?;
    world.note_entered(alloc, who, Mode::Insert)?;
    let own = world.own_mut(who);
    own.mode = Mode::Insert;
    own.appending = appends(entry);
    Ok(())
}
