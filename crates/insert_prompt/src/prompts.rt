//! The rows of prompts.
#![tactic(auto, using(kak_world::proofs::WorldLaws::world_laws))]

ghost use Rattle.std.specs.Prelude.{◌≡◌, true, None, IfOk, IfSome, OnOk, OnErr, IsErrOf};
ghost use Rattle.edit_line.specs.Edits.{put_before_cursor};
ghost use Rattle.edit_line.specs.Halves.{whole};
ghost use Rattle.kak_world.specs.declared.ask.EditError.TheVariants.{NoMemory};
ghost use Rattle.kak_world.specs.Flat.{acts, prompt_of};
ghost use Rattle.kak_world.specs.Rows.{Answers, GivesRow, does, row_of};
ghost use Rattle.kak_world.specs.Events.{has_hooks};
ghost use Rattle.key_rows.specs.Naming.{register_named};
ghost use Rattle.insert_prompt.specs.Wanting.{IsPartOfTyped, IsPartOfPrompt};
ghost use Rattle.insert_prompt.specs.Rows.{awaiting, prompt_edited, line_edited, leave_prompt, typed_kept, commands_accepted, pattern_typed, accepted, prompt_base, prompt_control, prompt_register, prompt_named, prompt_first, row_prompt};

use crate::inserts::set_pending;
use byte_texts::Words;
use edit_line::EditLine;
use kak_text::Chars;
use kak_world::{Ask, EditError, Mode, PatternUse, Purpose, Turn, Use, Wanted, World};
use key_names::{Base, Key};
use key_rows::{ask_for_last, register_named, register_text, string_of};
use regex_ports::Pattern;
use std::alloc::{AllocError, Global};

// Leaves the prompt, which hooks hear, and gives its line. An `Err` leaves the world, and comes only where a hook is held.
fn leave<P: Pattern, T: Turn>(
    alloc: Global,
    world: &mut World<P, T>,
    who: u32,
) -> Result<EditLine, AllocError>
    requires { acts who world.old.flat ≡ true }
    ensures typed { IfOk result (λ line. line ≡ prompt_of who world.old.flat) }
    ensures left { OnOk result (world.new.flat ≡ leave_prompt who world.old.flat) }
    ensures err { OnErr result (world.new.flat ≡ world.old.flat) }
    ensures held { OnErr result (has_hooks world.new.flat ≡ true) }
{
    world.note_left(alloc, who, Mode::Prompt)?;
    let own = world.own_mut(who);
    own.mode = Mode::Normal;
    Ok(std::mem::replace(&mut own.prompt, EditLine::new(alloc)))
}

// Leaves the prompt, since a register can't hold what was typed; want of memory leaves the world, then and now.
fn refuse<P: Pattern, T: Turn>(
    alloc: Global,
    world: &mut World<P, T>,
    who: u32,
    error: &EditError,
) -> Result<(), AllocError>
    requires { acts who world.old.flat ≡ true }
    ensures left { OnOk result (IfSome (row_of error.now) (λ row. world.new.flat ≡ leave_prompt who world.old.flat)) }
    ensures wanting { OnOk result (error.now ≡ NoMemory → world.new.flat ≡ world.old.flat) }
    ensures err { OnErr result (world.new.flat ≡ world.old.flat) }
{
    match error {
        EditError::NoMemory => Ok(()),
        _ => {
            let _typed = leave(alloc, world, who)?;
            Ok(())
        }
    }
}

// Has a register hold what was typed, and leaves the prompt; where the register can't, the prompt is left too.
fn keep_typed<P: Pattern, T: Turn>(
    alloc: Global,
    world: &mut World<P, T>,
    who: u32,
    name: char,
) -> Result<Chars, EditError>
    requires { acts who world.old.flat ≡ true }
    ensures row { Answers result world.new.flat (typed_kept name who world.old.flat) }
    ensures typed { IfOk result (λ typed. typed ≡ whole (prompt_of who world.old.flat)) }
    ensures wanting { IsErrOf result NoMemory → IsPartOfTyped name who world.old.flat world.new.flat }
{
    let mut strings = Words::new(alloc);
    strings.push(string_of(alloc, world.own(who).prompt.whole())?)?;
    match world.set_register(name, strings) {
        Ok(()) => {
            let typed = leave(alloc, world, who)?;
            Ok(Chars::of_vec(typed.into_vec()))
        }
        Err(error) => {
            refuse(alloc, world, who, &error)?;
            Err(error)
        }
    }
}

// Asks for what was typed to be run as commands.
fn accept_commands<P: Pattern, T: Turn>(
    alloc: Global,
    world: &mut World<P, T>,
    who: u32,
) -> Result<Ask, EditError>
    requires { acts who world.old.flat ≡ true }
    ensures row { GivesRow result world.new.flat (commands_accepted who world.old.flat) }
    ensures wanting { IsErrOf result NoMemory → IsPartOfTyped 58 who world.old.flat world.new.flat }
{
    let typed = keep_typed(alloc, world, who, ':')?;
    Ok(Ask::Commands(typed))
}

// Asks for what was typed as a pattern, or for the one that was looked for last where nothing was.
fn accept_pattern<P: Pattern, T: Turn>(
    alloc: Global,
    world: &mut World<P, T>,
    who: u32,
    wanted: Use,
) -> Result<Ask, EditError>
    requires { acts who world.old.flat ≡ true }
    ensures row { GivesRow result world.new.flat (pattern_typed (whole (prompt_of who world.old.flat)) wanted who world.old.flat) }
    ensures wanting { IsErrOf result NoMemory → IsPartOfTyped 47 who world.old.flat world.new.flat }
{
    if world.own(who).prompt.whole().is_empty() {
        let ask = ask_for_last(alloc, world, wanted)?;
        let _nothing = leave(alloc, world, who)?;
        return Ok(ask);
    }
    let pattern = keep_typed(alloc, world, who, '/')?;
    Ok(Ask::Make(PatternUse {
        pattern,
        then: Wanted::Selects(wanted),
    }))
}

// Accepts the prompt, as what it is for.
fn accept<P: Pattern, T: Turn>(
    alloc: Global,
    world: &mut World<P, T>,
    who: u32,
) -> Result<Ask, EditError>
    requires { acts who world.old.flat ≡ true }
    ensures row { GivesRow result world.new.flat (accepted who world.old.flat) }
    ensures wanting { IsErrOf result NoMemory → IsPartOfPrompt who world.old.flat world.new.flat }
{
    let purpose = world.own(who).purpose;
    match purpose {
        Purpose::Commands => accept_commands(alloc, world, who),
        Purpose::Pattern(wanted) => accept_pattern(alloc, world, who, wanted),
    }
}

// Puts characters in before the cursor of the prompt. An `Err` leaves the world.
fn put<P: Pattern, T: Turn>(
    world: &mut World<P, T>,
    who: u32,
    chars: &[char],
) -> Result<(), AllocError>
    requires { acts who world.old.flat ≡ true }
    ensures ok { OnOk result (world.new.flat ≡ prompt_edited (put_before_cursor chars.now) who world.old.flat) }
    ensures err { OnErr result (world.new.flat ≡ world.old.flat) }
{
    let own = world.own_mut(who);
    own.prompt.put(chars)?;
    Ok(())
}

// Does what a key does to the line of a prompt at its cursor.
fn edit(line: &mut EditLine, base: Base)
    ensures { line.new ≡ line_edited base line.old }
{
    match base {
        Base::Backspace => line.erase_before(),
        Base::Del => line.erase_at(),
        Base::Left => line.left(),
        Base::Right => line.right(),
        Base::Home => line.home(),
        Base::End => line.end(),
        _ => {}
    }
}

// The same, in the prompt of a client.
fn edit_prompt<P: Pattern, T: Turn>(world: &mut World<P, T>, who: u32, base: Base)
    requires { acts who world.old.flat ≡ true }
    ensures { world.new.flat ≡ prompt_edited (line_edited base) who world.old.flat }
{
    let own = world.own_mut(who);
    edit(&mut own.prompt, base);
}

// Runs a key without modifiers.
fn run_plain<P: Pattern, T: Turn>(
    alloc: Global,
    world: &mut World<P, T>,
    who: u32,
    base: Base,
) -> Result<Ask, EditError>
    requires { acts who world.old.flat ≡ true }
    ensures row { GivesRow result world.new.flat (prompt_base base who world.old.flat) }
    ensures wanting { IsErrOf result NoMemory → IsPartOfPrompt who world.old.flat world.new.flat }
{
    match base {
        Base::Char(c) => {
            put(world, who, &[c])?;
            Ok(Ask::Nothing)
        }
        Base::Ret => accept(alloc, world, who),
        Base::Esc => {
            let _typed = leave(alloc, world, who)?;
            Ok(Ask::Nothing)
        }
        base => {
            edit_prompt(world, who, base);
            Ok(Ask::Nothing)
        }
    }
}

// Runs a key with control alone.
fn run_control<P: Pattern, T: Turn>(world: &mut World<P, T>, who: u32, key: Key)
    requires { acts who world.old.flat ≡ true }
    ensures { does world.new.flat ≡ prompt_control key.base key who world.old.flat }
{
    match key.base {
        Base::Char('r') => set_pending(world, who, Some(key)),
        _ => {}
    }
}

// Runs a key that no other key waits for.
fn run_first<P: Pattern, T: Turn>(
    alloc: Global,
    world: &mut World<P, T>,
    who: u32,
    key: Key,
) -> Result<Ask, EditError>
    requires { acts who world.old.flat ≡ true }
    ensures row { GivesRow result world.new.flat (prompt_first key who world.old.flat) }
    ensures wanting { IsErrOf result NoMemory → IsPartOfPrompt who world.old.flat world.new.flat }
{
    if key.control && !(key.alt || key.shift) {
        run_control(world, who, key);
        return Ok(Ask::Nothing);
    }
    if key.is_modified() {
        return Ok(Ask::Nothing);
    }
    run_plain(alloc, world, who, key.base)
}

// Puts the strings of a register in before the cursor of the prompt, joined by spaces; no key waits then.
fn put_register<P: Pattern, T: Turn>(
    alloc: Global,
    world: &mut World<P, T>,
    who: u32,
    name: char,
) -> Result<Ask, EditError>
    requires { acts who world.old.flat ≡ true }
    ensures row { GivesRow result world.new.flat (prompt_register name who (awaiting None who world.old.flat)) }
    ensures wanting { IsErrOf result NoMemory → world.new.flat ≡ world.old.flat }
{
    match register_text(alloc, world, who, name)? {
        None => {
            set_pending(world, who, None);
            Err(EditError::NoSuchRegister(name))
        }
        Some(text) => {
            put(world, who, text.as_slice())?;
            set_pending(world, who, None);
            Ok(Ask::Nothing)
        }
    }
}

// Runs a key for which `<c-r>` waited: it names a register, or does nothing.
fn run_named<P: Pattern, T: Turn>(
    alloc: Global,
    world: &mut World<P, T>,
    who: u32,
    key: Key,
) -> Result<Ask, EditError>
    requires { acts who world.old.flat ≡ true }
    ensures row { GivesRow result world.new.flat (prompt_named (register_named key) who (awaiting None who world.old.flat)) }
    ensures wanting { IsErrOf result NoMemory → world.new.flat ≡ world.old.flat }
{
    match register_named(key) {
        Some(name) => put_register(alloc, world, who, name),
        None => {
            set_pending(world, who, None);
            Ok(Ask::Nothing)
        }
    }
}

/// Runs one key of a prompt. `RegisterFull` comes where more was typed than a register may hold; the prompt is left then, and
/// nothing is run or looked for. `NoSuchRegister` comes where a key names no register, and leaves the prompt as it is. Want of memory leaves
/// the world; where a hook is held, a register may hold what was typed by then. It costs the characters of the prompt from the cursor on,
/// and of a register those of its strings; `<ret>` costs all that was typed.
#[tactic(auto, using(kak_world::proofs::WorldLaws::world_laws), unfolding(crate::specs::Rows::row_prompt))]
pub fn prompt_key<P: Pattern, T: Turn>(
    alloc: Global,
    world: &mut World<P, T>,
    who: u32,
    key: Key,
) -> Result<Ask, EditError>
    requires { acts who world.old.flat ≡ true }
    ensures row { GivesRow result world.new.flat (row_prompt key who world.old.flat) }
    ensures wanting { IsErrOf result NoMemory → IsPartOfPrompt who world.old.flat world.new.flat }
{
    match world.own(who).pending {
        None => run_first(alloc, world, who, key),
        Some(_) => run_named(alloc, world, who, key),
    }
}
