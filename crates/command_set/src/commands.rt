//! The commands: how a text is read as them, and the row of each.
#![tactic(auto, using(kak_world::proofs::WorldLaws::world_laws))]

ghost use Rattle.std.specs.Prelude.{◌≡◌, true, map, string_bytes, Ok, Err, IfOk, IfErr, IfSome, IsErrOf};
ghost use Rattle.kak_words.specs.Expanding.{expanded as words_expanded};
ghost use Rattle.kak_world.specs.declared.ask.EditError.TheVariants.{NoMemory};
ghost use Rattle.kak_world.specs.Flat.{acts};
ghost use Rattle.kak_world.specs.Rows.{GivesRow, row_of};
ghost use Rattle.kak_world.specs.Events.{IsUnheard};
ghost use Rattle.command_forms.specs.Names.{named};
ghost use Rattle.command_set.specs.Reading.{commands_told};
ghost use Rattle.command_set.specs.Expanding.{table_of};
ghost use Rattle.command_set.specs.Refusing.{IsUnexpanded};
ghost use Rattle.command_set.specs.Rows.{row_order, order_refusal, meant, row_meant, row_words, row_command};

use crate::expansions::Expansions;
use crate::{
    boxes, buffers, faces, options, painting, registers, running, selecting, session_tables,
};
use byte_texts::Utf8Text;
use command_forms::{Order, OrderError, command_named, read_order_of};
use kak_words::{Command, WordError, expand, read_commands};
use kak_world::{Ask, CommandError, EditError, Turn, World};
use key_rows::string_of;
use regex_ports::Pattern;
use std::alloc::{AllocError, Global};

/// The commands of a text. `Unclosed` tells the character, from 0, at which a quote or a bracket opens that isn't closed.
pub fn read(alloc: Global, text: &[char]) -> Result<Vec<Command>, EditError>
    ensures commands { IfOk result (λ v. commands_told text.now ≡ Ok v.items) }
    ensures why { IfErr result (λ error. IfSome (row_of error) (λ row. commands_told text.now ≡ Err error)) }
{
    let text = string_of(alloc, text)?;
    match read_commands(alloc, text.as_str()) {
        Ok(commands) => Ok(commands),
        Err(WordError::Unclosed(at)) => Err(EditError::Command(CommandError::Unclosed(at))),
        Err(WordError::UnknownExpansion(name)) => {
            Err(EditError::Command(CommandError::UnknownExpansion(name)))
        }
        Err(WordError::NoMemory) => Err(EditError::NoMemory),
    }
}

// Does what a command orders.
fn run_order<P: Pattern, T: Turn>(
    alloc: Global,
    world: &mut World<P, T>,
    who: u32,
    order: Order,
) -> Result<Ask, EditError>
    requires { acts who world.old.flat ≡ true }
    ensures row { GivesRow result world.new.flat (row_order order who world.old.flat) }
    ensures wanting { IsErrOf result NoMemory → IsUnheard (row_order order who world.old.flat) world.old.flat world.new.flat }
{
    match order {
        Order::Nothing => {}
        Order::Edit(name) => return buffers::edit(alloc, world, who, name),
        Order::Write(file) => return buffers::write(alloc, world, who, file, false),
        Order::WriteQuit => return buffers::write(alloc, world, who, None, true),
        Order::Quit => return buffers::quit(alloc, world, who),
        Order::QuitForced => return Ok(Ask::Leave),
        Order::Buffer(name) => buffers::show(alloc, world, who, name)?,
        Order::Delete(name) => return buffers::drop_buffer(alloc, world, who, name, false),
        Order::DeleteForced(name) => return buffers::drop_buffer(alloc, world, who, name, true),
        Order::Declare(declaration) => options::declare(alloc, world, declaration)?,
        Order::Set(setting) => options::set(alloc, world, who, setting)?,
        Order::Unset(option) => options::unset(world, who, option)?,
        Order::SetRegister(register) => registers::set(alloc, world, who, register)?,
        Order::Select(selection) => selecting::select(alloc, world, who, &selection)?,
        Order::Echo(words) => registers::echo(alloc, world, who, &words)?,
        Order::Fail(text) => return Err(registers::fail(alloc, text)),
        Order::Info(texts) => boxes::show(alloc, world, who, &texts)?,
        Order::SetFace(setting) => faces::set(alloc, world, setting)?,
        Order::UnsetFace(face) => faces::unset(world, face)?,
        Order::Highlighter(order) => return painting::change(alloc, world, who, order),
        Order::Table(order) => return session_tables::change(alloc, world, who, order),
        Order::Play(order) => return running::play(alloc, world, &order),
        Order::Eval(text) => return running::eval(alloc, world, &text),
        Order::Try(order) => return running::try_texts(alloc, world, &order),
    }
    Ok(Ask::Nothing)
}

// By what a client is told why words are no order.
fn order_refusal(error: OrderError) -> EditError
    ensures { result ≡ order_refusal error }
{
    match error {
        OrderError::WrongArgumentCount => EditError::Command(CommandError::WrongArgumentCount),
        OrderError::UnknownSwitch(word) => EditError::Command(CommandError::UnknownSwitch(word)),
        OrderError::BadValue => EditError::Command(CommandError::BadValue),
        OrderError::NoSuchHighlighter(word) => {
            EditError::Command(CommandError::NoSuchHighlighter(word))
        }
        OrderError::BadSelection(word) => EditError::Command(CommandError::BadSelection(word)),
        OrderError::NoMemory => EditError::NoMemory,
    }
}

// The command that a word stands for, for a client: the one of its alias, if it has one, and else the word itself.
fn meant<P: Pattern, T: Turn>(
    alloc: Global,
    world: &World<P, T>,
    who: u32,
    word: &str,
) -> Result<Utf8Text, AllocError>
    requires { acts who world.now.flat ≡ true }
    ensures { IfOk result (λ name. name ≡ meant word.now who world.now.flat) }
{
    match world.tables().alias(world.shown_number(who), who, word) {
        Some(command) => Utf8Text::from_str(alloc, command),
        None => Utf8Text::from_str(alloc, word),
    }
}

// Runs the command of a name, by the words behind the one that was typed.
fn run_named<P: Pattern, T: Turn>(
    alloc: Global,
    world: &mut World<P, T>,
    who: u32,
    name: &str,
    typed: &str,
    words: &[String],
) -> Result<Ask, EditError>
    requires { acts who world.old.flat ≡ true }
    ensures row { GivesRow result world.new.flat (row_meant name.now typed.now (map (λ w. string_bytes w) words.now) who world.old.flat) }
    ensures wanting { IsErrOf result NoMemory → IsUnheard (row_meant name.now typed.now (map (λ w. string_bytes w) words.now) who world.old.flat) world.old.flat world.new.flat }
{
    let Some(command) = command_named(name) else {
        return running::call(alloc, world, name, typed, words);
    };
    match read_order_of(alloc, command, words) {
        Ok(order) => run_order(alloc, world, who, order),
        Err(error) => Err(order_refusal(error)),
    }
}

/// Runs one command, by its words, of which the first names it, has an alias that does, or was defined: `NoSuchCommand`
/// comes where none of this holds. No words do nothing. A
/// refusal leaves the world; where memory was wanting it is as before, or all was done, but that hooks aren't to hear the last of it.
#[tactic(auto, using(kak_world::proofs::WorldLaws::world_laws), unfolding(crate::specs::Rows::row_words))]
pub fn command<P: Pattern, T: Turn>(
    alloc: Global,
    world: &mut World<P, T>,
    who: u32,
    words: &[String],
) -> Result<Ask, EditError>
    requires { acts who world.old.flat ≡ true }
    ensures row { GivesRow result world.new.flat (row_words (map (λ w. string_bytes w) words.now) who world.old.flat) }
    ensures wanting { IsErrOf result NoMemory → IsUnheard (row_words (map (λ w. string_bytes w) words.now) who world.old.flat) world.old.flat world.new.flat }
{
    match words {
        [] => Ok(Ask::Nothing),
        [word, ..] => {
            let name = meant(alloc, world, who, word.as_str())?;
            let more = words.split_at(1).1;
            run_named(alloc, world, who, name.as_str(), word.as_str(), more)
        }
    }
}

// The words that a command stands for, for a client.
fn expanded<P: Pattern, T: Turn>(
    alloc: Global,
    world: &World<P, T>,
    who: u32,
    command: &Command,
) -> Result<Vec<String>, EditError>
    requires { acts who world.now.flat ≡ true }
    ensures words { IfOk result (λ v. words_expanded (table_of who world.now.flat) command.now ≡ Ok (map (λ w. string_bytes w) v.items)) }
    ensures why { IfErr result (λ error. IsUnexpanded error (words_expanded (table_of who world.now.flat) command.now)) }
{
    match expand(alloc, command, &Expansions { world, who }) {
        Ok(words) => Ok(words),
        Err(WordError::UnknownExpansion(name)) => {
            Err(EditError::Command(CommandError::UnknownExpansion(name)))
        }
        Err(WordError::Unclosed(at)) => Err(EditError::Command(CommandError::Unclosed(at))),
        Err(WordError::NoMemory) => Err(EditError::NoMemory),
    }
}

/// Runs one command, whose words are expanded first: `UnknownExpansion` comes where there is no such expansion. A refusal
/// leaves the world; where memory was wanting it is as before, or all was done, but that hooks aren't to hear the last of it.
#[tactic(auto, using(kak_world::proofs::WorldLaws::world_laws), unfolding(crate::specs::Rows::row_command))]
pub fn run_command<P: Pattern, T: Turn>(
    alloc: Global,
    world: &mut World<P, T>,
    who: u32,
    command_read: &Command,
) -> Result<Ask, EditError>
    requires { acts who world.old.flat ≡ true }
    ensures row { GivesRow result world.new.flat (row_command command_read.now who world.old.flat) }
    ensures wanting { IsErrOf result NoMemory → IsUnheard (row_command command_read.now who world.old.flat) world.old.flat world.new.flat }
{
    let words = expanded(alloc, world, who, command_read)?;
    command(alloc, world, who, words.as_slice())
}
