//! What commands do to key maps, aliases, defined commands and hooks.
#![tactic(auto, using(kak_world::proofs::WorldLaws::world_laws))]

ghost use Rattle.std.specs.Prelude.{◌≡◌, true, Ok, Err, Some, None, IfOk, IfErr, IfSome, IsErrOf};
ghost use Rattle.std.specs.Str.{chars};
ghost use Rattle.key_names.specs.Reading.{read_text};
ghost use Rattle.kak_world.specs.declared.ask.EditError.TheVariants.{Command as OfCommand, NoMemory};
ghost use Rattle.kak_world.specs.declared.command_error.CommandError.TheVariants.{NoSuchScope};
ghost use Rattle.scope_tables.specs.Definitions.{with_definition};
ghost use Rattle.command_forms.specs.declared.table_orders.TableOrder.TheVariants.{Alias, Unalias, Hook, RemoveHooks};
ghost use Rattle.kak_world.specs.Flat.{acts};
ghost use Rattle.kak_world.specs.Scoping.{with_definitions};
ghost use Rattle.kak_world.specs.Rows.{Answers, GivesRow, does, row_of};
ghost use Rattle.command_set.specs.Options.{scope_named};
ghost use Rattle.command_set.specs.Tables.{mode_named, mode_told, keys_told, key_told, map_at, unmap_at, count_of, scoped_row, table_row};

use crate::options::scope_named;
use byte_texts::Utf8Text;
use command_forms::{
    AliasName, AliasWords, Allowed, CommandTexts, HookGroup, HookWords, KeyMapping, KeyName,
    TableOrder,
};
use kak_text::Chars;
use kak_world::{Ask, CommandError, EditError, NewHook, PatternUse, Turn, Wanted, World};
use key_names::{Key, KeyError, read_keys};
use regex_ports::Pattern;
use scope_options::Scope;
use scope_tables::{Mode, ParameterCount, hook_named};
use std::alloc::Global;

// The mode that a word names.
fn mode_named(word: &str) -> Option<Mode>
    ensures { result ≡ mode_named word.now }
{
    match word {
        "normal" => Some(Mode::Normal),
        "insert" => Some(Mode::Insert),
        "prompt" => Some(Mode::Prompt),
        _ => None,
    }
}

// The mode of a word, or that it names none.
fn mode_told(word: Utf8Text) -> Result<Mode, EditError>
    ensures mode { IfOk result (λ mode. mode_told word (mode_named word) ≡ Ok mode) }
    ensures why { IfErr result (λ error. IfSome (row_of error) (λ row. mode_told word (mode_named word) ≡ Err error)) }
{
    match mode_named(word.as_str()) {
        Some(mode) => Ok(mode),
        None => Err(EditError::Command(CommandError::NoSuchMode(word))),
    }
}

/// The keys of a key text. `BadKey` comes where they can't be read.
pub(crate) fn keys_told(alloc: Global, word: &str) -> Result<Vec<Key>, EditError>
    ensures keys { IfOk result (λ keys. keys_told (read_text (chars word.now)) ≡ Ok keys.items) }
    ensures why { IfErr result (λ error. IfSome (row_of error) (λ row. keys_told (read_text (chars word.now)) ≡ Err error)) }
{
    match read_keys(alloc, word) {
        Ok(keys) => Ok(keys),
        Err(KeyError::BadKey(at)) => Err(EditError::Command(CommandError::BadKey(at))),
        Err(KeyError::NoMemory) => Err(EditError::NoMemory),
    }
}

// The only key of a key text.
fn key_told(alloc: Global, word: &str) -> Result<Key, EditError>
    ensures key { IfOk result (λ key. key_told word.now ≡ Ok key) }
    ensures why { IfErr result (λ error. IfSome (row_of error) (λ row. key_told word.now ≡ Err error)) }
{
    let keys = keys_told(alloc, word)?;
    match keys.as_slice() {
        [key] => Ok(*key),
        _ => Err(EditError::Command(CommandError::BadKey(0))),
    }
}

// The scope of a word, for a client, or that it names none.
fn scope_told<P: Pattern, T: Turn>(
    world: &World<P, T>,
    who: u32,
    word: Utf8Text,
) -> Result<Scope, EditError>
    requires { acts who world.now.flat ≡ true }
    ensures scope { IfOk result (λ scope. scope_named word who world.now.flat ≡ Some scope) }
    ensures why { IfErr result (λ error. (scope_named word who world.now.flat ≡ None) × (error ≡ OfCommand (NoSuchScope word))) }
{
    match scope_named(word.as_str(), world, who) {
        Some(scope) => Ok(scope),
        None => Err(EditError::Command(CommandError::NoSuchScope(word))),
    }
}

// Maps a key. `NoSuchScope`, `NoSuchMode` and `BadKey`, of the key or else of the keys, leave the world.
fn map<P: Pattern, T: Turn>(
    alloc: Global,
    world: &mut World<P, T>,
    who: u32,
    mapping: KeyMapping,
) -> Result<(), EditError>
    requires { acts who world.old.flat ≡ true }
    ensures row { Answers result world.new.flat (scoped_row mapping.scope (map_at mapping world.old.flat) who world.old.flat) }
    ensures wanting { IsErrOf result NoMemory → world.new.flat ≡ world.old.flat }
{
    let KeyMapping {
        scope,
        mode,
        key,
        keys,
    } = mapping;
    let scope = scope_told(world, who, scope)?;
    let mode = mode_told(mode)?;
    let key = key_told(alloc, key.as_str())?;
    let keys = keys_told(alloc, keys.as_str())?;
    world.map_key(alloc, scope, mode, key, keys.as_slice())?;
    Ok(())
}

// Unmaps a key. `NoSuchScope`, `NoSuchMode` and `BadKey` leave the world.
fn unmap<P: Pattern, T: Turn>(
    alloc: Global,
    world: &mut World<P, T>,
    who: u32,
    name: KeyName,
) -> Result<(), EditError>
    requires { acts who world.old.flat ≡ true }
    ensures row { Answers result world.new.flat (scoped_row name.scope (unmap_at name world.old.flat) who world.old.flat) }
    ensures wanting { IsErrOf result NoMemory → world.new.flat ≡ world.old.flat }
{
    let KeyName { scope, mode, key } = name;
    let scope = scope_told(world, who, scope)?;
    let mode = mode_told(mode)?;
    let key = key_told(alloc, key.as_str())?;
    world.unmap_key(scope, mode, key);
    Ok(())
}

// Has a word stand for a command. `NoSuchScope` leaves the world.
fn alias<P: Pattern, T: Turn>(
    alloc: Global,
    world: &mut World<P, T>,
    who: u32,
    alias: AliasWords,
) -> Result<(), EditError>
    requires { acts who world.old.flat ≡ true }
    ensures row { Answers result world.new.flat (table_row (Alias alias) who world.old.flat) }
    ensures wanting { IsErrOf result NoMemory → world.new.flat ≡ world.old.flat }
{
    let AliasWords {
        scope,
        word,
        command,
    } = alias;
    let scope = scope_told(world, who, scope)?;
    world.set_alias(alloc, scope, word.as_str(), command.as_str())?;
    Ok(())
}

// A word stands for no command any more. `NoSuchScope` leaves the world.
fn unalias<P: Pattern, T: Turn>(
    world: &mut World<P, T>,
    who: u32,
    alias: AliasName,
) -> Result<(), EditError>
    requires { acts who world.old.flat ≡ true }
    ensures row { Answers result world.new.flat (table_row (Unalias alias) who world.old.flat) }
    ensures wanting { IsErrOf result NoMemory → world.new.flat ≡ world.old.flat }
{
    let AliasName { scope, word } = alias;
    let scope = scope_told(world, who, scope)?;
    world.unset_alias(scope, word.as_str());
    Ok(())
}

// How many parameters a command may be given, as the table has it.
fn count_of(allowed: Allowed) -> ParameterCount
    ensures { result ≡ count_of allowed }
{
    ParameterCount {
        least: allowed.least as usize,
        most: allowed.most as usize,
    }
}

// Asks for the pattern of a hook. `NoSuchScope` comes where there is no such scope, and else `NoSuchHook` where there is no such
// name.
fn hook<P: Pattern, T: Turn>(
    alloc: Global,
    world: &World<P, T>,
    who: u32,
    hook: HookWords,
) -> Result<Ask, EditError>
    requires { acts who world.now.flat ≡ true }
    ensures row { GivesRow result world.now.flat (table_row (Hook hook) who world.now.flat) }
{
    let HookWords {
        scope,
        name,
        pattern,
        commands,
        group,
        once,
    } = hook;
    let scope = scope_told(world, who, scope)?;
    let Some(named) = hook_named(name.as_str()) else {
        return Err(EditError::Command(CommandError::NoSuchHook(name)));
    };
    Ok(Ask::Make(PatternUse {
        pattern: Chars::from_str(alloc, pattern.as_str())?,
        then: Wanted::Hooks(NewHook {
            scope,
            name: named,
            group,
            once,
            commands,
        }),
    }))
}

// Removes the hooks of a group. `NoSuchScope` leaves the world.
fn remove_hooks<P: Pattern, T: Turn>(
    world: &mut World<P, T>,
    who: u32,
    hooks: HookGroup,
) -> Result<(), EditError>
    requires { acts who world.old.flat ≡ true }
    ensures row { Answers result world.new.flat (table_row (RemoveHooks hooks) who world.old.flat) }
    ensures wanting { IsErrOf result NoMemory → world.new.flat ≡ world.old.flat }
{
    let HookGroup { scope, group } = hooks;
    let scope = scope_told(world, who, scope)?;
    world.remove_hooks(scope, group.as_str());
    Ok(())
}

// Defines a command.
fn define<P: Pattern, T: Turn>(
    alloc: Global,
    world: &mut World<P, T>,
    texts: CommandTexts,
) -> Result<(), EditError>
    ensures row { Answers result world.new.flat (does (with_definitions (with_definition texts.name (count_of texts.allowed) texts.commands) world.old.flat)) }
    ensures wanting { IsErrOf result NoMemory → world.new.flat ≡ world.old.flat }
{
    let count = count_of(texts.allowed);
    world.define(alloc, texts.name.as_str(), count, texts.commands.as_str())?;
    Ok(())
}

/// Changes the tables. A refusal leaves the world, and so does want of memory.
pub(crate) fn change<P: Pattern, T: Turn>(
    alloc: Global,
    world: &mut World<P, T>,
    who: u32,
    order: TableOrder,
) -> Result<Ask, EditError>
    requires { acts who world.old.flat ≡ true }
    ensures row { GivesRow result world.new.flat (table_row order who world.old.flat) }
    ensures wanting { IsErrOf result NoMemory → world.new.flat ≡ world.old.flat }
{
    match order {
        TableOrder::Map(mapping) => map(alloc, world, who, mapping)?,
        TableOrder::Unmap(name) => unmap(alloc, world, who, name)?,
        TableOrder::Alias(words) => alias(alloc, world, who, words)?,
        TableOrder::Unalias(name) => unalias(world, who, name)?,
        TableOrder::Define(texts) => define(alloc, world, texts)?,
        TableOrder::Hook(words) => return hook(alloc, world, who, words),
        TableOrder::RemoveHooks(hooks) => remove_hooks(world, who, hooks)?,
    }
    Ok(Ask::Nothing)
}
