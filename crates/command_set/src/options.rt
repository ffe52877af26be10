//! What commands do to options.
#![tactic(auto, using(kak_world::proofs::WorldLaws::world_laws))]

ghost use Rattle.std.specs.Prelude.{◌≡◌, ◌++◌, true, [], string_bytes, IfOk, IfErr, IfSome, IsErrOf, OnOk, OnErr};
ghost use Rattle.std.specs.Option.{option_copied};
ghost use Rattle.kak_world.specs.declared.ask.EditError.TheVariants.{NoMemory};
ghost use Rattle.kak_world.specs.Flat.{acts};
ghost use Rattle.kak_world.specs.Rows.{Answers};
ghost use Rattle.kak_world.specs.Events.{has_hooks, IsUnheard};
ghost use Rattle.key_rows.specs.Reading.{spaced_texts};
ghost use Rattle.command_set.specs.Options.{scope_named, is_declared, refusal_by, declare_row, setting_name, setting_text, option_modified, set_option_row, unset_option_row};

use crate::expansions::option_strings;
use byte_texts::{Utf8Text, Words};
use command_forms::{Declaration, OptionName, SettingOrder};
use kak_world::{CommandError, EditError, Turn, World};
use regex_ports::Pattern;
use scope_options::{OptionError, OptionValue, Scope};
use scope_tables::HookName;
use std::alloc::{AllocError, Global};

/// The scope that a word names for a client.
pub(crate) fn scope_named<P: Pattern, T: Turn>(
    word: &str,
    world: &World<P, T>,
    who: u32,
) -> Option<Scope>
    requires { acts who world.now.flat ≡ true }
    ensures { result ≡ scope_named word.now who world.now.flat }
{
    match word {
        "global" => Some(Scope::Global),
        "buffer" => Some(Scope::Buffer(world.shown_number(who))),
        "window" => Some(Scope::Window(who, world.shown_number(who))),
        _ => None,
    }
}

// Whether there is an option of a name.
fn is_declared<P: Pattern, T: Turn>(world: &World<P, T>, name: &str) -> bool
    ensures { result ≡ is_declared name.now world.now.flat }
{
    world.options().seen(Scope::Global, name).is_some()
}

// By what a client is told why an option wasn't declared, set or unset.
fn refusal_by(option: OptionName, error: OptionError) -> EditError
    ensures { result ≡ refusal_by option.name option.scope error }
{
    match error {
        OptionError::NoOption => EditError::Command(CommandError::NoSuchOption(option.name)),
        OptionError::Exists => EditError::Command(CommandError::OptionExists(option.name)),
        OptionError::BadType => EditError::Command(CommandError::BadValue),
        OptionError::BadValue => EditError::Command(CommandError::BadValue),
        OptionError::NoScope => EditError::Command(CommandError::NoSuchScope(option.scope)),
        OptionError::NoMemory => EditError::NoMemory,
    }
}

// The name of an option, without the word of a scope.
fn unscoped(alloc: Global, name: Utf8Text) -> OptionName
    ensures name { result.name ≡ name }
    ensures scope { result.scope ≡ [] }
{
    OptionName {
        scope: Utf8Text::of_string(String::new(alloc)),
        name,
    }
}

/// Declares an option. `OptionExists`, `BadValue` and want of memory leave the world.
pub(crate) fn declare<P: Pattern, T: Turn>(
    alloc: Global,
    world: &mut World<P, T>,
    declaration: Declaration,
) -> Result<(), EditError>
    ensures row { Answers result world.new.flat (declare_row declaration.kind declaration.name declaration.values world.old.flat) }
    ensures wanting { IsErrOf result NoMemory → world.new.flat ≡ world.old.flat }
{
    let Declaration { kind, name, values } = declaration;
    match world.declare_option(alloc, kind, name.as_str(), &values) {
        Ok(()) => Ok(()),
        Err(error) => Err(refusal_by(unscoped(alloc, name), error)),
    }
}

// By which name hooks hear that an option was set at a scope.
fn setting_name(scope: Scope) -> HookName
    ensures { result ≡ setting_name scope }
{
    match scope {
        Scope::Global => HookName::GlobalSetOption,
        Scope::Buffer(_) => HookName::BufSetOption,
        Scope::Window(_, _) => HookName::WinSetOption,
    }
}

// Writes words behind a text, with a space between each two.
fn push_spaced(text: &mut String, words: &Words) -> Result<(), AllocError>
    ensures { OnOk result (string_bytes text.new ≡ string_bytes text.old ++ spaced_texts words.now) }
{
    if words.len() == 0 {
        return Ok(());
    }
    text.push_str(words.get(0))?;
    for n in 1..words.len() {
        text.push_str(" ")?;
        text.push_str(words.get(n))?;
    }
    Ok(())
}

// A name, an equals sign and a value.
fn setting_text(
    alloc: Global,
    name: &str,
    value: Option<&OptionValue>,
) -> Result<String, AllocError>
    ensures { IfOk result (λ text. string_bytes text ≡ setting_text name.now (option_copied value.entry)) }
{
    let mut text = String::from_str(alloc, name)?;
    text.push_str("=")?;
    if let Some(value) = value {
        push_spaced(&mut text, &option_strings(alloc, value)?)?;
    }
    Ok(text)
}

// Has hooks hear that an option was set at a scope. An `Err` leaves the world, and comes only where a hook is held.
fn note_setting<P: Pattern, T: Turn>(
    alloc: Global,
    world: &mut World<P, T>,
    who: u32,
    scope: Scope,
    name: &str,
) -> Result<(), AllocError>
    requires { acts who world.old.flat ≡ true }
    ensures notes { OnOk result (world.new.flat ≡ option_modified scope name.now who world.old.flat) }
    ensures err { OnErr result (world.new.flat ≡ world.old.flat) }
    ensures held { OnErr result (has_hooks world.new.flat ≡ true) }
{
    if !world.has_hooks() {
        return Ok(());
    }
    let text = setting_text(alloc, name, world.options().seen(scope, name))?;
    let buffer = world.shown_number(who);
    world.note(alloc, setting_name(scope), text.as_str(), buffer)
}

/// Sets an option at a scope, which hooks hear. `NoSuchOption`, `NoSuchScope` and `BadValue` leave the world; behind want of memory
/// it may be set.
pub(crate) fn set<P: Pattern, T: Turn>(
    alloc: Global,
    world: &mut World<P, T>,
    who: u32,
    setting: SettingOrder,
) -> Result<(), EditError>
    requires { acts who world.old.flat ≡ true }
    ensures row { Answers result world.new.flat (set_option_row setting.add setting.option.scope setting.option.name setting.values who world.old.flat) }
    ensures wanting { IsErrOf result NoMemory → IsUnheard (set_option_row setting.add setting.option.scope setting.option.name setting.values who world.old.flat) world.old.flat world.new.flat }
{
    let SettingOrder {
        add,
        option,
        values,
    } = setting;
    if !is_declared(world, option.name.as_str()) {
        return Err(EditError::Command(CommandError::NoSuchOption(option.name)));
    }
    let Some(scope) = scope_named(option.scope.as_str(), world, who) else {
        return Err(EditError::Command(CommandError::NoSuchScope(option.scope)));
    };
    match world.set_option(alloc, scope, option.name.as_str(), &values, add) {
        Ok(()) => {
            note_setting(alloc, world, who, scope, option.name.as_str())?;
            Ok(())
        }
        Err(error) => Err(refusal_by(option, error)),
    }
}

/// Takes away what an option is set to at a scope. `NoSuchOption` and `NoSuchScope` leave the world.
pub(crate) fn unset<P: Pattern, T: Turn>(
    world: &mut World<P, T>,
    who: u32,
    option: OptionName,
) -> Result<(), EditError>
    requires { acts who world.old.flat ≡ true }
    ensures row { Answers result world.new.flat (unset_option_row option.scope option.name who world.old.flat) }
    ensures wanting { IsErrOf result NoMemory → world.new.flat ≡ world.old.flat }
{
    if !is_declared(world, option.name.as_str()) {
        return Err(EditError::Command(CommandError::NoSuchOption(option.name)));
    }
    let Some(scope) = scope_named(option.scope.as_str(), world, who) else {
        return Err(EditError::Command(CommandError::NoSuchScope(option.scope)));
    };
    match world.unset_option(scope, option.name.as_str()) {
        Ok(()) => Ok(()),
        Err(error) => Err(refusal_by(option, error)),
    }
}
