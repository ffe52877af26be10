//! Maps, aliases, defined commands and hooks, as commands order them.

ghost use Rattle.std.specs.Prelude.{◌≡◌, map, string_bytes, Ok, IfOk, IfErr};
ghost use Rattle.command_forms.specs.TableOrders.{mapping, unmapping, aliasing, unaliasing, defining, hooking, hooks_removed};
ghost use Rattle.command_forms.specs.Errors.{IsDue};

use crate::arguments::{no_words, one_word, paired, text_of};
use crate::error::OrderError;
use crate::parameters::{Allowed, allowed_given};
use crate::switches::{Given, Switch, is_given, word_or_empty};
use byte_texts::Utf8Text;
use std::alloc::Global;

/// What is to be changed in the tables. Scopes, modes, names of hooks and keys aren't read yet.
#[derive(Drop, Debug)]
pub enum TableOrder {
    /// Have a key stand for others.
    Map(KeyMapping),
    /// A key stands for no others any more.
    Unmap(KeyName),
    /// Have a word stand for a command.
    Alias(AliasWords),
    /// A word stands for no command any more.
    Unalias(AliasName),
    /// Define a command.
    Define(CommandTexts),
    /// Add a hook.
    Hook(HookWords),
    /// Remove the hooks of a group.
    RemoveHooks(HookGroup),
}

/// A key, in a mode and at a scope, and the keys that it is to stand for.
#[derive(Drop, Debug)]
pub struct KeyMapping {
    pub scope: Utf8Text,
    pub mode: Utf8Text,
    pub key: Utf8Text,
    pub keys: Utf8Text,
}

/// A key, in a mode and at a scope.
#[derive(Drop, Debug)]
pub struct KeyName {
    pub scope: Utf8Text,
    pub mode: Utf8Text,
    pub key: Utf8Text,
}

/// A word, at a scope, and the command that it is to stand for.
#[derive(Drop, Debug)]
pub struct AliasWords {
    pub scope: Utf8Text,
    pub word: Utf8Text,
    pub command: Utf8Text,
}

/// A word, at a scope.
#[derive(Drop, Debug)]
pub struct AliasName {
    pub scope: Utf8Text,
    pub word: Utf8Text,
}

/// A command that is to be defined: its name, how many parameters it may be given, and the commands that it runs.
#[derive(Drop, Debug)]
pub struct CommandTexts {
    pub name: Utf8Text,
    pub allowed: Allowed,
    pub commands: Utf8Text,
}

/// A hook that is to be added at a scope.
#[derive(Drop, Debug)]
pub struct HookWords {
    pub scope: Utf8Text,
    pub name: Utf8Text,
    pub pattern: Utf8Text,
    pub commands: Utf8Text,
    /// The group by which it may be removed; empty where it is given none.
    pub group: Utf8Text,
    /// Whether it is removed before it is run.
    pub once: bool,
}

/// The hooks of a group, at a scope.
#[derive(Drop, Debug)]
pub struct HookGroup {
    pub scope: Utf8Text,
    pub group: Utf8Text,
}

/// Mapping takes a scope, a mode, a key and keys.
pub(crate) fn mapping(alloc: Global, words: &[String]) -> Result<TableOrder, OrderError>
    ensures order { IfOk result (λ o. mapping (map (λ w. string_bytes w) words.now) ≡ Ok o) }
    ensures refused { IfErr result (λ e. IsDue e (mapping (map (λ w. string_bytes w) words.now))) }
{
    let (scope, mode, more) = paired(words)?;
    let (key, keys, more) = paired(more)?;
    let mapping = KeyMapping {
        scope: text_of(alloc, scope)?,
        mode: text_of(alloc, mode)?,
        key: text_of(alloc, key)?,
        keys: text_of(alloc, keys)?,
    };
    no_words(TableOrder::Map(mapping), more)
}

/// Unmapping takes a scope, a mode and a key.
pub(crate) fn unmapping(alloc: Global, words: &[String]) -> Result<TableOrder, OrderError>
    ensures order { IfOk result (λ o. unmapping (map (λ w. string_bytes w) words.now) ≡ Ok o) }
    ensures refused { IfErr result (λ e. IsDue e (unmapping (map (λ w. string_bytes w) words.now))) }
{
    let (scope, mode, more) = paired(words)?;
    Ok(TableOrder::Unmap(KeyName {
        key: one_word(alloc, more)?,
        scope: text_of(alloc, scope)?,
        mode: text_of(alloc, mode)?,
    }))
}

/// An alias takes a scope, a word and a command.
pub(crate) fn aliasing(alloc: Global, words: &[String]) -> Result<TableOrder, OrderError>
    ensures order { IfOk result (λ o. aliasing (map (λ w. string_bytes w) words.now) ≡ Ok o) }
    ensures refused { IfErr result (λ e. IsDue e (aliasing (map (λ w. string_bytes w) words.now))) }
{
    let (scope, word, more) = paired(words)?;
    Ok(TableOrder::Alias(AliasWords {
        command: one_word(alloc, more)?,
        scope: text_of(alloc, scope)?,
        word: text_of(alloc, word)?,
    }))
}

/// Taking an alias away takes a scope and a word.
pub(crate) fn unaliasing(alloc: Global, words: &[String]) -> Result<TableOrder, OrderError>
    ensures order { IfOk result (λ o. unaliasing (map (λ w. string_bytes w) words.now) ≡ Ok o) }
    ensures refused { IfErr result (λ e. IsDue e (unaliasing (map (λ w. string_bytes w) words.now))) }
{
    let (scope, word, more) = paired(words)?;
    let alias = AliasName {
        scope: text_of(alloc, scope)?,
        word: text_of(alloc, word)?,
    };
    no_words(TableOrder::Unalias(alias), more)
}

/// Defining takes a name and commands.
pub(crate) fn defining(
    alloc: Global,
    given: &[Given],
    words: &[String],
) -> Result<TableOrder, OrderError>
    ensures order { IfOk result (λ o. defining given.now (map (λ w. string_bytes w) words.now) ≡ Ok o) }
    ensures refused { IfErr result (λ e. IsDue e (defining given.now (map (λ w. string_bytes w) words.now))) }
{
    let (name, commands, more) = paired(words)?;
    let definition = CommandTexts {
        name: text_of(alloc, name)?,
        allowed: allowed_given(given),
        commands: text_of(alloc, commands)?,
    };
    no_words(TableOrder::Define(definition), more)
}

/// A hook takes a scope, the name of its event, a pattern and commands.
pub(crate) fn hooking(
    alloc: Global,
    given: &[Given],
    words: &[String],
) -> Result<TableOrder, OrderError>
    ensures order { IfOk result (λ o. hooking given.now (map (λ w. string_bytes w) words.now) ≡ Ok o) }
    ensures refused { IfErr result (λ e. IsDue e (hooking given.now (map (λ w. string_bytes w) words.now))) }
{
    let (scope, name, more) = paired(words)?;
    let (pattern, commands, more) = paired(more)?;
    let hook = HookWords {
        scope: text_of(alloc, scope)?,
        name: text_of(alloc, name)?,
        pattern: text_of(alloc, pattern)?,
        commands: text_of(alloc, commands)?,
        group: word_or_empty(alloc, Switch::Group, given)?,
        once: is_given(Switch::Once, given),
    };
    no_words(TableOrder::Hook(hook), more)
}

/// Removing hooks takes a scope and a group.
pub(crate) fn hooks_removed(alloc: Global, words: &[String]) -> Result<TableOrder, OrderError>
    ensures order { IfOk result (λ o. hooks_removed (map (λ w. string_bytes w) words.now) ≡ Ok o) }
    ensures refused { IfErr result (λ e. IsDue e (hooks_removed (map (λ w. string_bytes w) words.now))) }
{
    let (scope, group, more) = paired(words)?;
    let hooks = HookGroup {
        scope: text_of(alloc, scope)?,
        group: text_of(alloc, group)?,
    };
    no_words(TableOrder::RemoveHooks(hooks), more)
}
