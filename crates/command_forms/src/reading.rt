//! Reading the words of a command as an order: one small function for each command that takes more than a word.

ghost use Rattle.std.specs.Prelude.{◌≡◌, map, string_bytes, Ok, IfOk, IfErr};
ghost use Rattle.command_forms.specs.Orders.{type_named, empty_value, value_words, declaration, setting, unsetting, register_set, columns_of, selection, info, face_set, face_unset, order_by, order_after};
ghost use Rattle.command_forms.specs.Errors.{IsDue};

use crate::arguments::{headed, no_words, one_word, optional_word, paired, text_of, words_of};
use crate::describing::descriptions;
use crate::error::OrderError;
use crate::names::CommandName;
use crate::order::{
    Declaration, FaceName, FaceSetting, InfoTexts, OptionName, Order, RegisterValues, SettingOrder,
};
use crate::painters::{highlighter_added, highlighter_removed};
use crate::places::{Columns, Selection};
use crate::runs::{playing, trying};
use crate::switches::{Given, Owner, Switch, is_given, take_switches, word_or_empty};
use crate::table_orders::{
    aliasing, defining, hooking, hooks_removed, mapping, unaliasing, unmapping,
};
use byte_texts::Words;
use scope_options::OptionType;
use std::alloc::{AllocError, Global};

// The type that a word names.
fn type_named(word: &str) -> Option<OptionType>
    ensures { result ≡ type_named word.now }
{
    match word {
        "int" => Some(OptionType::Int),
        "bool" => Some(OptionType::Bool),
        "str" => Some(OptionType::Str),
        "str-list" => Some(OptionType::StrList),
        _ => None,
    }
}

// The words of the value that an option has where none is given.
fn empty_value(alloc: Global, kind: OptionType) -> Result<Words, AllocError>
    ensures { IfOk result (λ ws. ws ≡ empty_value kind) }
{
    let mut words = Words::new(alloc);
    match kind {
        OptionType::Int => words.push(String::from_str(alloc, "0")?)?,
        OptionType::Bool => words.push(String::from_str(alloc, "false")?)?,
        OptionType::Str => words.push(String::new(alloc))?,
        OptionType::StrList => {}
    }
    Ok(words)
}

// The words of a value: those that are given, if there are any.
fn value_words(alloc: Global, kind: OptionType, words: &[String]) -> Result<Words, AllocError>
    ensures { IfOk result (λ ws. ws ≡ value_words kind (map (λ w. string_bytes w) words.now)) }
{
    if words.is_empty() {
        return empty_value(alloc, kind);
    }
    words_of(alloc, words)
}

// Declaring takes a type, a name and the words of a value.
fn declaration(alloc: Global, words: &[String]) -> Result<Order, OrderError>
    ensures order { IfOk result (λ o. declaration (map (λ w. string_bytes w) words.now) ≡ Ok o) }
    ensures refused { IfErr result (λ e. IsDue e (declaration (map (λ w. string_bytes w) words.now))) }
{
    let (kind, name, values) = paired(words)?;
    let Some(kind) = type_named(kind.as_str()) else {
        return Err(OrderError::BadValue);
    };
    Ok(Order::Declare(Declaration {
        kind,
        name: text_of(alloc, name)?,
        values: value_words(alloc, kind, values)?,
    }))
}

// The name of an option with the word of a scope.
fn option_name(alloc: Global, scope: &String, name: &String) -> Result<OptionName, AllocError>
    ensures { IfOk result (λ o. o ≡ record { scope = string_bytes scope.now; name = string_bytes name.now }) }
{
    Ok(OptionName {
        scope: text_of(alloc, scope)?,
        name: text_of(alloc, name)?,
    })
}

// Setting takes a scope, a name and the words of a value.
fn setting(alloc: Global, add: bool, words: &[String]) -> Result<Order, OrderError>
    ensures order { IfOk result (λ o. setting add (map (λ w. string_bytes w) words.now) ≡ Ok o) }
    ensures refused { IfErr result (λ e. IsDue e (setting add (map (λ w. string_bytes w) words.now))) }
{
    let (scope, name, values) = paired(words)?;
    Ok(Order::Set(SettingOrder {
        add,
        option: option_name(alloc, scope, name)?,
        values: words_of(alloc, values)?,
    }))
}

// Unsetting takes a scope and a name.
fn unsetting(alloc: Global, words: &[String]) -> Result<Order, OrderError>
    ensures order { IfOk result (λ o. unsetting (map (λ w. string_bytes w) words.now) ≡ Ok o) }
    ensures refused { IfErr result (λ e. IsDue e (unsetting (map (λ w. string_bytes w) words.now))) }
{
    let (scope, name, more) = paired(words)?;
    no_words(Order::Unset(option_name(alloc, scope, name)?), more)
}

// Setting a register takes its name and its strings.
fn register_set(alloc: Global, words: &[String]) -> Result<Order, OrderError>
    ensures order { IfOk result (λ o. register_set (map (λ w. string_bytes w) words.now) ≡ Ok o) }
    ensures refused { IfErr result (λ e. IsDue e (register_set (map (λ w. string_bytes w) words.now))) }
{
    let (name, values) = headed(words)?;
    Ok(Order::SetRegister(RegisterValues {
        name: text_of(alloc, name)?,
        values: words_of(alloc, values)?,
    }))
}

// What the columns of a selection count: bytes, unless the switch says characters.
fn columns_of(given: &[Given]) -> Columns
    ensures { result ≡ columns_of given.now }
{
    if is_given(Switch::Codepoint, given) {
        return Columns::Characters;
    }
    Columns::Bytes
}

// Selecting takes descriptions, one at least.
fn selection(alloc: Global, columns: Columns, words: &[String]) -> Result<Order, OrderError>
    ensures order { IfOk result (λ o. selection columns (map (λ w. string_bytes w) words.now) ≡ Ok o) }
    ensures refused { IfErr result (λ e. IsDue e (selection columns (map (λ w. string_bytes w) words.now))) }
{
    if words.is_empty() {
        return Err(OrderError::WrongArgumentCount);
    }
    let ranges = descriptions(alloc, words)?;
    Ok(Order::Select(Selection { columns, ranges }))
}

// A box takes a text or none.
fn info(alloc: Global, given: &[Given], words: &[String]) -> Result<Order, OrderError>
    ensures order { IfOk result (λ o. info given.now (map (λ w. string_bytes w) words.now) ≡ Ok o) }
    ensures refused { IfErr result (λ e. IsDue e (info given.now (map (λ w. string_bytes w) words.now))) }
{
    Ok(Order::Info(InfoTexts {
        text: optional_word(alloc, words)?,
        title: word_or_empty(alloc, Switch::Title, given)?,
    }))
}

// Setting a face takes a scope, a name and a face.
fn face_set(alloc: Global, words: &[String]) -> Result<Order, OrderError>
    ensures order { IfOk result (λ o. face_set (map (λ w. string_bytes w) words.now) ≡ Ok o) }
    ensures refused { IfErr result (λ e. IsDue e (face_set (map (λ w. string_bytes w) words.now))) }
{
    let (scope, name, more) = paired(words)?;
    Ok(Order::SetFace(FaceSetting {
        face: one_word(alloc, more)?,
        scope: text_of(alloc, scope)?,
        name: text_of(alloc, name)?,
    }))
}

// Unsetting one takes a scope and a name.
fn face_unset(alloc: Global, words: &[String]) -> Result<Order, OrderError>
    ensures order { IfOk result (λ o. face_unset (map (λ w. string_bytes w) words.now) ≡ Ok o) }
    ensures refused { IfErr result (λ e. IsDue e (face_unset (map (λ w. string_bytes w) words.now))) }
{
    let (scope, name, more) = paired(words)?;
    let face = FaceName {
        scope: text_of(alloc, scope)?,
        name: text_of(alloc, name)?,
    };
    no_words(Order::UnsetFace(face), more)
}

// The order of a command, by the switches that it was given and its other words.
fn order_by(
    alloc: Global,
    name: CommandName,
    given: &[Given],
    words: &[String],
) -> Result<Order, OrderError>
    ensures order { IfOk result (λ o. order_by name given.now (map (λ w. string_bytes w) words.now) ≡ Ok o) }
    ensures refused { IfErr result (λ e. IsDue e (order_by name given.now (map (λ w. string_bytes w) words.now))) }
{
    match name {
        CommandName::Edit => Ok(Order::Edit(one_word(alloc, words)?)),
        CommandName::Write => Ok(Order::Write(optional_word(alloc, words)?)),
        CommandName::WriteQuit => no_words(Order::WriteQuit, words),
        CommandName::Quit => no_words(Order::Quit, words),
        CommandName::QuitForced => no_words(Order::QuitForced, words),
        CommandName::Buffer => Ok(Order::Buffer(one_word(alloc, words)?)),
        CommandName::Delete => Ok(Order::Delete(optional_word(alloc, words)?)),
        CommandName::DeleteForced => Ok(Order::DeleteForced(optional_word(alloc, words)?)),
        CommandName::Declare => declaration(alloc, words),
        CommandName::Set => setting(alloc, is_given(Switch::Add, given), words),
        CommandName::Unset => unsetting(alloc, words),
        CommandName::SetRegister => register_set(alloc, words),
        CommandName::Select => selection(alloc, columns_of(given), words),
        CommandName::Echo => Ok(Order::Echo(words_of(alloc, words)?)),
        CommandName::Fail => Ok(Order::Fail(optional_word(alloc, words)?)),
        CommandName::Nop => no_words(Order::Nothing, words),
        CommandName::Info => info(alloc, given, words),
        CommandName::SetFace => face_set(alloc, words),
        CommandName::UnsetFace => face_unset(alloc, words),
        CommandName::AddHighlighter => highlighter_added(alloc, given, words),
        CommandName::RemoveHighlighter => highlighter_removed(alloc, words),
        CommandName::Map => Ok(Order::Table(mapping(alloc, words)?)),
        CommandName::Unmap => Ok(Order::Table(unmapping(alloc, words)?)),
        CommandName::Alias => Ok(Order::Table(aliasing(alloc, words)?)),
        CommandName::Unalias => Ok(Order::Table(unaliasing(alloc, words)?)),
        CommandName::Define => Ok(Order::Table(defining(alloc, given, words)?)),
        CommandName::Hook => Ok(Order::Table(hooking(alloc, given, words)?)),
        CommandName::RemoveHooks => Ok(Order::Table(hooks_removed(alloc, words)?)),
        CommandName::ExecuteKeys => playing(alloc, given, words),
        CommandName::Evaluate => Ok(Order::Eval(one_word(alloc, words)?)),
        CommandName::Try => trying(alloc, words),
    }
}

/// The order of a command, by the words behind its name. A word before the others that begins with a dash is a switch, and
/// `--` ends the switches. The errors are, in this order, `UnknownSwitch`, `WrongArgumentCount` or `BadValue` for the first
/// switch that is wrong, `WrongArgumentCount` for the number of other words, and `BadValue`, `NoSuchHighlighter` or
/// `BadSelection` for what these are. Of a highlighter the type is judged first, and then what stands behind it in the same
/// way. `NoMemory` may come at any time.
pub fn read_order_of(
    alloc: Global,
    name: CommandName,
    words: &[String],
) -> Result<Order, OrderError>
    ensures order { IfOk result (λ o. order_after name (map (λ w. string_bytes w) words.now) ≡ Ok o) }
    ensures refused { IfErr result (λ e. IsDue e (order_after name (map (λ w. string_bytes w) words.now))) }
{
    let arguments = take_switches(alloc, Owner::Command(name), words)?;
    order_by(alloc, name, arguments.given.as_slice(), arguments.words)
}
