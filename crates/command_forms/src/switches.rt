//! The switches of commands, and of one type of highlighters: words before all others that begin with a dash.

ghost use Rattle.std.specs.Prelude.{◌≡◌, ◌==◌, ◌++◌, ◌∷◌, [], map, string_bytes, slice_index, unwrap_or, Ok, None, IfOk, IfErr, OnOk};
ghost use Rattle.std.specs.Option.{option_copied};
ghost use Rattle.std.specs.List.{list_any};
ghost use Rattle.command_forms.specs.Switches.{begins_dash, switch_named, declare_switch, define_switch, hook_switch, keys_switch, number_switch, command_switch, takes_word, is_good, switch_number, is_same_switch, is_given, word_given, word_or_empty, taken, AreSwitchesTaken};
ghost use Rattle.command_forms.specs.Errors.{IsDue};

use crate::error::OrderError;
use crate::names::CommandName;
use crate::parameters::allowed_of;
use byte_texts::Utf8Text;
use std::alloc::{AllocError, Global};

/// The switches that there are.
#[derive(Clone, Copy, PartialEq, Eq, Debug)]
pub enum Switch {
    Hidden,
    Docstring,
    Add,
    Codepoint,
    Title,
    Override,
    HlCursor,
    Separator,
    Group,
    Once,
    Always,
    Params,
    WithHooks,
    WithMaps,
}

/// What has switches: a command, or the type of highlighters that number lines.
#[derive(Clone, Copy, PartialEq, Eq, Debug)]
pub enum Owner {
    Command(CommandName),
    NumberLines,
}

/// A switch that was given, with the word that goes with it, which is empty where none does.
#[derive(Drop, Debug)]
pub struct Given {
    pub switch: Switch,
    pub word: Utf8Text,
}

/// The switches that were given, and the other words.
#[derive(Drop)]
pub(crate) struct Arguments<'a> {
    pub given: Vec<Given>,
    pub words: &'a [String],
}

// Whether a word begins with a dash.
fn begins_dash(word: &str) -> bool
    ensures { result ≡ begins_dash word.now }
{
    match word.as_bytes().first() {
        Some(c) => *c == b'-',
        None => false,
    }
}

// The switch of the command that declares options.
fn declare_switch(word: &str) -> Option<Switch>
    ensures { result ≡ declare_switch word.now }
{
    match word {
        "-hidden" => Some(Switch::Hidden),
        "-docstring" => Some(Switch::Docstring),
        _ => None,
    }
}

// The switch of the command that defines commands.
fn define_switch(word: &str) -> Option<Switch>
    ensures { result ≡ define_switch word.now }
{
    match word {
        "-override" => Some(Switch::Override),
        "-hidden" => Some(Switch::Hidden),
        "-docstring" => Some(Switch::Docstring),
        "-params" => Some(Switch::Params),
        _ => None,
    }
}

// The switch of the command that adds hooks.
fn hook_switch(word: &str) -> Option<Switch>
    ensures { result ≡ hook_switch word.now }
{
    match word {
        "-group" => Some(Switch::Group),
        "-once" => Some(Switch::Once),
        "-always" => Some(Switch::Always),
        _ => None,
    }
}

// The switch of the command that runs keys.
fn keys_switch(word: &str) -> Option<Switch>
    ensures { result ≡ keys_switch word.now }
{
    match word {
        "-with-hooks" => Some(Switch::WithHooks),
        "-with-maps" => Some(Switch::WithMaps),
        _ => None,
    }
}

// The switch of highlighters that number lines.
fn number_switch(word: &str) -> Option<Switch>
    ensures { result ≡ number_switch word.now }
{
    match word {
        "-hlcursor" => Some(Switch::HlCursor),
        "-separator" => Some(Switch::Separator),
        _ => None,
    }
}

// The switch that a word is for a command, if it has that one.
fn command_switch(name: CommandName, word: &str) -> Option<Switch>
    ensures { result ≡ command_switch name word.now }
{
    match name {
        CommandName::Declare => declare_switch(word),
        CommandName::Define => define_switch(word),
        CommandName::Hook => hook_switch(word),
        CommandName::ExecuteKeys => keys_switch(word),
        CommandName::Set if word == "-add" => Some(Switch::Add),
        CommandName::Select if word == "-codepoint" => Some(Switch::Codepoint),
        CommandName::Info if word == "-title" => Some(Switch::Title),
        CommandName::AddHighlighter if word == "-override" => Some(Switch::Override),
        CommandName::Map if word == "-docstring" => Some(Switch::Docstring),
        _ => None,
    }
}

// The switch that a word is, if there is that one.
fn switch_named(owner: Owner, word: &str) -> Option<Switch>
    ensures { result ≡ switch_named owner word.now }
{
    match owner {
        Owner::Command(name) => command_switch(name, word),
        Owner::NumberLines => number_switch(word),
    }
}

// Whether a word goes with a switch.
fn takes_word(switch: Switch) -> bool
    ensures { result ≡ takes_word switch }
{
    matches!(
        switch,
        Switch::Docstring | Switch::Title | Switch::Separator | Switch::Group | Switch::Params
    )
}

// Whether a word may go with a switch.
fn is_good(switch: Switch, word: &str) -> bool
    ensures { result ≡ is_good switch word.now }
{
    match switch {
        Switch::Params => allowed_of(word).is_some(),
        _ => true,
    }
}

// The number of a switch.
fn switch_number(switch: Switch) -> u8
    ensures { result ≡ switch_number switch }
{
    match switch {
        Switch::Hidden => 0,
        Switch::Docstring => 1,
        Switch::Add => 2,
        Switch::Codepoint => 3,
        Switch::Title => 4,
        Switch::Override => 5,
        Switch::HlCursor => 6,
        Switch::Separator => 7,
        Switch::Group => 8,
        Switch::Once => 9,
        Switch::Always => 10,
        Switch::Params => 11,
        Switch::WithHooks => 12,
        Switch::WithMaps => 13,
    }
}

// Whether two switches are one.
fn is_same_switch(a: Switch, b: Switch) -> bool
    ensures { result ≡ is_same_switch a b }
{
    switch_number(a) == switch_number(b)
}

/// Whether a switch was given.
pub(crate) fn is_given(switch: Switch, given: &[Given]) -> bool
    ensures { result ≡ is_given switch given.now }
{
    given.iter().any(|g| is_same_switch(g.switch, switch))
}

/// The word that went with a switch where it was given last.
pub(crate) fn word_given(switch: Switch, given: &[Given]) -> Option<&Utf8Text>
    ensures { option_copied result ≡ word_given switch given.now }
{
    let mut found = None;
    for g in given {
        if is_same_switch(g.switch, switch) {
            found = Some(&g.word);
        }
    }
    found
}

/// A copy of the word that went with a switch, or an empty one.
pub(crate) fn word_or_empty(
    alloc: Global,
    switch: Switch,
    given: &[Given],
) -> Result<Utf8Text, AllocError>
    ensures { IfOk result (λ t. t ≡ word_or_empty switch given.now) }
{
    match word_given(switch, given) {
        Some(word) => Utf8Text::from_str(alloc, word.as_str()),
        None => Ok(Utf8Text::of_string(String::new(alloc))),
    }
}

// Adds a switch with a word.
fn push_switch(
    alloc: Global,
    given: &mut Vec<Given>,
    switch: Switch,
    word: &str,
) -> Result<(), AllocError>
    ensures { OnOk result (given.new.items ≡ given.old.items ++ record { switch = switch; word = word.now } ∷ []) }
{
    let word = Utf8Text::from_str(alloc, word)?;
    given.push(Given { switch, word })?;
    Ok(())
}

/// Takes the switches off words. The first switch that is wrong is refused: by `UnknownSwitch`, by `WrongArgumentCount`,
/// where it lacks its word, or by `BadValue`, where that word may not go with it.
pub(crate) fn take_switches<'a>(
    alloc: Global,
    owner: Owner,
    words: &'a [String],
) -> Result<Arguments<'a>, OrderError>
    ensures taken { IfOk result (λ a. AreSwitchesTaken owner (map (λ w. string_bytes w) words.now) a.given.items (map (λ w. string_bytes w) a.words.now)) }
    ensures refused { IfErr result (λ e. IsDue e (taken owner None (map (λ w. string_bytes w) words.now))) }
{
    let mut given = Vec::new(alloc);
    let mut waiting: Option<Switch> = None;
    for (i, word) in words.iter().enumerate() {
        if let Some(switch) = waiting {
            if !is_good(switch, word.as_str()) {
                return Err(OrderError::BadValue);
            }
            push_switch(alloc, &mut given, switch, word.as_str())?;
            waiting = None;
            continue;
        }
        if !begins_dash(word.as_str()) {
            let (_, rest) = words.split_at(i);
            return Ok(Arguments { given, words: rest });
        }
        if word.as_str() == "--" {
            let (_, rest) = words.split_at(i + 1);
            return Ok(Arguments { given, words: rest });
        }
        let Some(switch) = switch_named(owner, word.as_str()) else {
            let word = Utf8Text::from_str(alloc, word.as_str())?;
            return Err(OrderError::UnknownSwitch(word));
        };
        if takes_word(switch) {
            waiting = Some(switch);
            continue;
        }
        push_switch(alloc, &mut given, switch, "")?;
    }
    if waiting.is_some() {
        return Err(OrderError::WrongArgumentCount);
    }
    let (_, rest) = words.split_at(words.len());
    Ok(Arguments { given, words: rest })
}
