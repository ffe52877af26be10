//! What a command orders.

use crate::painters::HighlighterOrder;
use crate::places::Selection;
use crate::runs::{PlayOrder, TryOrder};
use crate::table_orders::TableOrder;
use byte_texts::{Utf8Text, Words};
use scope_options::OptionType;

/// What a command orders, with the words that it is about.
#[derive(Drop, Debug)]
pub enum Order {
    /// Nothing, as `nop` does.
    Nothing,
    /// Show the buffer of this name, or read the file.
    Edit(Utf8Text),
    /// Write the text to this file, or to the buffer's own.
    Write(Option<Utf8Text>),
    /// Write the text to the buffer's own file, and leave.
    WriteQuit,
    /// Leave, unless something wasn't written.
    Quit,
    /// Leave.
    QuitForced,
    /// Show the buffer of this name.
    Buffer(Utf8Text),
    /// Drop the buffer of this name, or the one that is shown, unless it wasn't written.
    Delete(Option<Utf8Text>),
    /// Drop the buffer of this name, or the one that is shown.
    DeleteForced(Option<Utf8Text>),
    /// Declare an option.
    Declare(Declaration),
    /// Set an option.
    Set(SettingOrder),
    /// Take away what an option is set to at a scope.
    Unset(OptionName),
    /// Set a register.
    SetRegister(RegisterValues),
    /// Select these ranges, of which the first is the main one.
    Select(Selection),
    /// Show these words.
    Echo(Words),
    /// Fail with this text.
    Fail(Option<Utf8Text>),
    /// Show a box, or hide it.
    Info(InfoTexts),
    /// Set a face.
    SetFace(FaceSetting),
    /// A face isn't set any more.
    UnsetFace(FaceName),
    /// Add or remove a highlighter.
    Highlighter(HighlighterOrder),
    /// Change a table of maps, aliases, defined commands or hooks.
    Table(TableOrder),
    /// Run keys.
    Play(PlayOrder),
    /// Run a text as commands.
    Eval(Utf8Text),
    /// Run a text as commands, and, where that fails, another one.
    Try(TryOrder),
}

/// An option that is to be declared, with the words of its value. Where the command had none, these are `0`, `false`,
/// an empty word, or no words for a list.
#[derive(Drop, Debug)]
pub struct Declaration {
    pub kind: OptionType,
    pub name: Utf8Text,
    pub values: Words,
}

/// An option with the word of a scope.
#[derive(Drop, Debug)]
pub struct OptionName {
    pub scope: Utf8Text,
    pub name: Utf8Text,
}

/// What an option is to be set to at a scope, or what is to be added to it there.
#[derive(Drop, Debug)]
pub struct SettingOrder {
    pub add: bool,
    pub option: OptionName,
    pub values: Words,
}

/// What a register is to be set to.
#[derive(Drop, Debug)]
pub struct RegisterValues {
    pub name: Utf8Text,
    pub values: Words,
}

/// The title of a box, which is empty where none was given, and what stands in it; without that the box is to be hidden.
#[derive(Drop, Debug)]
pub struct InfoTexts {
    pub title: Utf8Text,
    pub text: Option<Utf8Text>,
}

/// What a face is to be set to, with the word of a scope.
#[derive(Drop, Debug)]
pub struct FaceSetting {
    pub scope: Utf8Text,
    pub name: Utf8Text,
    pub face: Utf8Text,
}

/// A face with the word of a scope.
#[derive(Drop, Debug)]
pub struct FaceName {
    pub scope: Utf8Text,
    pub name: Utf8Text,
}
