//! The names of expansions and values.

ghost use Rattle.std.specs.Prelude.{◌≡◌};
ghost use Rattle.command_set.specs.Expanding.{kind_named, value_named};

/// What an expansion is of.
#[derive(Clone, Copy, PartialEq, Eq, Debug)]
pub enum Kind {
    Value,
    Option,
    Register,
    Argument,
}

/// The kind of a name, if there is one.
pub(crate) fn kind_named(name: &str) -> Option<Kind>
    ensures { result ≡ kind_named name.now }
{
    match name {
        "val" => Some(Kind::Value),
        "opt" => Some(Kind::Option),
        "reg" => Some(Kind::Register),
        "arg" => Some(Kind::Argument),
        _ => None,
    }
}

/// A value that `%val` stands for, of a client in the buffer that it sees.
#[derive(Clone, Copy, PartialEq, Eq, Debug)]
pub enum ValueName {
    /// The buffer's name, which is its file's.
    BufferName,
    /// The client's name.
    Client,
    /// The line of the main cursor, from 1.
    CursorLine,
    /// Its column in bytes, from 1.
    CursorColumn,
    /// Its column in characters, from 1.
    CursorCharColumn,
    /// The text of the main selection.
    Selection,
    /// The texts of all selections, in order.
    Selections,
    /// The main selection, as it is described.
    Description,
    /// All selections, as they are described, from the main one on, round the end.
    Descriptions,
    /// How many selections there are.
    Count,
    /// Whether the buffer's text may differ from what was saved.
    Modified,
}

/// The value of a name, if there is one.
pub(crate) fn value_named(name: &str) -> Option<ValueName>
    ensures { result ≡ value_named name.now }
{
    match name {
        "bufname" => Some(ValueName::BufferName),
        "buffile" => Some(ValueName::BufferName),
        "client" => Some(ValueName::Client),
        "cursor_line" => Some(ValueName::CursorLine),
        "cursor_column" => Some(ValueName::CursorColumn),
        "cursor_char_column" => Some(ValueName::CursorCharColumn),
        "selection" => Some(ValueName::Selection),
        "selections" => Some(ValueName::Selections),
        "selection_desc" => Some(ValueName::Description),
        "selections_desc" => Some(ValueName::Descriptions),
        "selection_count" => Some(ValueName::Count),
        "modified" => Some(ValueName::Modified),
        _ => None,
    }
}
