//! The names of commands.

ghost use Rattle.std.specs.Prelude.{◌≡◌};
ghost use Rattle.command_forms.specs.Names.{full_name, alias_of, named};

/// The commands that there are.
#[derive(Clone, Copy, PartialEq, Eq, Debug)]
pub enum CommandName {
    Edit,
    Write,
    WriteQuit,
    Quit,
    QuitForced,
    Buffer,
    Delete,
    DeleteForced,
    Declare,
    Set,
    Unset,
    SetRegister,
    Select,
    Echo,
    Fail,
    Nop,
    Info,
    SetFace,
    UnsetFace,
    AddHighlighter,
    RemoveHighlighter,
    Map,
    Unmap,
    Alias,
    Unalias,
    Define,
    Hook,
    RemoveHooks,
    ExecuteKeys,
    Evaluate,
    Try,
}

// The command of a whole name.
fn full_name(word: &str) -> Option<CommandName>
    ensures { result ≡ full_name word.now }
{
    match word {
        "edit" => Some(CommandName::Edit),
        "write" => Some(CommandName::Write),
        "write-quit" => Some(CommandName::WriteQuit),
        "quit" => Some(CommandName::Quit),
        "quit!" => Some(CommandName::QuitForced),
        "buffer" => Some(CommandName::Buffer),
        "delete-buffer" => Some(CommandName::Delete),
        "delete-buffer!" => Some(CommandName::DeleteForced),
        "declare-option" => Some(CommandName::Declare),
        "set-option" => Some(CommandName::Set),
        "unset-option" => Some(CommandName::Unset),
        "set-register" => Some(CommandName::SetRegister),
        "select" => Some(CommandName::Select),
        "echo" => Some(CommandName::Echo),
        "fail" => Some(CommandName::Fail),
        "nop" => Some(CommandName::Nop),
        "info" => Some(CommandName::Info),
        "set-face" => Some(CommandName::SetFace),
        "unset-face" => Some(CommandName::UnsetFace),
        "add-highlighter" => Some(CommandName::AddHighlighter),
        "remove-highlighter" => Some(CommandName::RemoveHighlighter),
        "map" => Some(CommandName::Map),
        "unmap" => Some(CommandName::Unmap),
        "alias" => Some(CommandName::Alias),
        "unalias" => Some(CommandName::Unalias),
        "define-command" => Some(CommandName::Define),
        "hook" => Some(CommandName::Hook),
        "remove-hooks" => Some(CommandName::RemoveHooks),
        "execute-keys" => Some(CommandName::ExecuteKeys),
        "evaluate-commands" => Some(CommandName::Evaluate),
        "try" => Some(CommandName::Try),
        _ => None,
    }
}

// The command of a short name.
fn alias_of(word: &str) -> Option<CommandName>
    ensures { result ≡ alias_of word.now }
{
    match word {
        "e" => Some(CommandName::Edit),
        "w" => Some(CommandName::Write),
        "wq" => Some(CommandName::WriteQuit),
        "q" => Some(CommandName::Quit),
        "q!" => Some(CommandName::QuitForced),
        "b" => Some(CommandName::Buffer),
        "db" => Some(CommandName::Delete),
        "db!" => Some(CommandName::DeleteForced),
        "decl" => Some(CommandName::Declare),
        "set" => Some(CommandName::Set),
        "unset" => Some(CommandName::Unset),
        "reg" => Some(CommandName::SetRegister),
        "face" => Some(CommandName::SetFace),
        "addhl" => Some(CommandName::AddHighlighter),
        "rmhl" => Some(CommandName::RemoveHighlighter),
        "def" => Some(CommandName::Define),
        "rmhooks" => Some(CommandName::RemoveHooks),
        "exec" => Some(CommandName::ExecuteKeys),
        "eval" => Some(CommandName::Evaluate),
        _ => None,
    }
}

/// The command that a word names, by its whole name or a short one; none where it names none.
pub fn command_named(word: &str) -> Option<CommandName>
    ensures { result ≡ named word.now }
{
    match full_name(word) {
        Some(name) => Some(name),
        None => alias_of(word),
    }
}
