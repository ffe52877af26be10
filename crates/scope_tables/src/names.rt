//! The names of hooks.

ghost use Rattle.std.specs.Prelude.{◌≡◌};
ghost use Rattle.scope_tables.specs.Names.{name_text, hook_named, is_same_name};

/// What a hook is run on, by the names of the `hook` command.
#[derive(Clone, Copy, PartialEq, Eq, Debug)]
pub enum HookName {
    /// A key of normal mode.
    NormalKey,
    /// A key of insert mode.
    InsertKey,
    /// A character that was typed in insert mode.
    InsertChar,
    /// A change of mode.
    ModeChange,
    /// A buffer that was made.
    BufCreate,
    /// A buffer that was made of a file.
    BufOpenFile,
    /// A buffer that is about to be dropped.
    BufClose,
    /// A buffer that is about to be written.
    BufWritePre,
    /// A buffer that was written.
    BufWritePost,
    /// A buffer that a client came to show.
    WinDisplay,
    /// An option that was set globally.
    GlobalSetOption,
    /// An option that was set for a buffer.
    BufSetOption,
    /// An option that was set for a window.
    WinSetOption,
    /// A client that joined.
    ClientCreate,
    /// A client that is about to leave.
    ClientClose,
    /// A register that was set.
    RegisterModified,
}

/// The name as it is written.
pub fn name_text(name: HookName) -> &'static str
    ensures { result.now ≡ name_text name }
{
    match name {
        HookName::NormalKey => "NormalKey",
        HookName::InsertKey => "InsertKey",
        HookName::InsertChar => "InsertChar",
        HookName::ModeChange => "ModeChange",
        HookName::BufCreate => "BufCreate",
        HookName::BufOpenFile => "BufOpenFile",
        HookName::BufClose => "BufClose",
        HookName::BufWritePre => "BufWritePre",
        HookName::BufWritePost => "BufWritePost",
        HookName::WinDisplay => "WinDisplay",
        HookName::GlobalSetOption => "GlobalSetOption",
        HookName::BufSetOption => "BufSetOption",
        HookName::WinSetOption => "WinSetOption",
        HookName::ClientCreate => "ClientCreate",
        HookName::ClientClose => "ClientClose",
        HookName::RegisterModified => "RegisterModified",
    }
}

/// The name that a word is, if it is one.
pub fn hook_named(word: &str) -> Option<HookName>
    ensures { result ≡ hook_named word.now }
{
    match word {
        "NormalKey" => Some(HookName::NormalKey),
        "InsertKey" => Some(HookName::InsertKey),
        "InsertChar" => Some(HookName::InsertChar),
        "ModeChange" => Some(HookName::ModeChange),
        "BufCreate" => Some(HookName::BufCreate),
        "BufOpenFile" => Some(HookName::BufOpenFile),
        "BufClose" => Some(HookName::BufClose),
        "BufWritePre" => Some(HookName::BufWritePre),
        "BufWritePost" => Some(HookName::BufWritePost),
        "WinDisplay" => Some(HookName::WinDisplay),
        "GlobalSetOption" => Some(HookName::GlobalSetOption),
        "BufSetOption" => Some(HookName::BufSetOption),
        "WinSetOption" => Some(HookName::WinSetOption),
        "ClientCreate" => Some(HookName::ClientCreate),
        "ClientClose" => Some(HookName::ClientClose),
        "RegisterModified" => Some(HookName::RegisterModified),
        _ => None,
    }
}

/// Whether two names are one.
pub(crate) fn is_same_name(a: HookName, b: HookName) -> bool
    ensures { result ≡ is_same_name a b }
{
    a == b
}
