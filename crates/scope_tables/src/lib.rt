//! Hooks, key maps, aliases and defined commands: the tables by which events, keys and words stand for commands and keys,
//! globally, for a buffer or for a window.
#![tactic(auto)]

pub mod aliases;
pub mod definitions;
pub mod hooks;
mod keys;
pub mod laws;
pub mod maps;
pub mod names;
mod scopes;
pub mod session_tables;
mod whole;

pub use aliases::Alias;
pub use definitions::{Definition, ParameterCount};
pub use hooks::{HookRef, HookRow, MAX_SCOPE_HOOKS};
pub use laws::{
    hook_examples, hooks_are_found, keys_are_apart, names_are_apart, rows_are_apart,
    whole_examples, worked_examples,
};
pub use maps::{KeyMap, Mode};
pub use names::{HookName, hook_named, name_text};
pub use session_tables::{TableError, Tables};
