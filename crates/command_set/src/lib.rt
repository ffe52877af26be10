//! The commands: one row for each; and what is made of the patterns that keys and commands ask for.
#![tactic(auto)]

mod boxes;
pub mod buffers;
pub mod commands;
mod expansions;
mod faces;
pub mod files;
pub mod finishing;
mod hooking;
pub mod laws;
mod options;
mod painters;
mod painting;
mod registers;
mod running;
mod selecting;
mod session_tables;
mod value_names;

pub use buffers::go_later;
pub use commands::{command, read, run_command};
pub use files::{bytes_saved, note_saved, open_read};
pub use finishing::finish;
