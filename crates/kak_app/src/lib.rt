//! The whole of the programs `kak`, for one client (`kak -ui json [file]`) and for a generated session (`kak gen CLIENTS KEYS SEED`),
//! and `kakreplay`.
#![tactic(auto)]

pub mod examples;
pub mod generating;
pub mod laws;
pub mod limits;
mod parting;
pub mod program;
pub mod replaying;

pub use program::{Status, run};
pub use replaying::{MAX_UIS, replay};
