//! Boxed user interfaces: what each was told and what it reports of that, and a board of them by number. A box is known
//! by its kind and by all that it was told, whatever it keeps of it.
#![tactic(auto)]

pub mod board;
pub mod json;
pub mod laws;
mod notes;
pub mod screen;
pub mod silent;
pub mod ui;

pub use board::Board;
pub use json::JsonUi;
pub use laws::{reports_add_up, seats_are_apart, worked_examples};
pub use screen::ScreenUi;
pub use silent::SilentUi;
pub use ui::{Kind, Ui};
