//! What the keys of several modes do, as rows of the world: to each selection by itself, with registers, and to the text.
#![tactic(auto)]

pub mod each;
pub mod edits;
pub mod entries;
pub mod laws;
pub mod leaving;
pub mod naming;
pub mod patterns;
pub mod playing;
pub mod reading;
pub mod shapes;

pub use each::{Each, Extent, change_each};
pub use edits::{Edit, edit_texts, fill, put};
pub use entries::{InsertEntry, enter_insert};
pub use leaving::edit_leaving;
pub use naming::register_named;
pub use patterns::{Bounds, ask_for_last, remember_main};
pub use playing::{play_text, run_macro};
pub use reading::{joined_text, keep, register_puts, register_strings, register_text, string_of};
pub use shapes::Shape;
