//! The motions of selections: each call gives where a motion leads, or nothing where it finds no place.
#![tactic(auto)]

mod bracket_kinds;
pub mod bracket_moves;
pub mod char_moves;
pub mod finding;
pub mod jump_laws;
pub mod landmarks;
pub mod laws;
pub mod moves;
pub mod place_moves;
pub mod searching;
pub mod word_laws;
pub mod words;

pub use bracket_moves::bracket;
pub use char_moves::{CharSearch, Until, to_char};
pub use finding::{Motion, Reach, find, moved};
pub use landmarks::{LinePart, Place};
pub use moves::{step, vertical};
pub use place_moves::place;
pub use searching::{Test, nearest};
pub use words::{WordKind, WordMove, word};
