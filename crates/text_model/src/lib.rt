//! Texts, coordinates and single changes of a text: the plain structs that the code passes round, the limits, and the
//! definitions (in `specs/`) and laws (in `laws`) that the contracts of the crates above speak of.
#![tactic(auto)]

mod coords;
pub mod laws;

pub use coords::{Coord, Shift};

/// The most characters that a text may have.
pub const MAX_CHARS: usize = 16_777_216;

/// The most selections that a list of them may have.
pub const MAX_SELECTIONS: usize = 262_144;
