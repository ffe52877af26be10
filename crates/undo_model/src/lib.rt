//! The story of a buffer: its text, the undo tree of the texts that it was left with, and the changes that aren't in the tree
//! yet; edits at several places, and the selections that a move in the tree leaves. These are definitions (in `specs/`) and
//! laws (in `laws`), for the contracts of the crates above.
#![tactic(auto)]

pub mod laws;
pub mod travel;

pub use travel::Travel;

/// The most nodes that an undo tree may have.
pub const MAX_NODES: usize = 100_000;
