//! Faces of the places of a line: a ground of runs, and faces that are laid over it one behind the other.
#![tactic(auto)]

mod ground;
mod laws;
mod overlay;

pub use ground::{Ground, Over, Run};
pub use laws::worked_examples;
