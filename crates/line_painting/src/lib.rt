//! What a window shows of a text with selections: which cells of a line are in it, how each character is drawn there
//! and in which face, over the faces of its ground, which numbers stand before it, and the characters of one face as atoms.
#![tactic(auto)]

mod atoms;
mod cells;
mod growing;
mod laws;
mod numbers;
mod overs;
pub mod scene;
mod stretches;
mod window_lines;

pub use atoms::{push_run, push_shown};
pub use laws::{atoms_are_runs, plain_lines_are_cut, windows_show_cells, worked_examples};
pub use scene::{Scene, WindowFrame, part_in, text_part};
pub use window_lines::draw_lines;
