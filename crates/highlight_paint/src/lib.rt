//! Highlighters by scope and path, and the faces that they lay over the lines of a text: at each place of a line those of
//! the global ones, then of the buffer's, then of the window's, each in the order in which they were added.
#![tactic(auto)]

mod brushes;
pub mod highlighters;
pub mod laws;
mod line_texts;
mod matches;
pub mod numbering;
pub mod numbers;
pub mod painter;
pub mod painting;
mod paths;
mod rows;
mod scopes;
mod walking;

pub use highlighters::{Highlighters, PaintError};
pub use laws::{highlighter_examples, match_examples, paths_are_apart, worked_examples};
pub use numbering::LineNumbers;
pub use painter::{GroupFace, Painter};
pub use painting::{LinePart, Viewer};
