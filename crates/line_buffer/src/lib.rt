//! A text as lines in memory. It is seen as the flat text; a call costs the lines that it touches, and never a count
//! from the top unless it says so.
#![tactic(auto)]

mod cuts;
pub mod erases;
pub mod flat;
pub mod growing;
pub mod inserts;
mod line;
pub mod lines;
mod rows;
pub mod steps;

pub use growing::GrowingLines;
pub use lines::{Lines, LinesError};
