//! What a client is shown of the world: the lines of its window, the status line and the mode line, and where the cursor
//! stands.
#![tactic(auto)]

mod boxes;
mod drawing;
mod laws;
mod status;

pub use boxes::note_drawn;
pub use drawing::{gutter_of, redraw};
pub use laws::worked_examples;
