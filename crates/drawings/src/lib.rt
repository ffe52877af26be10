//! What a client is shown and why a line is refused, as values: no bytes and no JSON.
#![tactic(auto)]

mod drawing;
mod refusal;

pub use drawing::{Atom, Atoms, Cursor, Drawing, DrawnLine, DrawnLines, Info, InfoBox};
pub use refusal::Refusal;
