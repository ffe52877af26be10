//! What is drawn for a generated session: numbers in a row that follow from a seed, and by them who strikes which key; and the
//! lines by which such a session is summed up.
#![tactic(auto)]

pub mod draws;
pub mod examples;
pub mod summary;

pub use draws::{Draws, Strike};
pub use summary::{head_text, sels_line};
