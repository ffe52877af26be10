//! What is done in a client's window with a mouse: which character a place of it means, what pressing, moving and releasing
//! select, and where scrolling leads.
#![tactic(auto)]

pub mod laws;
mod lists;
mod places;
pub mod pointing;
pub mod scrolling;
mod windows;

pub use pointing::point;
pub use scrolling::scroll;
