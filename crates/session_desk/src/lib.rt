//! A desk holds one object that several threads play, one move at a time, and keeps one history of what they played.
//!
//! Whoever steps takes the turn, plays one move on the object, and adds one entry to the history; every other pass then sees a
//! beginning of that history. Nothing is said of fairness, of deadlock or of time: a call that takes an `rt` may wait for ever.
#![tactic(auto)]

mod desk;
mod examples;
mod played;
mod plays;
mod rule;
mod tokens;
mod turns;

pub use desk::Desk;
pub use examples::worked_examples;
pub use played::Played;
pub use tokens::{Keeper, Out, Pass};
