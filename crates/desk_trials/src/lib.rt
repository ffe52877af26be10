//! Trials of a desk: a sum that threads add to, and two threads that add to it at the same time.
#![tactic(auto)]

mod both;
mod examples;
mod tally;
#[cfg(test)]
mod tests;

pub use both::{Run, Totals, tally_both};
pub use examples::worked_examples;
pub use tally::{Addition, Refusal, Tally};
