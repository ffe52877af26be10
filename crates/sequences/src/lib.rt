//! Values in a row, as one small type that contracts see as the list of them.
#![tactic(auto)]

pub mod seq;

pub use seq::Seq;
