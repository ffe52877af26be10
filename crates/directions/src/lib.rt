//! The two directions along a text or a list.
#![tactic(auto)]

pub mod direction;

pub use direction::Direction;
