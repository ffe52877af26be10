//! What one connection is due and what it is sent, whatever other connections do: the definitions and laws on
//! which the promise of each program stands. There is no code here: each function is a law, and its contract says
//! which one.
#![tactic(auto)]

pub mod cutting;
pub mod examples;
pub mod growth;
