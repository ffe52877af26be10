//! Lists of selections by offsets: the definitions of settling and of moving them, and their laws, each of which is
//! the contract of a function that does nothing.
#![tactic(auto)]

pub mod laws;
