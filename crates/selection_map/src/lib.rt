//! Where the places of a text, its selections and lists of them go when the text is changed, once or many times.
#![tactic(auto)]

pub mod behind;
pub mod carrying;
pub mod catching;
pub mod laws;
pub mod lists;
mod reach;
mod staying;
mod walking;

pub use behind::{carry_back, carry_on};
pub use carrying::{map_one, map_sel, rebase};
pub use catching::{catch_up, catch_up_forward, falls, rises};
pub use lists::map_sels;
