//! Selecting by patterns: what their matches select, the parts that these leave, the selections that have a match, or have
//! none, and the matches that are found from selections on.
#![tactic(auto)]

pub mod error;
pub mod finding;
mod gathering;
mod halves;
pub mod keeping;
pub mod known;
pub mod laws;
pub mod matching;
mod searching;
mod seeking;
mod series;
mod settling;
mod stretching;
mod taking;
mod walking;
pub mod way;
mod whole;
mod writing;

pub use error::SelectError;
pub use finding::{add_match, next_match, search, search_main};
pub use keeping::keep;
pub use known::KnownMatches;
pub use matching::{matches_in, split_in};
pub use way::Search;
