//! The selection lists that are kept on a text beside those that clients have: the one that a client had when its key event
//! began, those that it can take back and redo, and the marks of registers. They lag behind the text as the lists on a shelf do, by
//! the same log. What each would be if it had been moved at every change is what contracts see of it.
#![tactic(auto)]

pub mod alike;
pub mod archive;
pub mod keeping;
pub mod lags;
pub mod laws;
pub mod limits;
pub mod marks;
pub mod noting;
pub mod saved;
pub mod trails;

pub use archive::Archive;
pub use limits::{MAX_PAST, MAX_PAST_SELECTIONS};
pub use saved::Saved;
