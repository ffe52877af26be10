//! What the lines of a connection ask for, and who reads them: nothing here knows how a request is written.
#![tactic(auto)]

pub mod reader;
pub mod request;

pub use reader::Reader;
pub use request::{LineError, Request};
