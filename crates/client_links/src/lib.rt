//! What a server sees of its connections: links, each to one client, and an acceptor, from which they come. Their calls
//! say what they do to the bytes, where these are told, and fail only where a count of faults rises. Beside each trait
//! stands a form in memory, whose failures are planned.
#![tactic(auto)]

pub mod acceptor;
pub mod examples;
pub mod kept;
pub mod link;
pub mod mem_acceptor;
pub mod mem_link;
mod planned;
pub mod waiting;

pub use acceptor::{Acceptor, Bound, Next};
pub use kept::MemLink;
pub use link::{Heard, Link};
pub use waiting::MemAcceptor;
