//! The server of a session: it receives links, has each served under a pass of its own, waits until all have ended, and
//! closes the desk. Of what it then gives, the rows of all links hold by one history. A link is served at the desk by a job
//! that runs in a thread of its own, with the keys that open a file before its first drawing where one is named.
#![tactic(auto)]

mod accepting;
mod closing;
pub mod examples;
mod host;
pub mod job;
pub mod laws;
pub mod link_serving;
pub mod run;
pub mod serving;
pub mod session;
pub mod status;

pub use host::MAX_LINKS;
pub use job::LinkJob;
pub use link_serving::serve_link;
pub use run::run_server;
pub use serving::serve;
pub use session::Session;
pub use status::ServerStatus;
