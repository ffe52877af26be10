//! A replay: lines of many clients, each with its client's number and a space before it, are played in the order in which
//! they are written, on a session that nobody else uses. What a client is shown and refused is told to a box of its own, and
//! at the end the reports of all boxes are written, in the order of the clients' numbers.
#![tactic(auto)]

pub mod ends;
pub mod examples;
pub mod finishing;
pub mod parting;
pub mod places;
pub mod players;
pub mod playing;
pub mod reading;
pub mod replaying;
pub mod reports;
pub mod telling;
pub mod written;

pub use ends::ReplayEnd;
pub use examples::{worked_examples, written_examples};
pub use places::ClientPlace;
pub use players::{NoPlayers, Players, Taken};
pub use replaying::replay_session;
pub use written::{Written, read_written};
