//! An engine that several clients play at one desk, and the seat that each of them has there.
//!
//! Clients step one at a time: whoever steps waits for the turn. A look at the session waits for nobody where nothing came. A
//! call that waits may wait for ever, and nothing is said of fairness.
#![tactic(auto)]

pub mod closed;
pub mod examples;
pub mod frame;
pub mod glimpse;
pub mod seat;
pub mod shared;

pub use closed::ClosedEngine;
pub use frame::EngineFrame;
pub use glimpse::Glimpse;
pub use seat::DeskSeat;
pub use shared::SharedEngine;
