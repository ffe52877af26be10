//! The engine: each event of a client is one step on the world, and stands as one entry in the history.
#![tactic(auto)]

pub mod asking;
pub mod asks;
pub mod ending;
pub mod engine;
mod events;
pub mod files_and_patterns;
pub mod hooking;
mod joined;
pub mod laws;
pub mod none;
pub mod outside;
pub mod place;
pub mod playing;
mod recording;
mod rescue;
mod resting;
pub mod seat;
pub mod texts;
pub mod trace;

pub use engine::{Engine, MAX_UNITS, NoEngine};
pub use files_and_patterns::FilesAndPatterns;
pub use none::NoOutside;
pub use outside::Outside;
pub use seat::EngineSeats;
