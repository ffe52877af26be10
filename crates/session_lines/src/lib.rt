//! A connection's lines: read from its bytes, played as events over a seat, and answered over a sink. What an entry of
//! the history means is the seat's: nothing here knows the editor.
#![tactic(auto)]

pub mod connection;
pub mod examples;
pub mod playing;
pub mod reading;
pub mod turns;

pub use connection::{play_connection, serve};
pub use playing::{Reply, Stop, Telling, answer_idle, leave, play_keys};
pub use reading::{InputEnd, play_input};
pub use turns::{answer_line, answer_opening, open, play_line, write_telling};
