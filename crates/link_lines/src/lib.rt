//! A link's lines: heard as they come, played as events over a seat at a session where others play too, and answered over
//! the link; where none comes, its client is drawn what it has missed. What an entry of the history means is the seat's:
//! nothing here knows the editor.
#![tactic(auto)]

pub mod ended;
pub mod examples;
pub mod laws;
pub mod link_playing;
pub mod link_serving;
pub mod talk;
pub mod telling;

pub use ended::{Ended, ended_of};
pub use link_playing::{play_link, play_turns};
pub use link_serving::serve_over;
pub use talk::Talk;
pub use telling::tell;
