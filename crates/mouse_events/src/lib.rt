//! What a mouse does over a window: at which place of it, and with which button.
#![tactic(auto)]

pub mod mouse;

pub use mouse::{Button, Mouse};
