//! The changes of a buffer as they are kept, so that each can be made and taken back, and how they tell the buffer's story.
#![tactic(auto)]

pub mod buffer;
mod changing;
pub mod edits;
pub mod errors;
mod going;
mod history;
pub mod keeping;
pub mod laws;
mod limits;
pub mod making;
mod marking;
pub mod moves;
mod replacing;
mod walking;

pub use buffer::Buffer;
pub use edits::Splice;
pub use errors::{BufferError, MoveError};
pub use keeping::{erase, insert};
pub use making::{make, take_back};
