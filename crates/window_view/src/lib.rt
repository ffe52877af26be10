//! The window of a client on a text: which lines and display columns it shows, where it stands and how large it is, how it follows
//! the cursor, and after how many columns tab stops come.
#![tactic(auto)]

pub mod corner;
pub mod holding;
pub mod laws;
pub mod size;
pub mod tabstop;
pub mod window;

pub use corner::Corner;
pub use holding::{cell_of, offset_at};
pub use size::{MAX_SIDE, Size, within_bounds};
pub use tabstop::Tabstop;
pub use window::Window;
