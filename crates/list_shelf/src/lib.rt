//! The selection lists on one text, each with the stamp at which it stands, and the log of the shifts since: a list goes
//! through the changes that it missed when it is asked for. What each list would be if it had been moved at every change
//! is what contracts see of it.
#![tactic(auto)]

pub mod holder;
pub mod lag;
pub mod laws;
pub mod log;
pub mod rows;
pub mod shelf;

pub use holder::Holder;
pub use lag::{Lag, catch_up, catch_up_forward, copy_up, go_through};
pub use log::SliceLog;
pub use rows::ShelfRow;
pub use shelf::Shelf;
