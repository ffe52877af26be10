//! Jobs, and who runs them: one after another in this thread, or each in a thread of its own.
#![tactic(auto)]

pub mod examples;
pub mod in_turn;
pub mod job;
pub mod promise_of;
pub mod running;
pub mod spawner;
pub mod spent;
pub mod threads;

pub use in_turn::{InTurn, StartPlan};
pub use job::Job;
pub use running::{Thread, begin, begin_by};
pub use spawner::{Spawner, Started};
pub use threads::{Begun, Handle, ThreadSpawner};
