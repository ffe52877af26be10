//! Gates, which say when the lines of the connections may run. A server asks one before each line; a test fixes the order
//! of lines of several threads by one.
#![tactic(auto)]

pub mod gate;
pub mod held;

pub use gate::{Gate, OpenGate};
pub use held::{Awaited, HeldGate, LineOf};
