//! The outside as the editor sees it: traits whose calls say what they do to the bytes behind them, where these are
//! told, and which fail only where a count of faults rises. Beside each trait stand an object in memory, whose
//! failures are planned, and one over the real thing, which tells no bytes.
#![tactic(auto)]

pub mod kept;
pub mod memory;
pub mod real;
pub mod sink;
pub mod source;

pub use byte_texts::{Octets, Words};
pub use kept::{MemSink, MemSource};
pub use memory::FailingCalls;
pub use real::{ReadSource, WriteSink};
pub use sink::{Put, Sink};
pub use source::{Source, Took};
