//! Files as the editor sees them: a trait whose calls say what they do to what the files hold, where that is told, and
//! which fail only where a count of faults rises. Beside it stand files in memory, whose failures are planned, and files
//! that never hold anything.
#![tactic(auto)]

pub mod files;
pub mod kept;
pub mod laws;
pub mod memory;
pub mod none;

pub use files::{FileRead, Files, MAX_FILE};
pub use kept::{MemFile, MemFiles};
pub use none::NoFiles;
