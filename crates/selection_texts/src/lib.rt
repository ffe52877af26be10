//! Selections as the texts that commands use, and back: `l.c,l.c`, anchor and cursor, lines and columns from 1.
#![tactic(auto)]

mod bytes;
pub mod columns;
pub mod laws;
pub mod meaning;
pub mod telling;

pub use laws::{descriptions_are_read_back, worked_examples};
pub use meaning::{list_meant, pair_meant};
pub use telling::{main_cursor, selection_desc, selections_desc, told};
