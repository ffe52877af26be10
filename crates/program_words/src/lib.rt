//! The words by which the programs are called: which names files can have, and the keys that open one; for a generated session
//! how many clients and keys it has, and its seed; and for a server the session that it serves, and the file that it opens first.
#![tactic(auto)]

pub mod examples;
pub mod file;
pub mod generated;
pub mod limits;
pub mod server;

pub use file::{edit_keys, is_file_name};
pub use generated::{GenWords, read_gen_words};
pub use limits::{MAX_GEN_CLIENTS, MAX_GEN_KEYS};
pub use server::{ServerWords, WordsError, read_words};
