//! The words that a program is called by, as the system has them.
#![tactic(auto)]

pub mod words;

pub use words::{NoWords, words_given};
