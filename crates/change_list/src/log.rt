//! How many shifts a log of a text may come to.

/// The greatest stamp that a log can come to: with it no shift is added any more.
pub const MAX_STAMP: u64 = 100_000;
