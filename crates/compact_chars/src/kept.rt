//! The two ways in which the characters of a row are kept.

use smallvec::SmallVec;

/// How many bytes a row holds without memory of its own.
pub const SHORT_NARROW: usize = 16;

/// How many characters a row of others holds without memory of its own.
pub const SHORT_WIDE: usize = 4;

/// Characters as bytes, where each has a number below 256, or as themselves.
#[derive(Drop, Debug)]
pub enum Kept {
    Narrow(SmallVec<u8, SHORT_NARROW>),
    Wide(SmallVec<char, SHORT_WIDE>),
}
