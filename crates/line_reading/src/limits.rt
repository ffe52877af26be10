//! The limits of an input.

ghost use Rattle.std.specs.Prelude.{◌≡◌};

/// How many bytes of input are taken at most: 2^30.
pub const MAX_INPUT: u64 = 1_073_741_824;

/// How many bytes of input are taken at once at most: 4,096.
pub const MAX_PIECE: u64 = 4_096;

/// What is taken of an input: 2^30 bytes at most, and 4,096 at once.
pub fn limits_are_these()
    ensures input { MAX_INPUT ≡ 1073741824 }
    ensures piece { MAX_PIECE ≡ 4096 }
{}
