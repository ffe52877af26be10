//! How large a generated session may be.

ghost use Rattle.std.specs.Prelude.{◌≡◌};

/// A generated session has 64 clients at most.
pub const MAX_GEN_CLIENTS: u32 = 64;

/// A generated session has 1,000,000 keys at most.
pub const MAX_GEN_KEYS: u32 = 1_000_000;

/// A generated session has at most 64 clients and 1,000,000 keys.
pub fn limits_are_these()
    ensures clients { MAX_GEN_CLIENTS ≡ 64 }
    ensures keys { MAX_GEN_KEYS ≡ 1000000 }
{}
