//! The limit of a history.

ghost use Rattle.std.specs.Prelude.{◌≡◌};

/// How many entries the history of a session may have, leavings aside: 4,000,000.
pub const MAX_ENTRIES: u64 = 4_000_000;

/// A history has 4,000,000 entries at most, leavings aside.
pub fn limits_are_these()
    ensures entries { MAX_ENTRIES ≡ 4000000 }
{}
