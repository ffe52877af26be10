//! The limits of the program.

ghost use Rattle.std.specs.Prelude.{◌≡◌};

use crate::replaying::MAX_UIS;

/// A replay has 64 user interfaces at most.
pub fn limits_are_these()
    ensures user_interfaces { MAX_UIS ≡ 64 }
{}
