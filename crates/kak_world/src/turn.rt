//! What is known of the step in which a world is, as a type.

use std::marker::Brand;

/// A step in which a world may be. It has no value: that a world is `World<P, T>` says that it is in the step `T`.
pub trait Turn {
    ghost use Rattle.std.specs.Prelude.{Option};
    ghost use Rattle.kak_world.specs.Stored.{Began};

    // Whose step it is, and what was stored when it began; None where nothing is said of that.
    ghost began: { Option Began };
}

/// A step of which nothing is said: a world that is in it may be between steps.
pub struct AnyTurn;

impl Turn for AnyTurn {
    ghost use Rattle.std.specs.Prelude.{None};

    ghost began = { None };
}

// What is said of a step is chosen where the step is begun.
impl Turn for Brand {
    ghost use Rattle.std.specs.Prelude.{None};

    ghost began = { None };
}
