//! The two directions along a text or a list.

/// A direction along a text or along a list.
#[derive(Clone, Copy, PartialEq, Eq, Debug)]
pub enum Direction {
    /// Toward the end.
    Forward,
    /// Toward the start.
    Backward,
}

impl Direction {
    ghost use Rattle.std.specs.Prelude.{◌≡◌};
    ghost use Rattle.directions.specs.Directions.{direction_of};

    /// The direction toward the end, or else that toward the start.
    pub fn of(forward: bool) -> Direction
        ensures { result ≡ direction_of forward }
    {
        if forward {
            Direction::Forward
        } else {
            Direction::Backward
        }
    }
}
