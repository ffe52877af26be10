//! What a bracket is.

ghost use Rattle.std.specs.Prelude.{◌≡◌, true, false};

/// A bracket: the one that belongs to it, and whether it opens.
#[derive(Clone, Copy, Debug)]
pub(crate) struct Bracket {
    pub(crate) other: char,
    pub(crate) opens: bool,
}

impl Bracket {
    /// One that opens, by the one that closes.
    pub(crate) fn opening(other: char) -> Bracket
        ensures { result ≡ record { other = other; opens = true } }
    {
        Bracket { other, opens: true }
    }

    /// One that closes, by the one that opens.
    pub(crate) fn closing(other: char) -> Bracket
        ensures { result ≡ record { other = other; opens = false } }
    {
        Bracket {
            other,
            opens: false,
        }
    }
}
