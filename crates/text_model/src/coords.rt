//! Coordinates in a text, and how a change moves them.

ghost use Rattle.std.specs.Prelude.{◌≡◌};

/// A coordinate in a text: the number of a line and of a character in it, both from 0. The end of a text, behind its
/// last character, is column 0 of the line after the last.
#[derive(Clone, Copy, PartialEq, Eq, Debug)]
pub struct Coord {
    pub line: u32,
    pub column: u32,
}

impl Coord {
    ghost use Rattle.text_model.specs.Coords.{is_at_most};

    /// Whether this coordinate is not after the other: the order is by lines, and on one line by columns.
    pub fn is_at_most(self, other: Coord) -> bool
        ensures { result ≡ is_at_most self other }
    {
        self.line < other.line || (self.line == other.line && self.column <= other.column)
    }
}

/// One single change of a text, by coordinates: characters put in, or taken out.
#[derive(Clone, Copy, PartialEq, Eq, Debug)]
pub struct Shift {
    /// Whether characters were put in; else they were taken out.
    pub insert: bool,
    /// Where the range begins that was put in or taken out.
    pub begin: Coord,
    /// Where it ends, behind its last character: in the new text for an insertion, in the old one for an erasure.
    pub end: Coord,
    /// The last place of the new text.
    pub last: Coord,
}
