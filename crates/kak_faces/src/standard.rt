//! The faces that have a name.

ghost use Rattle.std.specs.Prelude.{◌≡◌};
ghost use Rattle.kak_faces.specs.Standard.{standard_face, plain_face};

use crate::colour::{Attributes, Colour, NamedColour};
use crate::face::Face;

/// A face that is set from the start, by its name.
#[derive(Clone, Copy, PartialEq, Eq, Debug)]
pub enum StandardFace {
    Default,
    BufferPadding,
    PrimarySelection,
    SecondarySelection,
    PrimaryCursor,
    SecondaryCursor,
    PrimaryCursorEol,
    SecondaryCursorEol,
    StatusLine,
    StatusCursor,
    Prompt,
    Error,
    Information,
    LineNumbers,
    LineNumberCursor,
    Whitespace,
}

// The face of two named colours, without attributes.
fn plain(fg: NamedColour, bg: NamedColour) -> Face
    ensures { result ≡ plain_face fg bg }
{
    Face {
        fg: Colour::Named(fg),
        bg: Colour::Named(bg),
        underline: Colour::Named(NamedColour::Default),
        attributes: Attributes::NONE,
    }
}

impl StandardFace {
    /// The face that the name has at the start.
    pub fn face(self) -> Face
        ensures { result ≡ standard_face self }
    {
        match self {
            StandardFace::Default | StandardFace::LineNumbers => Face::DEFAULT,
            StandardFace::BufferPadding => plain(NamedColour::Blue, NamedColour::Default),
            StandardFace::PrimarySelection => plain(NamedColour::White, NamedColour::Blue),
            StandardFace::SecondarySelection => plain(NamedColour::Black, NamedColour::Blue),
            StandardFace::PrimaryCursor | StandardFace::SecondaryCursor => {
                plain(NamedColour::Black, NamedColour::White)
            }
            StandardFace::PrimaryCursorEol
            | StandardFace::SecondaryCursorEol
            | StandardFace::StatusCursor => plain(NamedColour::Black, NamedColour::Cyan),
            StandardFace::StatusLine => plain(NamedColour::Cyan, NamedColour::Default),
            StandardFace::Prompt => plain(NamedColour::Yellow, NamedColour::Default),
            StandardFace::Error => plain(NamedColour::Black, NamedColour::Red),
            StandardFace::Information => plain(NamedColour::Black, NamedColour::Yellow),
            StandardFace::LineNumberCursor => Face {
                attributes: Attributes {
                    reverse: true,
                    ..Attributes::NONE
                },
                ..Face::DEFAULT
            },
            StandardFace::Whitespace => Face {
                attributes: Attributes {
                    dim: true,
                    ..Attributes::NONE
                },
                ..Face::DEFAULT
            },
        }
    }
}
