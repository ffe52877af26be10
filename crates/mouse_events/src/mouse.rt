//! Buttons, and what is done with them at a place.

use text_model::Coord;

/// A button of a mouse.
#[derive(Clone, Copy, PartialEq, Eq, Debug)]
pub enum Button {
    /// The left one.
    Left,
    /// The one in the middle.
    Middle,
    /// The right one.
    Right,
}

/// What a mouse does at a place of a window: a line and a display column that are counted from its corner, both from 0.
#[derive(Clone, Copy, PartialEq, Eq, Debug)]
pub enum Mouse {
    /// It is moved there.
    Move(Coord),
    /// A button is pressed there.
    Press(Button, Coord),
    /// A button is released there.
    Release(Button, Coord),
}
