//! What is shown: atoms, lines, and whole drawings.

use kak_faces::Face;
use kak_text::Chars;
use sequences::Seq;

/// Characters that are drawn in one face.
#[derive(Drop, Debug)]
pub struct Atom {
    pub contents: Chars,
    pub face: Face,
}

/// Atoms in a row.
pub type Atoms = Seq<Atom>;

/// A line of a drawing: maximal runs of one face.
#[derive(Drop, Debug)]
pub struct DrawnLine {
    pub atoms: Atoms,
}

/// Lines in a row.
pub type DrawnLines = Seq<DrawnLine>;

/// Where the cursor stands: in the buffer's window, by its line and cell from 0, or in the prompt,
/// by the cells before it on line 0.
#[derive(Clone, Copy, PartialEq, Eq, Debug)]
pub struct Cursor {
    pub prompt: bool,
    pub line: u32,
    pub column: u32,
}

/// A box with a title and lines.
#[derive(Drop, Debug)]
pub struct InfoBox {
    pub title: DrawnLine,
    pub content: DrawnLines,
    pub face: Face,
}

/// What becomes of the box since the last drawing.
#[derive(Drop, Debug)]
pub enum Info {
    /// It stays as it was sent.
    Keep,
    /// It is hidden.
    Hide,
    /// It is shown, in place of one that is shown already.
    Show(InfoBox),
}

/// All that one drawing tells a client.
#[derive(Drop, Debug)]
pub struct Drawing {
    /// Whether it is the client's first one.
    pub first: bool,
    pub lines: DrawnLines,
    pub default_face: Face,
    /// The face of the rows below the last line.
    pub padding_face: Face,
    pub status: DrawnLine,
    pub mode_line: DrawnLine,
    pub status_face: Face,
    pub cursor: Cursor,
    pub info: Info,
}
