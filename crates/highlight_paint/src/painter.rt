//! What a highlighter does.

use face_texts::FaceText;
use kak_text::Chars;
use sequences::Seq;

/// A group of a pattern by its number, and the face of its characters. The match itself has number 0.
#[derive(Drop, Debug)]
pub struct GroupFace {
    pub group: u32,
    pub face: FaceText,
}

/// What a highlighter does. Its faces lie over those of the highlighters before it.
#[derive(Drop)]
pub enum Painter<P: Drop> {
    /// Each character of a line has the face, its newline too.
    Fill(FaceText),
    /// The characters of these groups have these faces, in each match of the pattern in a line without its newline.
    Regex(P, Seq<GroupFace>),
    /// The number of a line stands before it, with these characters behind the number, and where the first is true in
    /// another face on the main cursor's line. No place of the line has another face by it.
    NumberLines(bool, Chars),
    /// Each character of the line of this number, from 1, has the face, its newline too.
    AtLine(u32, FaceText),
    /// The character of this number, from 1, has the face in each line that has so many.
    AtColumn(u32, FaceText),
    /// Spaces, tabs and newlines are shown as signs, in the face `Whitespace`.
    ShowWhitespaces,
    /// Nothing is laid; other highlighters stand below it.
    Group,
}
