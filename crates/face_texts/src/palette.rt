//! What the given names are seen as.

ghost use Rattle.std.specs.Prelude.{◌≡◌};
ghost use Rattle.face_texts.specs.Palettes.{palette_of, palette_face, seen_standard};

use crate::following::seen_named;
use crate::given::standard_name;
use crate::rows::NamedFace;
use kak_faces::{Face, StandardFace};

/// What each of the given names is seen as.
#[derive(Clone, Copy, Debug)]
pub struct Palette {
    pub default: Face,
    pub buffer_padding: Face,
    pub primary_selection: Face,
    pub secondary_selection: Face,
    pub primary_cursor: Face,
    pub secondary_cursor: Face,
    pub primary_cursor_eol: Face,
    pub secondary_cursor_eol: Face,
    pub status_line: Face,
    pub status_cursor: Face,
    pub prompt: Face,
    pub error: Face,
    pub information: Face,
    pub line_numbers: Face,
    pub line_number_cursor: Face,
    pub whitespace: Face,
}

impl Palette {
    /// The face of a name.
    pub fn of(&self, name: StandardFace) -> Face
        ensures { result ≡ palette_face self.now name }
    {
        match name {
            StandardFace::Default => self.default,
            StandardFace::BufferPadding => self.buffer_padding,
            StandardFace::PrimarySelection => self.primary_selection,
            StandardFace::SecondarySelection => self.secondary_selection,
            StandardFace::PrimaryCursor => self.primary_cursor,
            StandardFace::SecondaryCursor => self.secondary_cursor,
            StandardFace::PrimaryCursorEol => self.primary_cursor_eol,
            StandardFace::SecondaryCursorEol => self.secondary_cursor_eol,
            StandardFace::StatusLine => self.status_line,
            StandardFace::StatusCursor => self.status_cursor,
            StandardFace::Prompt => self.prompt,
            StandardFace::Error => self.error,
            StandardFace::Information => self.information,
            StandardFace::LineNumbers => self.line_numbers,
            StandardFace::LineNumberCursor => self.line_number_cursor,
            StandardFace::Whitespace => self.whitespace,
        }
    }
}

// What a given name is seen as.
fn seen(rows: &[NamedFace], face: StandardFace) -> Face
    ensures { result ≡ seen_standard rows.now face }
{
    seen_named(rows, standard_name(face))
}

/// What the given names are seen as in a table.
pub(crate) fn palette_of(rows: &[NamedFace]) -> Palette
    ensures { result ≡ palette_of rows.now }
{
    Palette {
        default: seen(rows, StandardFace::Default),
        buffer_padding: seen(rows, StandardFace::BufferPadding),
        primary_selection: seen(rows, StandardFace::PrimarySelection),
        secondary_selection: seen(rows, StandardFace::SecondarySelection),
        primary_cursor: seen(rows, StandardFace::PrimaryCursor),
        secondary_cursor: seen(rows, StandardFace::SecondaryCursor),
        primary_cursor_eol: seen(rows, StandardFace::PrimaryCursorEol),
        secondary_cursor_eol: seen(rows, StandardFace::SecondaryCursorEol),
        status_line: seen(rows, StandardFace::StatusLine),
        status_cursor: seen(rows, StandardFace::StatusCursor),
        prompt: seen(rows, StandardFace::Prompt),
        error: seen(rows, StandardFace::Error),
        information: seen(rows, StandardFace::Information),
        line_numbers: seen(rows, StandardFace::LineNumbers),
        line_number_cursor: seen(rows, StandardFace::LineNumberCursor),
        whitespace: seen(rows, StandardFace::Whitespace),
    }
}
