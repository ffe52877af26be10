//! The faces that are set from the start.

ghost use Rattle.std.specs.Prelude.{◌≡◌, map, IfOk};
ghost use Rattle.face_texts.specs.Given.{standard_name, standard_row, given};

use crate::rows::NamedFace;
use crate::text::FaceText;
use byte_texts::Utf8Text;
use kak_faces::StandardFace;
use std::alloc::{AllocError, Global};

const ALL: [StandardFace; 16] = [
    StandardFace::Default,
    StandardFace::BufferPadding,
    StandardFace::PrimarySelection,
    StandardFace::SecondarySelection,
    StandardFace::PrimaryCursor,
    StandardFace::SecondaryCursor,
    StandardFace::PrimaryCursorEol,
    StandardFace::SecondaryCursorEol,
    StandardFace::StatusLine,
    StandardFace::StatusCursor,
    StandardFace::Prompt,
    StandardFace::Error,
    StandardFace::Information,
    StandardFace::LineNumbers,
    StandardFace::LineNumberCursor,
    StandardFace::Whitespace,
];

/// The name of a given face.
pub(crate) fn standard_name(face: StandardFace) -> &'static str
    ensures { result.now ≡ standard_name face }
{
    match face {
        StandardFace::Default => "Default",
        StandardFace::BufferPadding => "BufferPadding",
        StandardFace::PrimarySelection => "PrimarySelection",
        StandardFace::SecondarySelection => "SecondarySelection",
        StandardFace::PrimaryCursor => "PrimaryCursor",
        StandardFace::SecondaryCursor => "SecondaryCursor",
        StandardFace::PrimaryCursorEol => "PrimaryCursorEol",
        StandardFace::SecondaryCursorEol => "SecondaryCursorEol",
        StandardFace::StatusLine => "StatusLine",
        StandardFace::StatusCursor => "StatusCursor",
        StandardFace::Prompt => "Prompt",
        StandardFace::Error => "Error",
        StandardFace::Information => "Information",
        StandardFace::LineNumbers => "LineNumbers",
        StandardFace::LineNumberCursor => "LineNumberCursor",
        StandardFace::Whitespace => "Whitespace",
    }
}

// The row of a given face.
fn row(alloc: Global, face: StandardFace) -> Result<NamedFace, AllocError>
    ensures { IfOk result (λ row. row ≡ standard_row face) }
{
    Ok(NamedFace {
        name: Utf8Text::from_str(alloc, standard_name(face))?,
        text: FaceText {
            face: face.face(),
            base: None,
        },
    })
}

// The rows of given faces.
fn rows(alloc: Global, faces: &[StandardFace]) -> Result<Vec<NamedFace>, AllocError>
    ensures { IfOk result (λ v. v.items ≡ map standard_row faces.now) }
{
    let mut rows = Vec::with_capacity(alloc, faces.len())?;
    for face in faces {
        rows.push(row(alloc, *face)?)?;
    }
    Ok(rows)
}

/// The rows at the start.
pub(crate) fn given(alloc: Global) -> Result<Vec<NamedFace>, AllocError>
    ensures { IfOk result (λ v. v.items ≡ given) }
{
    rows(alloc, &ALL)
}
