//! What is found along the bases of a face.

ghost use Rattle.std.specs.Prelude.{◌≡◌};
ghost use Rattle.face_texts.specs.Tables.{comes_back, shown, seen_named};

use crate::cover::Cover;
use crate::rows::{NamedFace, is_based_on, text_named, text_of_base};
use crate::text::FaceText;
use kak_faces::Face;

/// Whether following bases from a text comes to a name.
pub(crate) fn comes_back(rows: &[NamedFace], name: &str, text: &FaceText) -> bool
    ensures { result ≡ comes_back rows.now name.now text.now }
{
    let mut at = text;
    for _ in 0..rows.len() {
        if is_based_on(at, name) {
            return true;
        }
        let Some(below) = text_of_base(rows, at) else {
            return false;
        };
        at = below;
    }
    is_based_on(at, name)
}

/// What a text is seen as.
pub(crate) fn shown(rows: &[NamedFace], text: &FaceText) -> Face
    ensures { result ≡ shown rows.now text.now }
{
    let mut cover = Cover::new();
    let mut at = text;
    for _ in 0..rows.len() {
        cover = cover.on(at.face);
        let Some(below) = text_of_base(rows, at) else {
            return cover.shown();
        };
        at = below;
    }
    cover.on(at.face).shown()
}

/// What a name is seen as: one that isn't set is the default face.
pub(crate) fn seen_named(rows: &[NamedFace], name: &str) -> Face
    ensures { result ≡ seen_named rows.now name.now }
{
    match text_named(rows, name) {
        None => Face::DEFAULT,
        Some(text) => shown(rows, text),
    }
}
