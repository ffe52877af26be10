//! How a text is read as a face.

ghost use Rattle.std.specs.Prelude.{◌≡◌, Ok, IfOk, IfErr, encode_utf8_all};
ghost use Rattle.std.specs.Str.{chars};
ghost use Rattle.face_texts.specs.Texts.{attributes_of, own_face, base_of, face_text_of};
ghost use Rattle.face_texts.specs.Errors.{IsBadFace};

use crate::colours::{colours_of, up_to};
use crate::letters::attributes_at;
use crate::text::{FaceError, FaceText};
use byte_texts::Utf8Text;
use kak_faces::{Attributes, Face};
use std::alloc::{AllocError, Global};

// The characters of a text.
fn characters(alloc: Global, text: &str) -> Result<Vec<char>, AllocError>
    ensures { IfOk result (λ v. v.items ≡ chars text.now) }
{
    text.chars().collect(alloc)
}

// The text of characters.
fn text_of(alloc: Global, list: &[char]) -> Result<Utf8Text, AllocError>
    ensures { IfOk result (λ t. t ≡ encode_utf8_all list.now) }
{
    let mut text = String::with_capacity(alloc, list.len())?;
    for letter in list {
        text.push(*letter)?;
    }
    Ok(Utf8Text::of_string(text))
}

// The attributes of a text.
#[tactic(auto, unfolding(crate::specs::Texts::attributes_of))]
fn attributes_of(text: &[char]) -> Result<Attributes, usize>
    ensures { result ≡ attributes_of text.now }
{
    let plus = up_to(text, '+');
    let sign = up_to(text, '@');
    if plus >= sign {
        return Ok(Attributes::NONE);
    }
    attributes_at(plus + 1, &text[plus + 1..sign])
}

// The face that a text says itself.
#[tactic(auto, unfolding(crate::specs::Texts::own_face))]
fn own_face(text: &[char]) -> Result<Face, usize>
    ensures { result ≡ own_face text.now }
{
    let (before, _) = text.split_at(up_to(text, '+').min(up_to(text, '@')));
    let colours = colours_of(before)?;
    let attributes = attributes_of(text)?;
    Ok(Face {
        fg: colours.fg,
        bg: colours.bg,
        underline: colours.underline,
        attributes,
    })
}

// The base of a text.
#[tactic(auto, unfolding(crate::specs::Texts::base_of))]
fn base_of(alloc: Global, text: &[char]) -> Result<Option<Utf8Text>, FaceError>
    ensures read { IfOk result (λ base. base_of text.now ≡ Ok base) }
    ensures bad { IfErr result (λ e. IsBadFace e (base_of text.now)) }
{
    let sign = up_to(text, '@');
    if sign == text.len() {
        return Ok(None);
    }
    if sign + 1 == text.len() {
        return Err(FaceError::BadFace(text.len()));
    }
    let (_, behind) = text.split_at(sign + 1);
    Ok(Some(text_of(alloc, behind)?))
}

// The face of characters.
#[tactic(auto, unfolding(crate::specs::Texts::face_text_of))]
fn face_of(alloc: Global, text: &[char]) -> Result<FaceText, FaceError>
    ensures read { IfOk result (λ t. face_text_of text.now ≡ Ok t) }
    ensures bad { IfErr result (λ e. IsBadFace e (face_text_of text.now)) }
{
    match own_face(text) {
        Err(at) => Err(FaceError::BadFace(at)),
        Ok(face) => {
            let base = base_of(alloc, text)?;
            Ok(FaceText { face, base })
        }
    }
}

/// The face of a text: `fg,bg,underline+attributes@base`, of which each part may be missing. `BadFace` tells the place of
/// the first character without a reading, which is the text's end where a part should be; `NoMemory` may come at any time.
pub fn read_face(alloc: Global, text: &str) -> Result<FaceText, FaceError>
    ensures read { IfOk result (λ t. face_text_of (chars text.now) ≡ Ok t) }
    ensures bad { IfErr result (λ e. IsBadFace e (face_text_of (chars text.now))) }
{
    let all = characters(alloc, text)?;
    face_of(alloc, all.as_slice())
}
