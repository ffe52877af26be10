//! What the words of highlighters are read as, and how one is named that was given no name.

ghost use Rattle.std.specs.Prelude.{◌≡◌, ◌++◌, Ok, Err, IfOk, IfErr, IfSome, OnOk, string_bytes, encode_utf8_all};
ghost use Rattle.kak_world.specs.Rows.{row_of};
ghost use Rattle.face_texts.specs.Tables.{word_text};
ghost use Rattle.command_set.specs.Painters.{face_told, number_told, group_told, groups_told, in_name, behind_bar, made_name, lacks_name, full_path};
ghost use Rattle.command_forms.specs.Numbers.{whole_number};

use crate::faces::face_refusal;
use byte_texts::{Utf8Text, Words};
use command_forms::{parted, whole_number};
use face_texts::{FaceTable, FaceText};
use highlight_paint::GroupFace;
use kak_text::Chars;
use kak_world::{CommandError, EditError};
use key_rows::string_of;
use sequences::Seq;
use std::alloc::{AllocError, Global};

/// The face of a word. `BadFace` comes where there is none.
pub(crate) fn face_told(alloc: Global, faces: &FaceTable, word: &str) -> Result<FaceText, EditError>
    ensures face { IfOk result (λ text. face_told (word_text faces.now word.now) ≡ Ok text) }
    ensures why { IfErr result (λ error. IfSome (row_of error) (λ row. face_told (word_text faces.now word.now) ≡ Err error)) }
{
    match faces.read_word(alloc, word) {
        Ok(text) => Ok(text),
        Err(error) => Err(face_refusal(error)),
    }
}

/// The number of a word. `BadValue` comes where it isn't one.
pub(crate) fn number_told(word: &[u8]) -> Result<u32, EditError>
    ensures number { IfOk result (λ n. number_told (whole_number word.now) ≡ Ok n) }
    ensures why { IfErr result (λ error. IfSome (row_of error) (λ row. number_told (whole_number word.now) ≡ Err error)) }
{
    match whole_number(word) {
        Some(n) => Ok(n),
        None => Err(EditError::Command(CommandError::BadValue)),
    }
}

// The group of a word, and its face.
fn group_told(alloc: Global, faces: &FaceTable, word: &str) -> Result<GroupFace, EditError>
    ensures group { IfOk result (λ g. group_told faces.now word.now ≡ Ok g) }
    ensures why { IfErr result (λ error. IfSome (row_of error) (λ row. group_told faces.now word.now ≡ Err error)) }
{
    let Some((number, face)) = parted(word, ':') else {
        return Err(EditError::Command(CommandError::BadValue));
    };
    let group = number_told(number.as_bytes())?;
    let face = face_told(alloc, faces, face)?;
    Ok(GroupFace { group, face })
}

/// The groups of words, and their faces. `BadValue` and `BadFace` come for the first word that says none.
pub(crate) fn groups_told(
    alloc: Global,
    faces: &FaceTable,
    words: &Words,
) -> Result<Seq<GroupFace>, EditError>
    ensures groups { IfOk result (λ gs. groups_told faces.now words.now ≡ Ok gs) }
    ensures why { IfErr result (λ error. IfSome (row_of error) (λ row. groups_told faces.now words.now ≡ Err error)) }
{
    let mut groups = Vec::with_capacity(alloc, words.len())?;
    for n in 0..words.len() {
        let group = group_told(alloc, faces, words.get(n))?;
        groups.push(group).map_err(AllocError::from)?;
    }
    Ok(Seq::of_vec(groups))
}

// Adds a character to a name.
fn push_in_name(name: &mut Chars, c: char) -> Result<(), AllocError>
    ensures { OnOk result (name.new ≡ name.old ++ in_name c) }
{
    if c == '/' {
        return name.extend_from_slice(&['<', 's', 'l', 'a', 's', 'h', '>']);
    }
    name.push(c)
}

// Adds a word to a name, behind a `_`.
fn push_word(alloc: Global, name: &mut Chars, word: &str) -> Result<(), AllocError>
    ensures { OnOk result (name.new ≡ name.old ++ behind_bar word.now) }
{
    let word = Chars::from_str(alloc, word)?;
    name.push('_')?;
    for c in word.as_slice() {
        push_in_name(name, *c)?;
    }
    Ok(())
}

// The name that words make.
fn made_name(alloc: Global, words: &Words) -> Result<String, AllocError>
    ensures { IfOk result (λ name. string_bytes name ≡ encode_utf8_all (made_name words.now)) }
{
    let mut name = Chars::new(alloc);
    for n in 0..words.len() {
        push_word(alloc, &mut name, words.get(n))?;
    }
    let letters = name.as_slice();
    string_of(alloc, letters.split_at(letters.len().min(1)).1)
}

// Whether a path ends with `/`.
fn lacks_name(path: &str) -> bool
    ensures { result ≡ lacks_name path.now }
{
    let bytes = path.as_bytes();
    !bytes.is_empty() && bytes[bytes.len() - 1] == b'/'
}

/// A path with its name, which is made of words where it is missing.
pub(crate) fn full_path(alloc: Global, path: &str, words: &Words) -> Result<Utf8Text, AllocError>
    ensures { IfOk result (λ t. t ≡ full_path path.now words.now) }
{
    let mut full = String::from_str(alloc, path)?;
    if lacks_name(path) {
        let name = made_name(alloc, words)?;
        full.push_str(name.as_str())?;
    }
    Ok(Utf8Text::of_string(full))
}
