//! The faces that are set, and which of them is that of a name.

ghost use Rattle.std.specs.Prelude.{◌≡◌, OnOk, OnErr};
ghost use Rattle.std.specs.Option.{option_copied};
ghost use Rattle.tables.specs.Tables.{place_where, put_where};
ghost use Rattle.face_texts.specs.Tables.{is_named, text_named, text_of_base, is_base};

use crate::text::FaceText;
use byte_texts::Utf8Text;
use std::alloc::AllocError;

/// A face under a name.
#[derive(Drop, Debug)]
pub struct NamedFace {
    pub name: Utf8Text,
    pub text: FaceText,
}

/// Whether a row is that of a name.
pub(crate) fn is_named(row: &NamedFace, name: &str) -> bool
    ensures { result ≡ is_named name.now row.now }
{
    row.name.as_str() == name
}

/// The text that a name is set to.
pub(crate) fn text_named<'a>(rows: &'a [NamedFace], name: &str) -> Option<&'a FaceText>
    ensures { option_copied result ≡ text_named rows.now name.now }
{
    for row in rows {
        if is_named(row, name) {
            return Some(&row.text);
        }
    }
    None
}

/// What the base of a text is set to.
pub(crate) fn text_of_base<'a>(rows: &'a [NamedFace], text: &FaceText) -> Option<&'a FaceText>
    ensures { option_copied result ≡ text_of_base rows.now text.now.base }
{
    match &text.base {
        None => None,
        Some(name) => text_named(rows, name.as_str()),
    }
}

/// Whether the base of a text is a name.
pub(crate) fn is_based_on(text: &FaceText, name: &str) -> bool
    ensures { result ≡ is_base name.now text.now.base }
{
    match &text.base {
        None => false,
        Some(base) => base.as_str() == name,
    }
}

// The place of the row of a name, or how many rows there are where none is.
fn place(rows: &[NamedFace], name: &str) -> usize
    ensures { result ≡ place_where (is_named name.now) rows.now }
{
    for (i, row) in rows.iter().enumerate() {
        if is_named(row, name) {
            return i;
        }
    }
    rows.len()
}

/// Puts a row in place of the one of its name, or at the end. An `Err` leaves the rows.
pub(crate) fn put(rows: &mut Vec<NamedFace>, row: NamedFace) -> Result<(), AllocError>
    ensures ok { OnOk result (rows.new.items ≡ put_where (is_named row.name) row rows.old.items) }
    ensures err { OnErr result (rows.new.items ≡ rows.old.items) }
{
    let at = place(rows.as_slice(), row.name.as_str());
    if at < rows.len() {
        rows[at] = row;
        return Ok(());
    }
    rows.push(row)?;
    Ok(())
}
