//! What a `%` begins.

ghost use Rattle.std.specs.Prelude.{◌≡◌, ◌≤◌, None, Ok, length, IfOk, IfErr, IfSome, MatchOption};
ghost use Rattle.kak_words.specs.Forms.{letter_count, is_nameless, opens, form_at};
ghost use Rattle.kak_words.specs.Splits.{IsForm};
ghost use Rattle.kak_words.specs.Errors.{IsUnclosed};

use crate::closing::{Found, closed_by};
use crate::parts::WordError;
use crate::placed::{Placed, is_mark};
use std::alloc::Global;

/// A form: the letters of its kind, its text, and what stands behind it.
#[derive(Drop)]
pub(crate) struct Form<'a> {
    pub kind: &'a [Placed],
    pub inside: Vec<Placed>,
    pub rest: &'a [Placed],
}

// How many letters a text begins with.
fn letter_count(text: &[Placed]) -> usize
    ensures count { result ≡ letter_count text.now }
    ensures inside { result ≤ length text.now }
{
    for (i, p) in text.iter().enumerate() {
        if !p.c.is_alphabetic() {
            return i;
        }
    }
    text.len()
}

// Whether a mark opens a form.
fn opens(quoted: bool, kind: &[Placed], c: char) -> bool
    ensures { result ≡ opens quoted kind.now c }
{
    is_mark(c) && !(quoted && (kind.is_empty() || c == '"'))
}

/// The form that the `%` at a place begins, by what stands behind it; None where it stands for itself. `Unclosed` tells
/// the place.
pub(crate) fn form_at<'a>(
    alloc: Global,
    quoted: bool,
    at: usize,
    text: &'a [Placed],
) -> Result<Option<Form<'a>>, WordError>
    ensures found { IfOk result (λ o. MatchOption o (form_at quoted at text.now ≡ Ok None) (λ f. IsForm (form_at quoted at text.now) f.kind.now f.inside.items f.rest.now)) }
    ensures unclosed { IfErr result (λ e. IsUnclosed e (form_at quoted at text.now)) }
    ensures shorter { IfOk result (λ o. IfSome o (λ f. length f.rest.now ≤ length text.now)) }
{
    let (kind, behind) = text.split_at(letter_count(text));
    let Some((mark, behind)) = behind.split_first() else {
        return Ok(None);
    };
    if !opens(quoted, kind, mark.c) {
        return Ok(None);
    }
    let Some(found) = closed_by(alloc, behind, mark.c)? else {
        return Err(WordError::Unclosed(at));
    };
    let Found { inside, rest } = found;
    Ok(Some(Form { kind, inside, rest }))
}
