//! The pieces of a double-quoted word.

ghost use Rattle.std.specs.Prelude.{◌≡◌, ◌<◌, ◌++◌, ◌∷◌, [], true, false, Ok, drop, length, OnOk, IfSome, IfNone, IfOk, IfErr, string_bytes};
ghost use Rattle.kak_words.specs.Closing.{text_of};
ghost use Rattle.kak_words.specs.Pieces.{pieces_of, begins_percent, flushed};
ghost use Rattle.kak_words.specs.Errors.{IsUnclosed};
ghost use Rattle.kak_words.specs.declared.parts.Piece.{Piece};

use crate::forms::form_at;
use crate::parts::{Named, Piece, WordError};
use crate::placed::{Placed, text_of};
use byte_texts::Utf8Text;
use std::alloc::{AllocError, Global};

/// The expansion of a kind and a name.
pub(crate) fn named(alloc: Global, kind: &[Placed], name: &[Placed]) -> Result<Named, AllocError>
    ensures { IfOk result (λ n. n ≡ record { kind = text_of kind.now; name = text_of name.now }) }
{
    Ok(Named {
        kind: text_of(alloc, kind)?,
        name: text_of(alloc, name)?,
    })
}

// What stands behind a `%` that stands first; None where none does.
fn past_percent(text: &[Placed]) -> Option<&[Placed]>
    ensures some { IfSome result (λ rest. (begins_percent text.now ≡ true) × (rest.now ≡ drop 1 text.now)) }
    ensures none { IfNone result (begins_percent text.now ≡ false) }
    ensures shorter { IfSome result (λ rest. length rest.now < length text.now) }
{
    let (p, rest) = text.split_first()?;
    if p.c != '%' {
        return None;
    }
    Some(rest)
}

// Adds a plain piece, if its text isn't empty.
fn push_plain(pieces: &mut Vec<Piece>, plain: String) -> Result<(), AllocError>
    ensures { OnOk result (pieces.new.items ≡ pieces.old.items ++ flushed (string_bytes plain)) }
{
    if plain.is_empty() {
        return Ok(());
    }
    pieces.push(Piece::Plain(Utf8Text::of_string(plain)))?;
    Ok(())
}

/// The pieces of what stands between double quotes. `Unclosed` tells the place of a `%` whose form isn't closed.
pub(crate) fn pieces_of(alloc: Global, text: &[Placed]) -> Result<Vec<Piece>, WordError>
    ensures pieces { IfOk result (λ v. pieces_of text.now ≡ Ok v.items) }
    ensures unclosed { IfErr result (λ e. IsUnclosed e (pieces_of text.now)) }
{
    let mut pieces = Vec::new(alloc);
    let mut plain = String::new(alloc);
    let mut rest = text;
    while let Some((p, behind)) = rest.split_first() {
        if p.c != '%' {
            plain.push(p.c)?;
            rest = behind;
            continue;
        }
        if let Some(further) = past_percent(behind) {
            plain.push('%')?;
            rest = further;
            continue;
        }
        let Some(form) = form_at(alloc, true, p.at, behind)? else {
            plain.push('%')?;
            rest = behind;
            continue;
        };
        push_plain(
            &mut pieces,
            std::mem::replace(&mut plain, String::new(alloc)),
        )?;
        let named = named(alloc, form.kind, form.inside.as_slice())?;
        pieces
            .push(Piece::Expansion(named))
            .map_err(AllocError::from)?;
        rest = form.rest;
    }
    push_plain(&mut pieces, plain)?;
    Ok(pieces)
}
