//! Reading descriptions of selections.

ghost use Rattle.std.specs.Prelude.{◌≡◌, map, string_bytes, Ok, IfOk, IfErr};
ghost use Rattle.command_forms.specs.Places.{place_of, described_of, description, descriptions};
ghost use Rattle.command_forms.specs.Errors.{IsDue};

use crate::arguments::text_of;
use crate::error::OrderError;
use crate::numbers::number_of;
use crate::parting::parted;
use crate::places::{ArgumentPlace, Described, Descriptions};
use std::alloc::{AllocError, Global};

// The place that a text is.
fn place_of(text: &str) -> Option<ArgumentPlace>
    ensures { result ≡ place_of text.now }
{
    let (line, column) = parted(text, '.')?;
    Some(ArgumentPlace {
        line: number_of(line.as_bytes())?,
        column: number_of(column.as_bytes())?,
    })
}

// The selection that a word describes.
fn described_of(word: &str) -> Option<Described>
    ensures { result ≡ described_of word.now }
{
    let (anchor, cursor) = parted(word, ',')?;
    Some(Described {
        anchor: place_of(anchor)?,
        cursor: place_of(cursor)?,
    })
}

// The selection that a word describes, or that it describes none.
fn description(alloc: Global, word: &String) -> Result<Described, OrderError>
    ensures given { IfOk result (λ d. description (string_bytes word.now) (described_of (string_bytes word.now)) ≡ Ok d) }
    ensures refused { IfErr result (λ e. IsDue e (description (string_bytes word.now) (described_of (string_bytes word.now)))) }
{
    let Some(described) = described_of(word.as_str()) else {
        return Err(OrderError::BadSelection(text_of(alloc, word)?));
    };
    Ok(described)
}

/// The selections that words describe, or the first word that describes none.
pub(crate) fn descriptions(alloc: Global, words: &[String]) -> Result<Descriptions, OrderError>
    ensures given { IfOk result (λ ds. descriptions (map (λ w. string_bytes w) words.now) ≡ Ok ds) }
    ensures refused { IfErr result (λ e. IsDue e (descriptions (map (λ w. string_bytes w) words.now))) }
{
    let mut list = Vec::with_capacity(alloc, words.len())?;
    for word in words {
        let described = description(alloc, word)?;
        list.push(described).map_err(AllocError::from)?;
    }
    Ok(Descriptions::of_vec(list))
}
