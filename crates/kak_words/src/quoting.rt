//! Quoting a word.

ghost use Rattle.std.specs.Prelude.{◌≡◌, IfOk, Ok, ◌∷◌, [], ◌++◌, OnOk, string_bytes, encode_utf8_all};
ghost use Rattle.std.specs.Str.{chars};
ghost use Rattle.kak_words.specs.Quoting.{quoted, doubled, quoted_command};
ghost use Rattle.kak_words.specs.Reading.{commands_of};

use crate::placed::characters;
use std::alloc::{AllocError, Global};

// Adds a text with each quote doubled.
fn push_doubled(out: &mut String, word: &[char]) -> Result<(), AllocError>
    ensures { OnOk result (string_bytes out.new ≡ string_bytes out.old ++ encode_utf8_all (doubled word.now)) }
{
    for c in word {
        if *c == '\'' {
            out.push_str("''")?;
            continue;
        }
        out.push(*c)?;
    }
    Ok(())
}

/// A word in single quotes, with each quote in it doubled. It is read as one command of this one word.
pub fn quote(alloc: Global, word: &str) -> Result<String, AllocError>
    ensures text { IfOk result (λ s. string_bytes s ≡ encode_utf8_all (quoted (chars word.now))) }
    ensures read_back { IfOk result (λ s. commands_of (chars (string_bytes s)) ≡ Ok (quoted_command word.now ∷ [])) }
{
    let mut text = String::new(alloc);
    text.push_str("'")?;
    push_doubled(&mut text, characters(alloc, word)?.as_slice())?;
    text.push_str("'")?;
    Ok(text)
}
