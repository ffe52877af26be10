//! Replacing the expansions of a command.

ghost use Rattle.std.specs.Prelude.{◌≡◌, ◌++◌, ℕ, List, Ok, map, string_bytes, Option, IfOk, IfErr, OnOk};
ghost use Rattle.std.specs.List.{join_with_byte};
ghost use Rattle.kak_words.specs.Results.{all_of};
ghost use Rattle.kak_words.specs.Expanding.{piece_strings, piece_text, word_strings, expanded};
ghost use Rattle.kak_words.specs.Errors.{IsUnknown};
ghost use Rattle.kak_words.specs.Adding.{AddsElements};

use crate::parts::{Command, Piece, Word, WordError};
use byte_texts::{Utf8Text, Words};
use std::alloc::{AllocError, Global};

/// A table of expansions.
pub trait Lookup {
    ghost table: { Self → List ℕ → List ℕ → Option (List (List ℕ)) };

    /// The strings that an expansion of this kind and name stands for; None where there is no such expansion.
    fn look(&self, alloc: Global, kind: &str, name: &str) -> Result<Option<Words>, AllocError>
        ensures { IfOk result (λ found. found ≡ table self.now kind.now name.now) };
}

// Adds the strings of a piece.
fn push_strings<L: Lookup>(
    alloc: Global,
    table: &L,
    piece: &Piece,
    out: &mut Words,
) -> Result<(), WordError>
    ensures ok { OnOk result (AddsElements out.old out.new (piece_strings (L.table table.now) piece.now)) }
    ensures unknown { IfErr result (λ e. IsUnknown e (piece_strings (L.table table.now) piece.now)) }
{
    match piece {
        Piece::Plain(text) => {
            out.push(String::from_str(alloc, text.as_str())?)?;
            Ok(())
        }
        Piece::Expansion(named) => {
            let Some(found) = table.look(alloc, named.kind.as_str(), named.name.as_str())? else {
                let name = Utf8Text::from_str(alloc, named.name.as_str())?;
                return Err(WordError::UnknownExpansion(name));
            };
            out.append(found)?;
            Ok(())
        }
    }
}

// Adds the strings of a piece to a text, joined by spaces.
fn push_text<L: Lookup>(
    alloc: Global,
    table: &L,
    piece: &Piece,
    out: &mut String,
) -> Result<(), WordError>
    ensures ok { OnOk result (AddsElements (string_bytes out.old) (string_bytes out.new) (piece_text (L.table table.now) piece.now)) }
    ensures unknown { IfErr result (λ e. IsUnknown e (piece_text (L.table table.now) piece.now)) }
{
    let mut strings = Words::new(alloc);
    push_strings(alloc, table, piece, &mut strings)?;
    push_joined(out, &strings)?;
    Ok(())
}

// Adds strings to a text, joined by spaces.
fn push_joined(out: &mut String, strings: &Words) -> Result<(), AllocError>
    ensures { OnOk result (string_bytes out.new ≡ string_bytes out.old ++ join_with_byte 32 strings.now) }
{
    if strings.len() == 0 {
        return Ok(());
    }
    out.push_str(strings.get(0))?;
    for n in 1..strings.len() {
        out.push_str(" ")?;
        out.push_str(strings.get(n))?;
    }
    Ok(())
}

// Adds the strings of a word: one, where it is quoted.
fn push_word<L: Lookup>(
    alloc: Global,
    table: &L,
    word: &Word,
    out: &mut Words,
) -> Result<(), WordError>
    ensures ok { OnOk result (AddsElements out.old out.new (word_strings (L.table table.now) word.now)) }
    ensures unknown { IfErr result (λ e. IsUnknown e (word_strings (L.table table.now) word.now)) }
{
    if !word.quoted {
        return push_pieces(alloc, table, word.pieces.as_slice(), out);
    }
    out.push(quoted_text(alloc, table, word.pieces.as_slice())?)?;
    Ok(())
}

// Adds the strings of pieces.
fn push_pieces<L: Lookup>(
    alloc: Global,
    table: &L,
    pieces: &[Piece],
    out: &mut Words,
) -> Result<(), WordError>
    ensures ok { OnOk result (AddsElements out.old out.new (all_of (piece_strings (L.table table.now)) pieces.now)) }
    ensures unknown { IfErr result (λ e. IsUnknown e (all_of (piece_strings (L.table table.now)) pieces.now)) }
{
    for piece in pieces {
        push_strings(alloc, table, piece, out)?;
    }
    Ok(())
}

// The text of a quoted word's pieces.
fn quoted_text<L: Lookup>(alloc: Global, table: &L, pieces: &[Piece]) -> Result<String, WordError>
    ensures text { IfOk result (λ s. all_of (piece_text (L.table table.now)) pieces.now ≡ Ok (string_bytes s)) }
    ensures unknown { IfErr result (λ e. IsUnknown e (all_of (piece_text (L.table table.now)) pieces.now)) }
{
    let mut text = String::new(alloc);
    for piece in pieces {
        push_text(alloc, table, piece, &mut text)?;
    }
    Ok(text)
}

/// The words that a command stands for, by a table of expansions. `UnknownExpansion` tells the name of the first that
/// isn't in the table; the other error is `NoMemory`.
pub fn expand<L: Lookup>(
    alloc: Global,
    command: &Command,
    table: &L,
) -> Result<Vec<String>, WordError>
    ensures words { IfOk result (λ v. expanded (L.table table.now) command.now ≡ Ok (map (λ word. string_bytes word) v.items)) }
    ensures unknown { IfErr result (λ e. IsUnknown e (expanded (L.table table.now) command.now)) }
{
    let mut strings = Words::new(alloc);
    for word in command.words.as_slice() {
        push_word(alloc, table, word, &mut strings)?;
    }
    Ok(strings.into_vec())
}
