//! Reading a text as commands.

ghost use Rattle.std.specs.Prelude.{◌≡◌, ◌≤◌, ◌∷◌, ◌++◌, [], true, false, Ok, length, OnOk, IfOk, IfErr};
ghost use Rattle.std.specs.Str.{chars};
ghost use Rattle.kak_words.specs.Characters.{ends_word};
ghost use Rattle.kak_words.specs.Closing.{up_to, plain};
ghost use Rattle.kak_words.specs.Reading.{first_word, single_word, double_word, text_word, past_comment, command_on, begins_comment, commands_of};
ghost use Rattle.kak_words.specs.Splits.{IsFormWord, IsWord};
ghost use Rattle.kak_words.specs.Errors.{IsUnclosed};

use crate::closing::{Found, plain, up_to};
use crate::double_quotes::{named, pieces_of};
use crate::forms::{Form, form_at};
use crate::parts::{Command, CommandWords, Piece, Pieces, Word, WordError};
use crate::placed::{Placed, ends_command, is_blank, text_of, with_places};
use std::alloc::{AllocError, Global};

// A word of one piece.
fn word_of(alloc: Global, piece: Piece, quoted: bool) -> Result<Word, AllocError>
    ensures { IfOk result (λ w. w ≡ record { pieces = piece ∷ []; quoted = quoted }) }
{
    let mut pieces = Vec::new(alloc);
    pieces.push(piece)?;
    Ok(Word {
        pieces: Pieces::of_vec(pieces),
        quoted,
    })
}

// A single-quoted word, whose quote stands at a place, by what stands behind it.
fn single_word<'a>(
    alloc: Global,
    at: usize,
    behind: &'a [Placed],
) -> Result<(Word, &'a [Placed]), WordError>
    ensures word { IfOk result (λ r. IsWord (single_word at (up_to 39 false behind.now)) r.0 r.1.now) }
    ensures unclosed { IfErr result (λ e. IsUnclosed e (single_word at (up_to 39 false behind.now))) }
    ensures shorter { IfOk result (λ r. length r.1.now ≤ length behind.now) }
{
    let Some(found) = up_to(alloc, behind, '\'')? else {
        return Err(WordError::Unclosed(at));
    };
    let text = text_of(alloc, found.inside.as_slice())?;
    Ok((word_of(alloc, Piece::Plain(text), true)?, found.rest))
}

// A double-quoted word, whose quote stands at a place, by what stands behind it.
fn double_word<'a>(
    alloc: Global,
    at: usize,
    behind: &'a [Placed],
) -> Result<(Word, &'a [Placed]), WordError>
    ensures word { IfOk result (λ r. IsWord (double_word at (up_to 34 false behind.now)) r.0 r.1.now) }
    ensures unclosed { IfErr result (λ e. IsUnclosed e (double_word at (up_to 34 false behind.now))) }
    ensures shorter { IfOk result (λ r. length r.1.now ≤ length behind.now) }
{
    let Some(found) = up_to(alloc, behind, '"')? else {
        return Err(WordError::Unclosed(at));
    };
    let pieces = pieces_of(alloc, found.inside.as_slice())?;
    let word = Word {
        pieces: Pieces::of_vec(pieces),
        quoted: true,
    };
    Ok((word, found.rest))
}

// A plain word.
fn plain_word<'a>(
    alloc: Global,
    first: Placed,
    behind: &'a [Placed],
) -> Result<(Word, &'a [Placed]), WordError>
    requires { ends_word first.c ≡ false }
    ensures word { IfOk result (λ r. text_word false (plain true false (first ∷ behind.now)) ≡ record { word = r.0; rest = r.1.now }) }
    ensures memory { IfErr result (λ e. e ≡ WordError.NoMemory) }
    ensures shorter { IfOk result (λ r. length r.1.now ≤ length behind.now) }
{
    let found = plain(alloc, first, behind)?;
    let text = text_of(alloc, found.inside.as_slice())?;
    Ok((word_of(alloc, Piece::Plain(text), false)?, found.rest))
}

// The word of a form.
fn form_word<'a>(alloc: Global, form: Form<'a>) -> Result<(Word, &'a [Placed]), AllocError>
    ensures word { IfOk result (λ r. IsFormWord form.entry.kind.now form.entry.inside.items form.entry.rest.now r.0 r.1.now) }
    ensures rest { IfOk result (λ r. r.1.now ≡ form.entry.rest.now) }
{
    if form.kind.is_empty() {
        let text = text_of(alloc, form.inside.as_slice())?;
        return Ok((word_of(alloc, Piece::Plain(text), true)?, form.rest));
    }
    let named = named(alloc, form.kind, form.inside.as_slice())?;
    Ok((word_of(alloc, Piece::Expansion(named), false)?, form.rest))
}

// The word that begins with a character, and what stands behind it. `Unclosed` tells the place of its quote or `%`.
fn first_word<'a>(
    alloc: Global,
    first: Placed,
    behind: &'a [Placed],
) -> Result<(Word, &'a [Placed]), WordError>
    requires { ends_word first.c ≡ false }
    ensures word { IfOk result (λ r. IsWord (first_word first behind.now) r.0 r.1.now) }
    ensures unclosed { IfErr result (λ e. IsUnclosed e (first_word first behind.now)) }
    ensures shorter { IfOk result (λ r. length r.1.now ≤ length behind.now) }
{
    if first.c == '\'' {
        return single_word(alloc, first.at, behind);
    }
    if first.c == '"' {
        return double_word(alloc, first.at, behind);
    }
    if first.c == '%' {
        let Some(form) = form_at(alloc, false, first.at, behind)? else {
            return plain_word(alloc, first, behind);
        };
        return Ok(form_word(alloc, form)?);
    }
    plain_word(alloc, first, behind)
}

// Whether a character begins a comment behind some words of a command.
fn begins_comment(c: char, words: &[Word]) -> bool
    ensures { result ≡ begins_comment c words.now }
{
    c == '#' && words.is_empty()
}

// What stands from the newline on that ends a comment.
fn past_comment(text: &[Placed]) -> &[Placed]
    ensures rest { result.now ≡ past_comment text.now }
    ensures shorter { length result.now ≤ length text.now }
{
    for (i, p) in text.iter().enumerate() {
        if p.c == '\n' {
            let (_, rest) = text.split_at(i);
            return rest;
        }
    }
    let (_, rest) = text.split_at(text.len());
    rest
}

// Adds a command of words, if there are any.
fn push_command(commands: &mut Vec<Command>, words: Vec<Word>) -> Result<(), AllocError>
    ensures { OnOk result (commands.new.items ≡ commands.old.items ++ command_on words.items []) }
{
    if words.is_empty() {
        return Ok(());
    }
    commands.push(Command {
        words: CommandWords::of_vec(words),
    })?;
    Ok(())
}

/// The commands of a text. `Unclosed` tells the place, in characters from 0, of the first quote or `%` that isn't
/// closed; the other error is `NoMemory`.
pub fn read_commands(alloc: Global, text: &str) -> Result<Vec<Command>, WordError>
    ensures commands { IfOk result (λ v. commands_of (chars text.now) ≡ Ok v.items) }
    ensures unclosed { IfErr result (λ e. IsUnclosed e (commands_of (chars text.now))) }
{
    let all = with_places(alloc, text)?;
    let mut rest = all.as_slice();
    let mut commands = Vec::new(alloc);
    let mut words = Vec::new(alloc);
    while let Some((p, behind)) = rest.split_first() {
        if is_blank(p.c) {
            rest = behind;
            continue;
        }
        if ends_command(p.c) {
            push_command(
                &mut commands,
                std::mem::replace(&mut words, Vec::new(alloc)),
            )?;
            rest = behind;
            continue;
        }
        if begins_comment(p.c, words.as_slice()) {
            rest = past_comment(behind);
            continue;
        }
        let (word, further) = first_word(alloc, *p, behind)?;
        words.push(word).map_err(AllocError::from)?;
        rest = further;
    }
    push_command(&mut commands, words)?;
    Ok(commands)
}
