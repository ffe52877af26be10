//! How many words a command takes, and which these are.

ghost use Rattle.std.specs.Prelude.{◌≡◌, map, string_bytes, Ok, IfOk, IfErr};
ghost use Rattle.command_forms.specs.Arguments.{no_words, one_word, optional_word, headed, paired, IsHeaded, IsPaired};
ghost use Rattle.command_forms.specs.Errors.{IsDue};

use crate::error::OrderError;
use byte_texts::{Utf8Text, Words};
use std::alloc::{AllocError, Global};

// A copy of a word.
pub(crate) fn text_of(alloc: Global, word: &String) -> Result<Utf8Text, AllocError>
    ensures { IfOk result (λ t. t ≡ string_bytes word.now) }
{
    Utf8Text::from_str(alloc, word.as_str())
}

// Copies of words.
pub(crate) fn words_of(alloc: Global, words: &[String]) -> Result<Words, AllocError>
    ensures { IfOk result (λ ws. ws ≡ map (λ w. string_bytes w) words.now) }
{
    let mut copies = Vec::with_capacity(alloc, words.len())?;
    for word in words {
        copies.push(String::from_str(alloc, word.as_str())?)?;
    }
    Ok(Words::of_vec(copies))
}

// What takes no word.
pub(crate) fn no_words<T: Drop>(value: T, words: &[String]) -> Result<T, OrderError>
    ensures value { IfOk result (λ v. no_words value (map (λ w. string_bytes w) words.now) ≡ Ok v) }
    ensures refused { IfErr result (λ e. IsDue e (no_words value (map (λ w. string_bytes w) words.now))) }
{
    match words {
        [] => Ok(value),
        _ => Err(OrderError::WrongArgumentCount),
    }
}

// The only word.
pub(crate) fn one_word(alloc: Global, words: &[String]) -> Result<Utf8Text, OrderError>
    ensures word { IfOk result (λ t. one_word (map (λ w. string_bytes w) words.now) ≡ Ok t) }
    ensures refused { IfErr result (λ e. IsDue e (one_word (map (λ w. string_bytes w) words.now))) }
{
    match words {
        [word] => Ok(text_of(alloc, word)?),
        _ => Err(OrderError::WrongArgumentCount),
    }
}

// The only word, if there is one.
pub(crate) fn optional_word(alloc: Global, words: &[String]) -> Result<Option<Utf8Text>, OrderError>
    ensures word { IfOk result (λ t. optional_word (map (λ w. string_bytes w) words.now) ≡ Ok t) }
    ensures refused { IfErr result (λ e. IsDue e (optional_word (map (λ w. string_bytes w) words.now))) }
{
    match words {
        [] => Ok(None),
        [word] => Ok(Some(text_of(alloc, word)?)),
        _ => Err(OrderError::WrongArgumentCount),
    }
}

// The first word, and those behind it.
pub(crate) fn headed(words: &[String]) -> Result<(&String, &[String]), OrderError>
    ensures words { IfOk result (λ r. IsHeaded (map (λ w. string_bytes w) words.now) (string_bytes r.0.now) (map (λ w. string_bytes w) r.1.now)) }
    ensures refused { IfErr result (λ e. IsDue e (headed (map (λ w. string_bytes w) words.now))) }
{
    match words {
        [] => Err(OrderError::WrongArgumentCount),
        [head, ..] => Ok((head, words.split_at(1).1)),
    }
}

// The first two words, and those behind them.
pub(crate) fn paired(words: &[String]) -> Result<(&String, &String, &[String]), OrderError>
    ensures words { IfOk result (λ r. IsPaired (map (λ w. string_bytes w) words.now) (string_bytes r.0.now) (string_bytes r.1.now) (map (λ w. string_bytes w) r.2.now)) }
    ensures refused { IfErr result (λ e. IsDue e (paired (map (λ w. string_bytes w) words.now))) }
{
    match words {
        [first, second, ..] => Ok((first, second, words.split_at(2).1)),
        _ => Err(OrderError::WrongArgumentCount),
    }
}
