//! Keys and texts that are run, as commands order them.

ghost use Rattle.std.specs.Prelude.{◌≡◌, map, string_bytes, Ok, IfOk, IfErr};
ghost use Rattle.command_forms.specs.Runs.{playing, caught, trying};
ghost use Rattle.command_forms.specs.Errors.{IsDue};

use crate::arguments::{headed, no_words, one_word, paired, text_of};
use crate::error::OrderError;
use crate::order::Order;
use crate::switches::{Given, Switch, is_given};
use byte_texts::Utf8Text;
use std::alloc::Global;

/// Keys that are to be run, as they are written, and whether they have hooks and are mapped.
#[derive(Drop, Debug)]
pub struct PlayOrder {
    pub keys: Utf8Text,
    pub hooks: bool,
    pub maps: bool,
}

/// A text that is to be run as commands, and the one that is run where it fails, which is empty where none was given.
#[derive(Drop, Debug)]
pub struct TryOrder {
    pub first: Utf8Text,
    pub catching: Utf8Text,
}

/// Running keys takes them.
pub(crate) fn playing(alloc: Global, given: &[Given], words: &[String]) -> Result<Order, OrderError>
    ensures order { IfOk result (λ o. playing given.now (map (λ w. string_bytes w) words.now) ≡ Ok o) }
    ensures refused { IfErr result (λ e. IsDue e (playing given.now (map (λ w. string_bytes w) words.now))) }
{
    Ok(Order::Play(PlayOrder {
        keys: one_word(alloc, words)?,
        hooks: is_given(Switch::WithHooks, given),
        maps: is_given(Switch::WithMaps, given),
    }))
}

// What is tried, by the words behind the first text.
fn caught(alloc: Global, first: &String, words: &[String]) -> Result<Order, OrderError>
    ensures order { IfOk result (λ o. caught (string_bytes first.now) (map (λ w. string_bytes w) words.now) ≡ Ok o) }
    ensures refused { IfErr result (λ e. IsDue e (caught (string_bytes first.now) (map (λ w. string_bytes w) words.now))) }
{
    let (word, catching, more) = paired(words)?;
    if word.as_str() != "catch" {
        return Err(OrderError::WrongArgumentCount);
    }
    let texts = TryOrder {
        first: text_of(alloc, first)?,
        catching: text_of(alloc, catching)?,
    };
    no_words(Order::Try(texts), more)
}

/// Trying takes a text, and, behind the word `catch`, the one that is run where the first fails.
pub(crate) fn trying(alloc: Global, words: &[String]) -> Result<Order, OrderError>
    ensures order { IfOk result (λ o. trying (map (λ w. string_bytes w) words.now) ≡ Ok o) }
    ensures refused { IfErr result (λ e. IsDue e (trying (map (λ w. string_bytes w) words.now))) }
{
    let (first, more) = headed(words)?;
    if more.is_empty() {
        return Ok(Order::Try(TryOrder {
            first: text_of(alloc, first)?,
            catching: Utf8Text::of_string(String::new(alloc)),
        }));
    }
    caught(alloc, first, more)
}
