//! The types and values of options, and how words are read as values.

ghost use Rattle.std.specs.Prelude.{◌≡◌, ◌==◌, ◌++◌, slice_index, IfOk};
ghost use Rattle.scope_options.specs.Values.{kind_of, is_same_type, int_of, bool_of, read_word, read_value, added};

use byte_texts::{Utf8Text, Words};
use std::alloc::{AllocError, Global};

/// The type of an option: a whole number of 32 bits, a truth value, a text, or a list of texts.
#[derive(Clone, Copy, PartialEq, Eq, Debug)]
pub enum OptionType {
    Int,
    Bool,
    Str,
    StrList,
}

/// A value of an option.
#[derive(Drop, Debug)]
pub enum OptionValue {
    Int(i32),
    Bool(bool),
    Str(Utf8Text),
    StrList(Words),
}

/// The type of a value.
pub(crate) fn kind_of(value: &OptionValue) -> OptionType
    ensures { result ≡ kind_of value.now }
{
    match value {
        OptionValue::Int(_) => OptionType::Int,
        OptionValue::Bool(_) => OptionType::Bool,
        OptionValue::Str(_) => OptionType::Str,
        OptionValue::StrList(_) => OptionType::StrList,
    }
}

/// Whether two types are one.
pub(crate) fn is_same_type(a: OptionType, b: OptionType) -> bool
    ensures { result ≡ is_same_type a b }
{
    matches!(
        (a, b),
        (OptionType::Int, OptionType::Int)
            | (OptionType::Bool, OptionType::Bool)
            | (OptionType::Str, OptionType::Str)
            | (OptionType::StrList, OptionType::StrList)
    )
}

// Whether a word begins with `+`.
fn begins_plus(word: &str) -> bool
    ensures { result ≡ (slice_index word.now 0 == 43) }
{
    match word.as_bytes().first() {
        Some(c) => *c == b'+',
        None => false,
    }
}

// The number of a word: `-` or nothing, and decimal digits.
fn int_of(word: &str) -> Option<i32>
    ensures { result ≡ int_of word.now }
{
    if begins_plus(word) {
        return None;
    }
    word.parse::<i32>().ok()
}

// The truth value of a word.
fn bool_of(word: &str) -> Option<bool>
    ensures { result ≡ bool_of word.now }
{
    match word {
        "true" => Some(true),
        "false" => Some(false),
        _ => None,
    }
}

// The value of one word.
fn read_word(alloc: Global, kind: OptionType, word: &str) -> Result<Option<OptionValue>, AllocError>
    ensures { IfOk result (λ o. o ≡ read_word kind word.now) }
{
    match kind {
        OptionType::Int => Ok(int_of(word).map(OptionValue::Int)),
        OptionType::Bool => Ok(bool_of(word).map(OptionValue::Bool)),
        OptionType::Str => Ok(Some(OptionValue::Str(Utf8Text::from_str(alloc, word)?))),
        OptionType::StrList => Ok(None),
    }
}

/// The value of a type that words are; None where they are none.
pub(crate) fn read_value(
    alloc: Global,
    kind: OptionType,
    words: &Words,
) -> Result<Option<OptionValue>, AllocError>
    ensures { IfOk result (λ o. o ≡ read_value kind words.now) }
{
    if is_same_type(kind, OptionType::StrList) {
        return Ok(Some(OptionValue::StrList(words.copy(alloc)?)));
    }
    if words.len() != 1 {
        return Ok(None);
    }
    read_word(alloc, kind, words.get(0))
}

// A text with another behind it.
fn joined(alloc: Global, text: &str, more: &str) -> Result<Utf8Text, AllocError>
    ensures { IfOk result (λ t. t ≡ text.now ++ more.now) }
{
    let mut all = String::from_str(alloc, text)?;
    all.push_str(more)?;
    Ok(Utf8Text::of_string(all))
}

// A list of texts with another behind it.
fn appended(alloc: Global, list: &Words, more: Words) -> Result<Words, AllocError>
    ensures { IfOk result (λ w. w ≡ list.now ++ more) }
{
    let mut all = list.copy(alloc)?;
    all.append(more)?;
    Ok(all)
}

/// A value with another of its type added: the sum, the text with the other behind it, or the list with the other
/// behind it. None for truth values, and where the sum doesn't fit.
pub(crate) fn added(
    alloc: Global,
    value: &OptionValue,
    more: OptionValue,
) -> Result<Option<OptionValue>, AllocError>
    ensures { IfOk result (λ o. o ≡ added value.now more) }
{
    match (value, more) {
        (OptionValue::Int(a), OptionValue::Int(b)) => Ok(a.checked_add(b).map(OptionValue::Int)),
        (OptionValue::Str(text), OptionValue::Str(more)) => Ok(Some(OptionValue::Str(joined(
            alloc,
            text.as_str(),
            more.as_str(),
        )?))),
        (OptionValue::StrList(list), OptionValue::StrList(more)) => {
            Ok(Some(OptionValue::StrList(appended(alloc, list, more)?)))
        }
        _ => Ok(None),
    }
}
