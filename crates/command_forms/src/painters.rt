//! Highlighters, as commands order them.

ghost use Rattle.std.specs.Prelude.{◌≡◌, map, string_bytes, Ok, IfOk, IfErr};
ghost use Rattle.command_forms.specs.Painters.{highlighter_type, separator_given, line_numbers, matches, placed, painter_by, painter_after, highlighter_added, highlighter_removed};
ghost use Rattle.command_forms.specs.Errors.{IsDue};

use crate::arguments::{headed, no_words, one_word, paired, text_of, words_of};
use crate::error::OrderError;
use crate::order::Order;
use crate::switches::{Given, Owner, Switch, is_given, take_switches, word_given};
use byte_texts::{Utf8Text, Words};
use std::alloc::{AllocError, Global};

/// The types of highlighters.
#[derive(Clone, Copy, PartialEq, Eq, Debug)]
pub enum HighlighterType {
    Fill,
    Regex,
    NumberLines,
    Line,
    Column,
    ShowWhitespaces,
    Group,
}

/// A highlighter that is to be added or removed.
#[derive(Drop, Debug)]
pub enum HighlighterOrder {
    /// Add one.
    Add(HighlighterWords),
    /// Remove the one of this path.
    Remove(Utf8Text),
}

/// A highlighter that is to be added.
#[derive(Drop, Debug)]
pub struct HighlighterWords {
    /// Whether one of this path may be replaced.
    pub replace: bool,
    /// Its path, with the word of a scope.
    pub path: Utf8Text,
    /// Its type and the words behind it, as they were given.
    pub words: Words,
    /// What it does.
    pub painter: PainterWords,
}

/// What a highlighter does, by words: faces, numbers and patterns aren't read yet.
#[derive(Drop, Debug)]
pub enum PainterWords {
    /// Fills with a face.
    Fill(Utf8Text),
    /// The groups of a pattern have faces.
    Regex(MatchWords),
    /// Lines are numbered.
    NumberLines(LineNumbers),
    /// The line of a number has a face.
    Line(PlaceFace),
    /// The column of a number has a face.
    Column(PlaceFace),
    /// Whitespace is shown.
    ShowWhitespaces,
    /// Other highlighters stand below it.
    Group,
}

/// A pattern, and words that each say a group and its face. There is one word at least.
#[derive(Drop, Debug)]
pub struct MatchWords {
    pub pattern: Utf8Text,
    pub groups: Words,
}

/// Whether the number of the main cursor's line has a face of its own, and what stands behind the numbers.
#[derive(Drop, Debug)]
pub struct LineNumbers {
    pub marked: bool,
    pub separator: Utf8Text,
}

/// The word of a number, and that of a face.
#[derive(Drop, Debug)]
pub struct PlaceFace {
    pub number: Utf8Text,
    pub face: Utf8Text,
}

// The type of highlighters that a word names.
fn highlighter_type(word: &str) -> Option<HighlighterType>
    ensures { result ≡ highlighter_type word.now }
{
    match word {
        "fill" => Some(HighlighterType::Fill),
        "regex" => Some(HighlighterType::Regex),
        "number-lines" => Some(HighlighterType::NumberLines),
        "line" => Some(HighlighterType::Line),
        "column" => Some(HighlighterType::Column),
        "show-whitespaces" => Some(HighlighterType::ShowWhitespaces),
        "group" => Some(HighlighterType::Group),
        _ => None,
    }
}

// What stands behind the numbers of lines: a vertical line where no switch says otherwise.
fn separator_given(alloc: Global, given: &[Given]) -> Result<Utf8Text, AllocError>
    ensures { IfOk result (λ t. t ≡ separator_given given.now) }
{
    match word_given(Switch::Separator, given) {
        Some(word) => Utf8Text::from_str(alloc, word.as_str()),
        None => Utf8Text::from_str(alloc, "│"),
    }
}

// Numbering lines takes switches alone.
fn line_numbers(alloc: Global, words: &[String]) -> Result<PainterWords, OrderError>
    ensures painter { IfOk result (λ p. line_numbers (map (λ w. string_bytes w) words.now) ≡ Ok p) }
    ensures refused { IfErr result (λ e. IsDue e (line_numbers (map (λ w. string_bytes w) words.now))) }
{
    let arguments = take_switches(alloc, Owner::NumberLines, words)?;
    let given = arguments.given.as_slice();
    let numbers = LineNumbers {
        marked: is_given(Switch::HlCursor, given),
        separator: separator_given(alloc, given)?,
    };
    no_words(PainterWords::NumberLines(numbers), arguments.words)
}

// Matches take a pattern, and one group at least.
fn matches(alloc: Global, words: &[String]) -> Result<PainterWords, OrderError>
    ensures painter { IfOk result (λ p. matches (map (λ w. string_bytes w) words.now) ≡ Ok p) }
    ensures refused { IfErr result (λ e. IsDue e (matches (map (λ w. string_bytes w) words.now))) }
{
    let (pattern, groups) = headed(words)?;
    if groups.is_empty() {
        return Err(OrderError::WrongArgumentCount);
    }
    Ok(PainterWords::Regex(MatchWords {
        pattern: text_of(alloc, pattern)?,
        groups: words_of(alloc, groups)?,
    }))
}

// A line or a column takes a number and a face.
fn placed(alloc: Global, words: &[String]) -> Result<PlaceFace, OrderError>
    ensures place { IfOk result (λ p. placed (map (λ w. string_bytes w) words.now) ≡ Ok p) }
    ensures refused { IfErr result (λ e. IsDue e (placed (map (λ w. string_bytes w) words.now))) }
{
    let (number, face, more) = paired(words)?;
    let place = PlaceFace {
        number: text_of(alloc, number)?,
        face: text_of(alloc, face)?,
    };
    no_words(place, more)
}

// What a highlighter of a type does, by the words behind the type.
fn painter_by(
    alloc: Global,
    kind: HighlighterType,
    words: &[String],
) -> Result<PainterWords, OrderError>
    ensures painter { IfOk result (λ p. painter_by kind (map (λ w. string_bytes w) words.now) ≡ Ok p) }
    ensures refused { IfErr result (λ e. IsDue e (painter_by kind (map (λ w. string_bytes w) words.now))) }
{
    match kind {
        HighlighterType::Fill => Ok(PainterWords::Fill(one_word(alloc, words)?)),
        HighlighterType::Regex => matches(alloc, words),
        HighlighterType::NumberLines => line_numbers(alloc, words),
        HighlighterType::Line => Ok(PainterWords::Line(placed(alloc, words)?)),
        HighlighterType::Column => Ok(PainterWords::Column(placed(alloc, words)?)),
        HighlighterType::ShowWhitespaces => no_words(PainterWords::ShowWhitespaces, words),
        HighlighterType::Group => no_words(PainterWords::Group, words),
    }
}

// What a highlighter does, by the word of its type and those behind it.
fn painter_after(alloc: Global, kind: &String, words: &[String]) -> Result<PainterWords, OrderError>
    ensures painter { IfOk result (λ p. painter_after (string_bytes kind.now) (map (λ w. string_bytes w) words.now) ≡ Ok p) }
    ensures refused { IfErr result (λ e. IsDue e (painter_after (string_bytes kind.now) (map (λ w. string_bytes w) words.now))) }
{
    let Some(named) = highlighter_type(kind.as_str()) else {
        return Err(OrderError::NoSuchHighlighter(text_of(alloc, kind)?));
    };
    painter_by(alloc, named, words)
}

/// Adding a highlighter takes a path, a type, and the words of that.
pub(crate) fn highlighter_added(
    alloc: Global,
    given: &[Given],
    words: &[String],
) -> Result<Order, OrderError>
    ensures order { IfOk result (λ o. highlighter_added given.now (map (λ w. string_bytes w) words.now) ≡ Ok o) }
    ensures refused { IfErr result (λ e. IsDue e (highlighter_added given.now (map (λ w. string_bytes w) words.now))) }
{
    let (path, kind, more) = paired(words)?;
    let painter = painter_after(alloc, kind, more)?;
    let (_, words) = headed(words)?;
    Ok(Order::Highlighter(HighlighterOrder::Add(HighlighterWords {
        replace: is_given(Switch::Override, given),
        path: text_of(alloc, path)?,
        words: words_of(alloc, words)?,
        painter,
    })))
}

/// Removing one takes its path.
pub(crate) fn highlighter_removed(alloc: Global, words: &[String]) -> Result<Order, OrderError>
    ensures order { IfOk result (λ o. highlighter_removed (map (λ w. string_bytes w) words.now) ≡ Ok o) }
    ensures refused { IfErr result (λ e. IsDue e (highlighter_removed (map (λ w. string_bytes w) words.now))) }
{
    let path = one_word(alloc, words)?;
    Ok(Order::Highlighter(HighlighterOrder::Remove(path)))
}
