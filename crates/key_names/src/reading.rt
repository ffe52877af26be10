//! Key texts as the keys that they spell.

ghost use Rattle.std.specs.Prelude.{◌≡◌, ℕ, ◌+◌, ◌<◌, ◌≤◌, ◌==◌, ◌∷◌, false, length, drop, position, IsTrue, IfSome, IfNone, IfOk, IfErr};
ghost use Rattle.std.specs.List.{AllPass};
ghost use Rattle.std.specs.Str.{chars};
ghost use Rattle.key_names.specs.Reading.{read_text, keys_from, written_in, key_before, key_under, modified_key, plain_key, is_held, held_with, is_modifier, begins_modified, IsReadError};
ghost use Rattle.key_names.specs.FirstKey.{ReadsFirst, NoFirst};
ghost use Rattle.key_names.specs.Printing.{has_spelling};
ghost use Rattle.key_names.specs.declared.reading.KeyError.TheVariants.{NoMemory};

use crate::key::{Base, Key};
use crate::naming::read_base;
use std::alloc::{AllocError, Global};
use thiserror::Error;

/// Why a key text isn't read.
#[derive(Clone, Copy, PartialEq, Eq, Debug, Error)]
pub enum KeyError {
    /// The key that begins at this character of the text (from 0) has no reading, and those before
    /// it have one.
    #[error("bad key at {0}")]
    BadKey(usize),
    /// Memory ran out.
    #[error("out of memory")]
    NoMemory,
}

impl From<AllocError> for KeyError {
    ghost from_gives = { λ _ e. e ≡ NoMemory };

    fn from(_error: AllocError) -> KeyError {
        KeyError::NoMemory
    }
}

// The modifiers that were read so far.
#[derive(Clone, Copy)]
struct Modifiers {
    control: bool,
    alt: bool,
    shift: bool,
}

impl Modifiers {
    const NONE: Modifiers = Modifiers {
        control: false,
        alt: false,
        shift: false,
    };

    // Whether the modifier of this letter is among them.
    fn has(self, letter: char) -> bool
        ensures { result ≡ is_held self letter }
    {
        match letter {
            'c' => self.control,
            'a' => self.alt,
            _ => self.shift,
        }
    }

    // These and the modifier of this letter.
    fn with(self, letter: char) -> Modifiers
        ensures { result ≡ held_with self letter }
    {
        Modifiers {
            control: self.control | (letter == 'c'),
            alt: self.alt | (letter == 'a'),
            shift: self.shift | (letter == 's'),
        }
    }

    // The key of these modifiers and a base.
    fn key(self, base: Base) -> Option<Key>
        ensures { result ≡ key_under self base }
    {
        let Modifiers {
            control,
            alt,
            shift,
        } = self;
        match base {
            Base::Char(c) if shift => {
                if !c.is_ascii_lowercase() {
                    return None;
                }
                Some(Key {
                    control,
                    alt,
                    shift: false,
                    base: Base::Char(c.to_ascii_uppercase()),
                })
            }
            _ => Some(Key {
                control,
                alt,
                shift,
                base,
            }),
        }
    }
}

// The letter of the modifier that a text begins with, and what follows its `-`.
fn split_modifier(text: &[char]) -> Option<(char, &[char])>
    ensures some { IfSome result (λ p. (text.now ≡ p.0 ∷ 45 ∷ p.1.now) × IsTrue (is_modifier p.0)) }
    ensures none { IfNone result (begins_modified text.now ≡ false) }
{
    match text {
        [letter @ ('c' | 'a' | 's'), '-', rest @ ..] => Some((*letter, rest)),
        _ => None,
    }
}

// The key of what stands between the brackets, behind the modifiers that were read so far.
fn read_modified(held: Modifiers, text: &[char]) -> Option<Key>
    ensures { result ≡ modified_key held text.now }
{
    let Some((letter, rest)) = split_modifier(text) else {
        return held.key(read_base(text)?);
    };
    if held.has(letter) {
        return None;
    }
    read_modified(held.with(letter), rest)
}

// The key of a character that stands alone.
fn read_plain(c: char) -> Option<Key>
    ensures { result ≡ plain_key c }
{
    let base = match c {
        '\n' => Base::Ret,
        '\t' => Base::Tab,
        _ if c.is_control() => return None,
        _ => Base::Char(c),
    };
    Modifiers::NONE.key(base)
}

// The place of the first `>`.
fn closing(text: &[char]) -> Option<usize>
    ensures place { result ≡ position (λ c. c == 62) text.now }
    ensures inside { IfSome result (λ n. n < length text.now) }
{
    text.iter().position(|c| *c == '>')
}

// The key of what follows a `<`, and how many characters it takes with its `<` and `>`.
fn read_bracketed(rest: &[char]) -> Option<(Key, usize)>
    ensures moves { IfSome result (λ p. (0 < p.1) × (p.1 ≤ length rest.now + 1)) }
    ensures key { IfSome result (λ p. ReadsFirst (60 ∷ rest.now) p.0 p.1) }
    ensures none { IfNone result (NoFirst (60 ∷ rest.now)) }
{
    let end = closing(rest)?;
    let (inner, _) = rest.split_at(end);
    Some((read_modified(Modifiers::NONE, inner)?, end + 2))
}

// The first key of a text that isn't empty, and how many characters it takes.
fn read_first(text: &[char]) -> Option<(Key, usize)>
    requires { 0 < length text.now }
    ensures moves { IfSome result (λ p. (0 < p.1) × (p.1 ≤ length text.now)) }
    ensures key { IfSome result (λ p. ReadsFirst text.now p.0 p.1) }
    ensures none { IfNone result (NoFirst text.now) }
{
    let (first, rest) = text.split_first()?;
    if *first == '<' {
        return read_bracketed(rest);
    }
    Some((read_plain(*first)?, 1))
}

// The keys of a text that is given as its characters.
fn read_characters(alloc: Global, text: &[char]) -> Result<Vec<Key>, KeyError>
    ensures keys { IfOk result (λ v. read_text text.now ≡ Ok v.items) }
    ensures spelled { IfOk result (λ v. AllPass has_spelling v.items) }
    ensures error { IfErr result (λ e. IsReadError e (read_text text.now)) }
{
    let mut keys = Vec::with_capacity(alloc, text.len())?;
    let mut at = 0;
    while at < text.len() {
        let (_, rest) = text.split_at(at);
        let Some((key, len)) = read_first(rest) else {
            return Err(KeyError::BadKey(at));
        };
        keys.push(key).map_err(AllocError::from)?;
        at += len;
    }
    Ok(keys)
}

// The characters of a text.
fn characters(alloc: Global, text: &str) -> Result<Vec<char>, AllocError>
    ensures { IfOk result (λ v. v.items ≡ chars text.now) }
{
    text.chars().collect(alloc)
}

/// The keys of a key text, as `ihi<esc>` or `<c-a>`. `BadKey(at)` tells the place, in characters
/// from 0, of the first key that has no reading.
pub fn read_keys(alloc: Global, text: &str) -> Result<Vec<Key>, KeyError>
    ensures keys { IfOk result (λ v. read_text (chars text.now) ≡ Ok v.items) }
    ensures spelled { IfOk result (λ v. AllPass has_spelling v.items) }
    ensures error { IfErr result (λ e. IsReadError e (read_text (chars text.now))) }
{
    read_characters(alloc, characters(alloc, text)?.as_slice())
}
