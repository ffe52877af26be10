//! How many characters are put in together, added up before any of them is copied.

ghost use Rattle.std.specs.Prelude.{◌≡◌, ◌≤◌, length, map, chars, nat_lt};
ghost use Rattle.text_model.specs.declared.TheConstants.{MAX_CHARS};
ghost use Rattle.edit_ops.specs.Putting.{nth_string};
ghost use Rattle.edit_ops.specs.Crowding.{strings_together};
ghost use Rattle.edit_ops.specs.declared.crowding.PutError.TheVariants.{NoMemory};

use byte_texts::Words;
use kak_text::MAX_CHARS;
use std::alloc::AllocError;
use thiserror::Error;

/// Why strings aren't put. Nothing is changed then.
#[derive(Clone, Copy, PartialEq, Eq, Debug, Error)]
pub enum PutError {
    /// For all selections together there are more characters than a text may have. No string was copied.
    #[error("the strings are longer than a text may be")]
    TooLong,
    /// Memory ran out.
    #[error("out of memory")]
    NoMemory,
}

impl From<AllocError> for PutError {
    ghost from_gives = { λ _ e. e ≡ NoMemory };

    fn from(_e: AllocError) -> PutError {
        PutError::NoMemory
    }
}

/// Whether the strings for so many selections have more characters together than a text may have. It takes no memory, and
/// goes over each string once at most.
pub(crate) fn are_crowded(strings: &Words, count: usize) -> bool
    ensures { result ≡ nat_lt MAX_CHARS (strings_together (map (λ w. chars w) strings.now) 0 count) }
{
    let mut room = MAX_CHARS;
    let mut last = 0;
    for n in 0..count {
        last = length_of(strings, n, last);
        if room < last {
            return true;
        }
        room -= last;
    }
    false
}

// How many characters the n-th string has; beyond the strings, as many as the one before.
fn length_of(strings: &Words, n: usize, before: usize) -> usize
    requires { length strings.now ≤ n → before ≡ length (nth_string (map (λ w. chars w) strings.now) n) }
    ensures { result ≡ length (nth_string (map (λ w. chars w) strings.now) n) }
{
    if n < strings.len() {
        return char_len(strings.get(n));
    }
    before
}

// How many characters a text has.
fn char_len(text: &str) -> usize
    ensures { result ≡ length (chars text.now) }
{
    text.chars().count()
}
