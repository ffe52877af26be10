//! The words of a generated session, and what they name.

ghost use Rattle.std.specs.Prelude.{◌≡◌, ◌<◌, ◌==◌, ◌^◌, map, string_bytes, slice_index, IfSome};
ghost use Rattle.program_words.specs.GenWords.{number_below, are_in_range, sized, sizes_named, gen_named, gen_words};

use crate::limits::{MAX_GEN_CLIENTS, MAX_GEN_KEYS};

/// What the words of a generated session name.
#[derive(Clone, Copy, PartialEq, Eq, Debug)]
pub struct GenWords {
    /// How many clients there are: 1 to 64.
    pub clients: u32,
    /// How many keys are struck: at most 1,000,000.
    pub keys: u32,
    /// The number from which the draws follow.
    pub seed: u64,
}

// Whether a word begins with `+`.
fn begins_plus(word: &str) -> bool
    ensures { result ≡ (slice_index word.now 0 == 43) }
{
    match word.as_bytes().first() {
        Some(byte) => *byte == b'+',
        None => false,
    }
}

// The number of 32 bits that a word is.
fn small_number(word: &str) -> Option<u32>
    ensures { result ≡ number_below (2 ^ 32) word.now }
{
    if begins_plus(word) {
        return None;
    }
    word.parse::<u32>().ok()
}

// The number of 64 bits that a word is.
fn large_number(word: &str) -> Option<u64>
    ensures { result ≡ number_below (2 ^ 64) word.now }
{
    if begins_plus(word) {
        return None;
    }
    word.parse::<u64>().ok()
}

// Whether there may be so many clients and keys.
fn are_in_range(clients: u32, keys: u32) -> bool
    ensures { result ≡ are_in_range clients keys }
{
    0 < clients && clients <= MAX_GEN_CLIENTS && keys <= MAX_GEN_KEYS
}

// A session of so many clients and keys, if there may be so many.
fn sized(clients: u32, keys: u32, seed: u64) -> Option<GenWords>
    ensures named { result ≡ sized seed clients keys }
    ensures some { IfSome result (λ session. 0 < session.clients) }
{
    if !are_in_range(clients, keys) {
        return None;
    }
    Some(GenWords {
        clients,
        keys,
        seed,
    })
}

// What three words name, where they are numbers that are in range.
fn sizes_named(clients: &str, keys: &str, seed: &str) -> Option<GenWords>
    ensures named { result ≡ sizes_named clients.now keys.now seed.now }
    ensures some { IfSome result (λ session. 0 < session.clients) }
{
    let clients = small_number(clients)?;
    let keys = small_number(keys)?;
    let seed = large_number(seed)?;
    sized(clients, keys, seed)
}

// What the word `gen` and three more name.
fn gen_named(kind: &str, clients: &str, keys: &str, seed: &str) -> Option<GenWords>
    ensures named { result ≡ gen_named kind.now clients.now keys.now seed.now }
    ensures some { IfSome result (λ session. 0 < session.clients) }
{
    if kind == "gen" {
        return sizes_named(clients, keys, seed);
    }
    None
}

/// Reads the words of a generated session: `gen`, how many clients there are, how many keys are struck, and the number from
/// which the draws follow. Each number is of decimal digits; zeros may stand in front. There is none of other words.
pub fn read_gen_words(words: &[String]) -> Option<GenWords>
    ensures named { result ≡ gen_words (map (λ word. string_bytes word) words.now) }
    ensures some { IfSome result (λ session. 0 < session.clients) }
{
    match words {
        [kind, clients, keys, seed] => gen_named(
            kind.as_str(),
            clients.as_str(),
            keys.as_str(),
            seed.as_str(),
        ),
        _ => None,
    }
}
