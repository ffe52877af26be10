//! Texts, seen as the list of their bytes.

ghost use Rattle.std.specs.Prelude.{◌≡◌, ◌<◌, [], ◌∷◌, ◌++◌, length, map, IfOk, OnOk, OnErr, string_bytes, slice_index_or};

use std::alloc::{AllocError, Global};
use std::marker::Model;

/// Texts, seen as the list of their bytes.
#[derive(Drop, Debug)]
pub struct Words {
    words: Vec<String>,
}

impl Model for Words {
    ghost use Rattle.std.specs.Prelude.{List, ℕ, map, string_bytes};

    ghost Value = { List (List ℕ) };

    ghost view = { λ w. map (λ word. string_bytes word) w.words.items };
}

impl Words {
    /// No words.
    pub fn new(alloc: Global) -> Words
        ensures { result ≡ [] }
    {
        Words {
            words: Vec::new(alloc),
        }
    }

    /// The words of a vector, which is taken over.
    pub fn of_vec(words: Vec<String>) -> Words
        ensures { result ≡ map (λ word. string_bytes word) words.items }
    {
        Words { words }
    }

    /// The words as a vector; no memory is taken.
    pub fn into_vec(self) -> Vec<String>
        ensures { map (λ word. string_bytes word) result.items ≡ self }
    {
        let Words { words } = self;
        words
    }

    /// A copy in memory of its own.
    pub fn copy(&self, alloc: Global) -> Result<Words, AllocError>
        ensures { IfOk result (λ new. new ≡ self.now) }
    {
        let mut words = Vec::with_capacity(alloc, self.words.len())?;
        for word in self.words.as_slice() {
            words.push(String::from_str(alloc, word.as_str())?)?;
        }
        Ok(Words { words })
    }

    /// Adds a word at the end. An `Err` leaves the words.
    pub fn push(&mut self, word: String) -> Result<(), AllocError>
        ensures ok { OnOk result (self.new ≡ self.old ++ string_bytes word ∷ []) }
        ensures err { OnErr result (self.new ≡ self.old) }
    {
        self.words.push(word)?;
        Ok(())
    }

    /// Adds the words of another list at the end. An `Err` leaves the words.
    pub fn append(&mut self, more: Words) -> Result<(), AllocError>
        ensures ok { OnOk result (self.new ≡ self.old ++ more) }
        ensures err { OnErr result (self.new ≡ self.old) }
    {
        let Words { words: mut more } = more;
        self.words.append(&mut more)
    }

    /// How many words there are.
    pub fn len(&self) -> usize
        ensures { result ≡ length self.now }
    {
        self.words.len()
    }

    /// The n-th word, from 0.
    pub fn get(&self, n: usize) -> &str
        requires { n < length self.now }
        ensures { result.now ≡ slice_index_or self.now n [] }
    {
        self.words[n].as_str()
    }
}
