//! Characters in memory: status texts, prompt texts, names and drawn contents.

ghost use Rattle.std.specs.Prelude.{◌≡◌, ℕ, ◌+◌, ◌<◌, ◌≤◌, ◌↔◌, [], ◌∷◌, ◌++◌, length, replicate, chars, IfOk, IsOk, OnOk, OnErr, IfSome, IfNone, IsSome, IsTrue, encode_utf8_all};

use smallvec::SmallVec;
use std::alloc::{AllocError, Global};
use std::fmt;
use std::marker::Model;

/// A list of characters. Up to four of them take no memory of their own.
#[derive(Drop, Debug)]
pub struct Chars {
    items: SmallVec<char, 4>,
}

impl Model for Chars {
    ghost use Rattle.std.specs.Prelude.{List, ℕ};

    ghost Value = { List ℕ };

    ghost view = { λ a. a.items.items };
}

impl Chars {
    /// No characters; takes no memory.
    pub fn new(alloc: Global) -> Chars
        ensures { result ≡ [] }
    {
        Chars {
            items: SmallVec::new(alloc),
        }
    }

    /// These characters; takes no memory.
    pub fn of_vec(items: Vec<char>) -> Chars
        ensures { result ≡ items.items }
    {
        Chars {
            items: SmallVec::from_vec(items),
        }
    }

    /// A copy of these characters. At most four take no memory.
    pub fn from_slice(alloc: Global, chars: &[char]) -> Result<Chars, AllocError>
        ensures copies { IfOk result (λ new. new ≡ chars.now) }
        ensures few { length chars.now ≤ 4 → IsOk result }
    {
        Ok(Chars {
            items: SmallVec::from_slice(alloc, chars)?,
        })
    }

    /// So many times one character. At most four take no memory.
    pub fn repeated(alloc: Global, c: char, count: usize) -> Result<Chars, AllocError>
        ensures { IfOk result (λ new. new ≡ replicate count c) }
    {
        Ok(Chars {
            items: SmallVec::from_elem(alloc, c, count)?,
        })
    }

    /// The characters of a string.
    pub fn from_str(alloc: Global, text: &str) -> Result<Chars, AllocError>
        ensures { IfOk result (λ new. new ≡ chars text.now) }
    {
        if text.is_ascii() {
            return Ok(Chars::of_vec(widened(alloc, text.as_bytes())?));
        }
        Ok(Chars::of_vec(text.chars().collect(alloc)?))
    }

    /// The characters.
    pub fn as_slice(&self) -> &[char]
        ensures { result.now ≡ self.now }
    {
        self.items.as_slice()
    }

    /// How many characters there are.
    pub fn len(&self) -> usize
        ensures { result ≡ length self.now }
    {
        self.items.len()
    }

    /// Whether there are none.
    pub fn is_empty(&self) -> bool
        ensures { IsTrue result ↔ (self.now ≡ []) }
    {
        self.items.is_empty()
    }

    /// Adds a character at the end. After an error the characters are as they were.
    pub fn push(&mut self, c: char) -> Result<(), AllocError>
        ensures ok { OnOk result (self.new ≡ self.old ++ c ∷ []) }
        ensures err { OnErr result (self.new ≡ self.old) }
    {
        self.items.push(c)?;
        Ok(())
    }

    /// Adds characters at the end. After an error the characters are as they were.
    pub fn extend_from_slice(&mut self, more: &[char]) -> Result<(), AllocError>
        ensures ok { OnOk result (self.new ≡ self.old ++ more.now) }
        ensures err { OnErr result (self.new ≡ self.old) }
    {
        self.items.extend_from_slice(more)
    }

    /// Takes the last character away; none where there are none.
    pub fn pop(&mut self) -> Option<char>
        ensures some { IfSome result (λ c. self.old ≡ self.new ++ c ∷ []) }
        ensures none { IfNone result ((self.old ≡ []) × (self.new ≡ [])) }
    {
        self.items.pop()
    }

    /// Takes all characters away, and keeps the memory.
    pub fn clear(&mut self)
        ensures { self.new ≡ [] }
    {
        self.items.clear();
    }

    /// A copy in memory of its own.
    pub fn copy(&self, alloc: Global) -> Result<Chars, AllocError>
        ensures { IfOk result (λ new. new ≡ self.now) }
    {
        Chars::from_slice(alloc, self.as_slice())
    }
}

// The characters whose numbers bytes are.
fn widened(alloc: Global, bytes: &[u8]) -> Result<Vec<char>, AllocError>
    ensures { IfOk result (λ wide. wide.items ≡ bytes.now) }
{
    let mut wide = Vec::with_capacity(alloc, bytes.len())?;
    for b in bytes {
        wide.push_reserved(*b as char);
    }
    Ok(wide)
}

impl fmt::Display for Chars {
    fn fmt<W: fmt::Write>(&self, f: &mut fmt::Formatter<W>) -> fmt::Result {
        for c in self.as_slice() {
            write!(f, "{c}")?;
        }
        Ok(())
    }
}
