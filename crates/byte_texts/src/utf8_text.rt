//! One text, seen as the list of its bytes.

ghost use Rattle.std.specs.Prelude.{◌≡◌, IfOk, string_bytes};

use std::alloc::{AllocError, Global};
use std::fmt;
use std::marker::Model;

/// One text, seen as the list of its bytes in UTF-8.
#[derive(Drop, Debug)]
pub struct Utf8Text {
    text: String,
}

impl Model for Utf8Text {
    ghost use Rattle.std.specs.Prelude.{List, ℕ, string_bytes};

    ghost Value = { List ℕ };

    ghost view = { λ t. string_bytes t.text };
}

impl Utf8Text {
    /// The text of a string, which is taken over.
    pub fn of_string(text: String) -> Utf8Text
        ensures { result ≡ string_bytes text }
    {
        Utf8Text { text }
    }

    /// A copy of a text.
    pub fn from_str(alloc: Global, text: &str) -> Result<Utf8Text, AllocError>
        ensures { IfOk result (λ new. new ≡ text.now) }
    {
        Ok(Utf8Text {
            text: String::from_str(alloc, text)?,
        })
    }

    /// The text as a string; no memory is taken.
    pub fn into_string(self) -> String
        ensures { string_bytes result ≡ self }
    {
        let Utf8Text { text } = self;
        text
    }

    /// The text.
    pub fn as_str(&self) -> &str
        ensures { result.now ≡ self.now }
    {
        self.text.as_str()
    }
}

impl fmt::Display for Utf8Text {
    fn fmt<W: fmt::Write>(&self, f: &mut fmt::Formatter<W>) -> fmt::Result {
        f.write_str(self.as_str())
    }
}
