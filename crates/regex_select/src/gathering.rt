//! Characters that are gathered to be searched.

ghost use Rattle.std.specs.Prelude.{◌≡◌, ◌++◌, [], length, string_bytes, encode_utf8_all, IsAscii, IfOk};
ghost use Rattle.compact_chars.specs.Rows.{chars_of};

use compact_chars::CharsRef;
use std::alloc::{AllocError, Global};
use std::marker::Model;

/// Characters in UTF-8, one run of them behind another. ASCII ones at the end wait as bytes, each run of which is put down
/// at once, until others come.
#[derive(Drop)]
pub(crate) struct Gathered {
    text: String,
    waiting: Vec<u8>,
}

impl Model for Gathered {
    ghost use Rattle.std.specs.Prelude.{List, ℕ, ◌++◌, string_bytes, IsAscii};

    ghost Value = { List ℕ };

    ghost view = { λ g. string_bytes g.text ++ g.waiting.items };

    ghost invariant = { λ g. IsAscii g.waiting.items };
}

// ASCII bytes as a string.
fn text_of(bytes: Vec<u8>) -> String
    requires { IsAscii bytes.items }
    ensures { string_bytes result ≡ bytes.items }
{
    match String::from_utf8(bytes) {
        Ok(text) => text,
        Err(_) => unreachable!(),
    }
}

impl Gathered {
    /// No characters, with room for so many bytes.
    pub(crate) fn with_room(alloc: Global, room: usize) -> Result<Gathered, AllocError>
        ensures { IfOk result (λ g. g ≡ []) }
    {
        Ok(Gathered {
            text: String::new(alloc),
            waiting: Vec::with_capacity(alloc, room)?,
        })
    }

    /// How many bytes there are.
    pub(crate) fn len(&self) -> usize
        ensures { result ≡ length self.now }
    {
        self.text.len() + self.waiting.len()
    }

    // These characters with others behind them, which needn't be ASCII: what waited goes before them.
    fn with_wide(self, chars: CharsRef<'_>) -> Result<Gathered, AllocError>
        ensures { IfOk result (λ g. g ≡ self ++ encode_utf8_all (chars_of chars.entry)) }
    {
        let Gathered {
            mut text,
            mut waiting,
        } = self;
        CharsRef::Narrow(waiting.as_slice()).push_utf8(&mut text)?;
        waiting.clear();
        chars.push_utf8(&mut text)?;
        Ok(Gathered { text, waiting })
    }

    /// These characters with others behind them. It costs those.
    pub(crate) fn with_run(self, chars: CharsRef<'_>) -> Result<Gathered, AllocError>
        ensures { IfOk result (λ g. g ≡ self ++ encode_utf8_all (chars_of chars.entry)) }
    {
        match chars {
            CharsRef::Narrow(bytes) if bytes.is_ascii() => {
                let Gathered { text, mut waiting } = self;
                waiting.extend_from_slice(bytes)?;
                Ok(Gathered { text, waiting })
            }
            _ => self.with_wide(chars),
        }
    }

    /// These characters as a string.
    pub(crate) fn finish(self) -> Result<String, AllocError>
        ensures { IfOk result (λ text. string_bytes text ≡ self) }
    {
        let Gathered { mut text, waiting } = self;
        if text.is_empty() {
            return Ok(text_of(waiting));
        }
        CharsRef::Narrow(waiting.as_slice()).push_utf8(&mut text)?;
        Ok(text)
    }
}
