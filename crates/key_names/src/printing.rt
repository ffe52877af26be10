//! The spelling of a key.

ghost use Rattle.std.specs.Prelude.{◌≡◌, ◌++◌, Ok, [], ◌∷◌, true, false, IfOk, OnOk, encode_utf8_all};
ghost use Rattle.std.specs.Str.{chars};
ghost use Rattle.std.specs.String.{string_bytes};
ghost use Rattle.key_names.specs.Reading.{read_text};
ghost use Rattle.key_names.specs.Printing.{spelling, has_spelling, stands_alone, is_unnamed_character, base_text, held_text};

use crate::key::{Base, Key};
use crate::naming::name;
use std::alloc::{AllocError, Global};

// Whether the base is a character that is written as itself.
fn is_unnamed_character(base: Base) -> bool
    ensures { result ≡ is_unnamed_character base }
{
    match base {
        Base::Char(_) => name(base).is_none(),
        _ => false,
    }
}

// Whether the key is written without brackets.
fn is_alone(key: Key) -> bool
    ensures { result ≡ stands_alone key }
{
    is_unnamed_character(key.base) & !(key.control | key.alt | key.shift)
}

// What is written for a modifier that is held.
fn held(modifier: bool, text: &str) -> &str
    ensures { result.now ≡ held_text modifier text.now }
{
    if modifier { text } else { "" }
}

// Writes a base: its name, if it has one.
fn push_base(text: &mut String, base: Base) -> Result<(), AllocError>
    ensures { OnOk result (string_bytes text.new ≡ string_bytes text.old ++ encode_utf8_all (base_text base)) }
{
    if let Some(name) = name(base) {
        return text.push_str(name);
    }
    match base {
        Base::Char(c) => text.push(c),
        Base::F(n) => write!(text, "F{n}"),
        _ => Ok(()),
    }
}

// Writes a key in brackets.
fn push_bracketed(text: &mut String, key: Key) -> Result<(), AllocError>
    requires { stands_alone key ≡ false }
    ensures { OnOk result (string_bytes text.new ≡ string_bytes text.old ++ encode_utf8_all (spelling key)) }
{
    text.push_str("<")?;
    text.push_str(held(key.control, "c-"))?;
    text.push_str(held(key.alt, "a-"))?;
    text.push_str(held(key.shift, "s-"))?;
    push_base(text, key.base)?;
    text.push_str(">")?;
    Ok(())
}

// Writes a key in its canonical spelling.
fn push_key(text: &mut String, key: Key) -> Result<(), AllocError>
    ensures { OnOk result (string_bytes text.new ≡ string_bytes text.old ++ encode_utf8_all (spelling key)) }
{
    if is_alone(key) {
        return push_base(text, key.base);
    }
    push_bracketed(text, key)
}

/// The canonical spelling of a key, which `read_keys` reads as that key alone. A key that no text
/// is read as (a control character, a character with shift, a function key other than F1 to F12)
/// is written in the same way, and isn't read back.
pub fn print_key(alloc: Global, key: Key) -> Result<String, AllocError>
    ensures spelling { IfOk result (λ s. string_bytes s ≡ encode_utf8_all (spelling key)) }
    ensures read_back { has_spelling key ≡ true
        → IfOk result (λ s. read_text (chars (string_bytes s)) ≡ Ok (key ∷ [])) }
{
    let mut text = String::new(alloc);
    push_key(&mut text, key)?;
    Ok(text)
}
