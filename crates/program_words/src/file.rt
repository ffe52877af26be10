//! A file's name, and the keys that open it.

ghost use Rattle.std.specs.Prelude.{◌≡◌, ◌∷◌, [], ◌++◌, map, length, not, OnOk, IfOk};
ghost use Rattle.std.specs.Char.{is_control};
ghost use Rattle.std.specs.List.{list_all};
ghost use Rattle.std.specs.Str.{chars};
ghost use Rattle.program_words.specs.Files.{is_file_name, doubled, typed_key, edit_keys};

use key_names::{Base, Key};
use std::alloc::{AllocError, Global};

// How many characters a text has.
fn char_len(text: &str) -> usize
    ensures { result ≡ length (chars text.now) }
{
    text.chars().count()
}

// Whether no character of a text is a control character.
fn is_printable(text: &str) -> bool
    ensures { result ≡ list_all (λ c. not (is_control c)) (chars text.now) }
{
    text.chars().all(|c| !c.is_control())
}

/// Whether a file can have this name: 1 to 255 characters, none of which is a control character.
pub fn is_file_name(text: &str) -> bool
    ensures { result ≡ is_file_name (chars text.now) }
{
    let count = char_len(text);
    0 < count && count < 256 && is_printable(text)
}

// Adds the key of a character.
fn push_char(keys: &mut Vec<Key>, c: char) -> Result<(), AllocError>
    ensures { OnOk result (keys.new.items ≡ keys.old.items ++ map typed_key (c ∷ [])) }
{
    keys.push(Key {
        control: false,
        alt: false,
        shift: false,
        base: Base::Char(c),
    })?;
    Ok(())
}

// Adds the keys of a text's characters.
fn push_text(keys: &mut Vec<Key>, text: &str) -> Result<(), AllocError>
    ensures { OnOk result (keys.new.items ≡ keys.old.items ++ map typed_key (chars text.now)) }
{
    for c in text.chars() {
        push_char(keys, c)?;
    }
    Ok(())
}

// Adds the key of a character within quotes: a quote twice.
fn push_quoted(keys: &mut Vec<Key>, c: char) -> Result<(), AllocError>
    ensures { OnOk result (keys.new.items ≡ keys.old.items ++ map typed_key (doubled (c ∷ []))) }
{
    push_char(keys, c)?;
    if c == '\'' {
        push_char(keys, c)?;
    }
    Ok(())
}

// Adds the keys of a text's characters within quotes.
fn push_name(keys: &mut Vec<Key>, name: &str) -> Result<(), AllocError>
    ensures { OnOk result (keys.new.items ≡ keys.old.items ++ map typed_key (doubled (chars name.now))) }
{
    for c in name.chars() {
        push_quoted(keys, c)?;
    }
    Ok(())
}

/// The keys that open the file of a name: `:edit '<name>'<ret>`, with each quote in the name doubled.
pub fn edit_keys(alloc: Global, name: &str) -> Result<Vec<Key>, AllocError>
    ensures { IfOk result (λ keys. keys.items ≡ edit_keys (chars name.now)) }
{
    let mut keys = Vec::new(alloc);
    push_text(&mut keys, ":edit '")?;
    push_name(&mut keys, name)?;
    push_char(&mut keys, '\'')?;
    keys.push(Key {
        control: false,
        alt: false,
        shift: false,
        base: Base::Ret,
    })?;
    Ok(keys)
}
