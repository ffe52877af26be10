//! Keys that are compared.

ghost use Rattle.std.specs.Prelude.{◌≡◌};
ghost use Rattle.scope_tables.specs.Keys.{base_kind, base_value, is_same_key};

use key_names::{Base, Key};

// The kind of a key without its modifiers, as a number.
fn base_kind(base: Base) -> u8
    ensures { result ≡ base_kind base }
{
    match base {
        Base::Char(_) => 0,
        Base::Ret => 1,
        Base::Tab => 2,
        Base::Esc => 3,
        Base::Backspace => 4,
        Base::Del => 5,
        Base::Up => 6,
        Base::Down => 7,
        Base::Left => 8,
        Base::Right => 9,
        Base::Home => 10,
        Base::End => 11,
        Base::PageUp => 12,
        Base::PageDown => 13,
        Base::F(_) => 14,
    }
}

// The character of a key that is one, and the number of a function key.
fn base_value(base: Base) -> u32
    ensures { result ≡ base_value base }
{
    match base {
        Base::Char(c) => c as u32,
        Base::F(n) => n as u32,
        Base::Ret
        | Base::Tab
        | Base::Esc
        | Base::Backspace
        | Base::Del
        | Base::Up
        | Base::Down
        | Base::Left
        | Base::Right
        | Base::Home
        | Base::End
        | Base::PageUp
        | Base::PageDown => 0,
    }
}

/// Whether two keys are one, with their modifiers.
pub(crate) fn is_same_key(a: Key, b: Key) -> bool
    ensures { result ≡ is_same_key a b }
{
    a.control == b.control
        && a.alt == b.alt
        && a.shift == b.shift
        && base_kind(a.base) == base_kind(b.base)
        && base_value(a.base) == base_value(b.base)
}
