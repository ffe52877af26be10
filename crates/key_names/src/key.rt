//! A key that was struck.

ghost use Rattle.std.specs.Prelude.{◌≡◌};

use sequences::Seq;

/// What a key is without its modifiers: a character, a key with a name, or a function key by its
/// number. Reading gives no control character, and of function keys the numbers 1 to 12.
#[derive(Clone, Copy, PartialEq, Eq, Debug)]
pub enum Base {
    Char(char),
    Ret,
    Tab,
    Esc,
    Backspace,
    Del,
    Up,
    Down,
    Left,
    Right,
    Home,
    End,
    PageUp,
    PageDown,
    F(u8),
}

/// One key with its modifiers. Shift goes with named keys alone: a shifted letter is its capital.
#[derive(Clone, Copy, PartialEq, Eq, Debug)]
pub struct Key {
    pub control: bool,
    pub alt: bool,
    pub shift: bool,
    pub base: Base,
}

impl Key {
    ghost use Rattle.key_names.specs.Modified.{is_modified};

    /// Whether a modifier is held with the key.
    pub fn is_modified(self) -> bool
        ensures { result ≡ is_modified self }
    {
        self.control || self.alt || self.shift
    }
}

/// Keys in a row.
pub type Keys = Seq<Key>;
