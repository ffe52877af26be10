//! The register that a key names, where one is waited for.

ghost use Rattle.std.specs.Prelude.{◌≡◌};
ghost use Rattle.key_rows.specs.Naming.{base_register, register_named};

use key_names::{Base, Key};

// The register that a key without modifiers names.
fn base_register(base: Base) -> Option<char>
    ensures { result ≡ base_register base }
{
    match base {
        Base::Char(c) => Some(c),
        _ => None,
    }
}

/// The register that a key names: any character without modifiers.
pub fn register_named(key: Key) -> Option<char>
    ensures { result ≡ register_named key }
{
    if key.is_modified() {
        return None;
    }
    base_register(key.base)
}
