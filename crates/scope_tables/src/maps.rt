//! Keys that stand for others, by mode.

ghost use Rattle.std.specs.Prelude.{◌≡◌};
ghost use Rattle.std.specs.Option.{option_copied};
ghost use Rattle.tables.specs.Tables.{place_where};
ghost use Rattle.scope_tables.specs.Maps.{is_same_mode, is_map, keys_at};

use crate::keys::is_same_key;
use crate::scopes::is_same_scope;
use key_names::{Key, Keys};
use scope_options::Scope;

/// The mode of a client, by which its keys are read.
#[derive(Clone, Copy, PartialEq, Eq, Debug)]
pub enum Mode {
    Normal,
    Insert,
    Prompt,
}

/// A key that stands for others in a mode, at a scope.
#[derive(Drop, Debug)]
pub struct KeyMap {
    pub scope: Scope,
    pub mode: Mode,
    pub key: Key,
    pub keys: Keys,
}

// Whether two modes are one.
fn is_same_mode(a: Mode, b: Mode) -> bool
    ensures { result ≡ is_same_mode a b }
{
    matches!(
        (a, b),
        (Mode::Normal, Mode::Normal) | (Mode::Insert, Mode::Insert) | (Mode::Prompt, Mode::Prompt)
    )
}

/// Whether a map is that of a key in a mode at a scope.
pub(crate) fn is_map(map: &KeyMap, scope: Scope, mode: Mode, key: Key) -> bool
    ensures { result ≡ is_map scope mode key map.now }
{
    is_same_scope(map.scope, scope) && is_same_mode(map.mode, mode) && is_same_key(map.key, key)
}

/// The place of the map of a key, or how many maps there are where it has none.
pub(crate) fn map_place(maps: &[KeyMap], scope: Scope, mode: Mode, key: Key) -> usize
    ensures { result ≡ place_where (is_map scope mode key) maps.now }
{
    for (i, map) in maps.iter().enumerate() {
        if is_map(map, scope, mode, key) {
            return i;
        }
    }
    maps.len()
}

/// The keys that a key stands for at a scope itself.
pub(crate) fn keys_at(maps: &[KeyMap], scope: Scope, mode: Mode, key: Key) -> Option<&[Key]>
    ensures { option_copied result ≡ keys_at mode key maps.now scope }
{
    for map in maps {
        if is_map(map, scope, mode, key) {
            return Some(map.keys.as_slice());
        }
    }
    None
}
