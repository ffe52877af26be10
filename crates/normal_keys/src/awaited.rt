//! Keys for which another key waited.

ghost use Rattle.std.specs.Prelude.{◌≡◌};
ghost use Rattle.normal_keys.specs.Rows.{base_character, character_of, place_named, place_of, object_named, is_alt_w, object_of};

use key_names::{Base, Key};
use motion_keys::Place;
use text_objects::Object;

// The character that a key without modifiers stands for.
fn base_character(base: Base) -> Option<char>
    ensures { result ≡ base_character base }
{
    match base {
        Base::Char(c) => Some(c),
        Base::Ret => Some('\n'),
        Base::Tab => Some('\t'),
        _ => None,
    }
}

/// The character that a key stands for where one is waited for.
pub fn character_of(key: Key) -> Option<char>
    ensures { result ≡ character_of key }
{
    if key.is_modified() {
        return None;
    }
    base_character(key.base)
}

// The place that a character names.
fn place_named(c: char) -> Option<Place>
    ensures { result ≡ place_named c }
{
    match c {
        'g' | 'k' => Some(Place::First),
        'j' => Some(Place::LastLine),
        'e' => Some(Place::Last),
        'h' => Some(Place::LineStart),
        'l' => Some(Place::LineEnd),
        'i' => Some(Place::NonBlank),
        't' => Some(Place::WindowTop),
        'c' => Some(Place::WindowMiddle),
        'b' => Some(Place::WindowBottom),
        _ => None,
    }
}

/// The place that a key names.
pub fn place_of(key: Key) -> Option<Place>
    ensures { result ≡ place_of key }
{
    let c = character_of(key)?;
    place_named(c)
}

// The object that a character names.
fn object_named(c: char) -> Option<Object>
    ensures { result ≡ object_named c }
{
    match c {
        'w' => Some(Object::Word),
        'p' => Some(Object::Paragraph),
        's' => Some(Object::Sentence),
        ' ' => Some(Object::Blanks),
        'i' => Some(Object::Indent),
        'n' => Some(Object::Number),
        'b' | '(' | ')' => Some(Object::Round),
        'B' | '{' | '}' => Some(Object::Curly),
        'r' | '[' | ']' => Some(Object::Square),
        'a' | '<' | '>' => Some(Object::Angle),
        'Q' | '"' => Some(Object::DoubleQuote),
        'q' | '\'' => Some(Object::Quote),
        'g' | '`' => Some(Object::Grave),
        _ => None,
    }
}

// Whether a key is `w` with alt alone.
fn is_alt_w(key: Key) -> bool
    ensures { result ≡ is_alt_w key }
{
    key.alt && !key.control && !key.shift && key.base == Base::Char('w')
}

/// The object that a key names.
pub fn object_of(key: Key) -> Option<Object>
    ensures { result ≡ object_of key }
{
    if is_alt_w(key) {
        return Some(Object::BigWord);
    }
    let c = character_of(key)?;
    object_named(c)
}
