//! Keys that have a name.

ghost use Rattle.std.specs.Prelude.{◌≡◌};
ghost use Rattle.std.specs.Option.{option_copied};
ghost use Rattle.std.specs.Str.{bytes_eq};
ghost use Rattle.key_names.specs.Names.{base_name, character_name, base_of, base_named, function_number, is_name};

use crate::key::Base;

// The bases that have a name, function keys aside.
const NAMED: [Base; 22] = [
    Base::Ret,
    Base::Tab,
    Base::Esc,
    Base::Backspace,
    Base::Del,
    Base::Up,
    Base::Down,
    Base::Left,
    Base::Right,
    Base::Home,
    Base::End,
    Base::PageUp,
    Base::PageDown,
    Base::Char(' '),
    Base::Char('<'),
    Base::Char('>'),
    Base::Char('+'),
    Base::Char('-'),
    Base::Char(';'),
    Base::Char('%'),
    Base::Char('\''),
    Base::Char('"'),
];

/// The name of a character that isn't written as itself.
fn name_of_character(c: char) -> Option<&'static str>
    ensures { option_copied result ≡ character_name c }
{
    match c {
        ' ' => Some("space"),
        '<' => Some("lt"),
        '>' => Some("gt"),
        '+' => Some("plus"),
        '-' => Some("minus"),
        ';' => Some("semicolon"),
        '%' => Some("percent"),
        '\'' => Some("quote"),
        '"' => Some("dquote"),
        _ => None,
    }
}

/// The base's name between the brackets of a key text; None for a function key and for a character
/// that is written as itself.
pub fn name(base: Base) -> Option<&'static str>
    ensures { option_copied result ≡ base_name base }
{
    match base {
        Base::Char(c) => name_of_character(c),
        Base::Ret => Some("ret"),
        Base::Tab => Some("tab"),
        Base::Esc => Some("esc"),
        Base::Backspace => Some("backspace"),
        Base::Del => Some("del"),
        Base::Up => Some("up"),
        Base::Down => Some("down"),
        Base::Left => Some("left"),
        Base::Right => Some("right"),
        Base::Home => Some("home"),
        Base::End => Some("end"),
        Base::PageUp => Some("pageup"),
        Base::PageDown => Some("pagedown"),
        Base::F(_) => None,
    }
}

// Whether the characters are those of an ASCII name.
fn spells(text: &[char], name: &[u8]) -> bool
    ensures { result ≡ bytes_eq name.now text.now }
{
    match (text, name) {
        ([], []) => true,
        ([c, text @ ..], [b, name @ ..]) if *c == char::from(*b) => spells(text, name),
        _ => false,
    }
}

// Whether the text is the base's name.
fn is_called(base: Base, text: &[char]) -> bool
    ensures { result ≡ is_name text.now (base_name base) }
{
    match name(base) {
        Some(name) => spells(text, name.as_bytes()),
        None => false,
    }
}

// The base that has this name.
fn named(text: &[char]) -> Option<Base>
    ensures { result ≡ base_named text.now }
{
    NAMED.iter().copied().find(|base| is_called(*base, text))
}

// The number of a function key from its digits: 1 to 9, or 10 to 12.
fn number_of_function_key(digits: &[char]) -> Option<u8>
    ensures { result ≡ function_number digits.now }
{
    match digits {
        [d] if ('1'..='9').contains(d) => Some((*d as u32 - 48) as u8),
        ['1', d] if ('0'..='2').contains(d) => Some((*d as u32 - 38) as u8),
        _ => None,
    }
}

/// The base that stands between the brackets of a key text, behind the modifiers: one character
/// as itself, a function key, or a name.
pub fn read_base(text: &[char]) -> Option<Base>
    ensures { result ≡ base_of text.now }
{
    match text {
        [] => None,
        [c] => {
            if *c == '<' || *c == '>' || c.is_control() {
                return None;
            }
            Some(Base::Char(*c))
        }
        ['F' | 'f', digits @ ..] => number_of_function_key(digits).map(Base::F),
        _ => named(text),
    }
}
