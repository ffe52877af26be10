//! Strings, numbers and commas as JSON.

ghost use Rattle.std.specs.Prelude.{◌≡◌, ◌<◌, ◌∷◌, [], ◌++◌, OnOk, decimal, encode_utf8, ◌/◌, ◌%◌, ◌+◌, ◌≤◌, vec_len, true, length, take, IfSome};
ghost use Rattle.std.specs.Vec.{vec_capacity};
ghost use Rattle.std.specs.Char.{digit_char};
ghost use Rattle.json_writing.specs.Grows.{Grows};
ghost use Rattle.json_writing.specs.JsonText.{escaped, all_escaped, is_plain, ArePlain, comma_unless};

use itoa::Buffer;
use std::alloc::AllocError;

// So many characters are tested and copied at once.
const PIECE: usize = 64;

// Fewer characters are written one by one.
const SOME: usize = 12;

/// Adds bytes at the end.
pub fn push_bytes(out: &mut Vec<u8>, bytes: &[u8]) -> Result<(), AllocError>
    ensures ok { OnOk result (out.new.items ≡ out.old.items ++ bytes.now) }
    ensures grows { Grows out.old.items out.new.items }
{
    out.extend_from_slice(bytes)
}

/// Adds a text at the end.
pub fn push_text(out: &mut Vec<u8>, text: &str) -> Result<(), AllocError>
    ensures ok { OnOk result (out.new.items ≡ out.old.items ++ text.now) }
    ensures grows { Grows out.old.items out.new.items }
{
    push_bytes(out, text.as_bytes())
}

/// Adds one byte at the end.
pub fn push_byte(out: &mut Vec<u8>, byte: u8) -> Result<(), AllocError>
    ensures ok { OnOk result (out.new.items ≡ out.old.items ++ byte ∷ []) }
    ensures grows { Grows out.old.items out.new.items }
{
    out.push(byte)?;
    Ok(())
}

/// Adds a comma, unless what follows is the first of its row.
pub fn push_comma(out: &mut Vec<u8>, first: bool) -> Result<(), AllocError>
    ensures ok { OnOk result (out.new.items ≡ out.old.items ++ comma_unless first) }
    ensures grows { Grows out.old.items out.new.items }
{
    if first {
        return Ok(());
    }
    push_byte(out, b',')
}

/// Adds a number in decimal digits.
pub fn push_number(out: &mut Vec<u8>, number: u32) -> Result<(), AllocError>
    ensures ok { OnOk result (out.new.items ≡ out.old.items ++ decimal number) }
    ensures grows { Grows out.old.items out.new.items }
{
    let mut buffer = Buffer::new();
    push_text(out, buffer.format(number))
}

/// The digit of a hexadecimal number, as a small letter from ten on.
pub fn hex_digit(digit: u8) -> u8
    requires { digit < 16 }
    ensures { result ≡ digit_char digit }
{
    if digit < 10 {
        b'0' + digit
    } else {
        b'a' + digit - 10
    }
}

// Adds a control character that has no short form.
fn push_control(out: &mut Vec<u8>, byte: u8) -> Result<(), AllocError>
    requires { byte < 32 }
    ensures ok { OnOk result (out.new.items
        ≡ out.old.items ++ (92 ∷ 117 ∷ 48 ∷ 48 ∷ digit_char (byte / 16) ∷ digit_char (byte % 16) ∷ [])) }
    ensures grows { Grows out.old.items out.new.items }
{
    push_bytes(
        out,
        &[
            b'\\',
            b'u',
            b'0',
            b'0',
            hex_digit(byte / 16),
            hex_digit(byte % 16),
        ],
    )
}

// Adds a character as its UTF-8 bytes.
fn push_wide(out: &mut Vec<u8>, c: char) -> Result<(), AllocError>
    ensures ok { OnOk result (out.new.items ≡ out.old.items ++ encode_utf8 c) }
    ensures grows { Grows out.old.items out.new.items }
{
    let mut buffer = [0u8; 4];
    push_text(out, c.encode_utf8(&mut buffer))
}

// Adds a character as it stands in a JSON string.
fn push_escaped(out: &mut Vec<u8>, c: char) -> Result<(), AllocError>
    ensures ok { OnOk result (out.new.items ≡ out.old.items ++ escaped c) }
    ensures grows { Grows out.old.items out.new.items }
{
    match c {
        '"' => push_text(out, "\\\""),
        '\\' => push_text(out, "\\\\"),
        '\u{8}' => push_text(out, "\\b"),
        '\t' => push_text(out, "\\t"),
        '\n' => push_text(out, "\\n"),
        '\u{c}' => push_text(out, "\\f"),
        '\r' => push_text(out, "\\r"),
        _ if c < ' ' => push_control(out, c as u8),
        _ if c < '\u{80}' => push_byte(out, c as u8),
        _ => push_wide(out, c),
    }
}

// The byte of a character that stands for itself, if it has but one.
#[inline]
fn plain_byte(c: char) -> Option<u8>
    ensures { IfSome result (λ byte. escaped c ≡ byte ∷ []) }
{
    match c {
        ' ' | '!' | '#'..='[' | ']'..='~' => Some(c as u8),
        _ => None,
    }
}

// Adds a character where there is room for it and for as many bytes as are left, and keeps room
// for those.
#[inline]
fn push_with_room(out: &mut Vec<u8>, c: char, left: usize) -> Result<(), AllocError>
    requires { vec_len out.old + left < vec_capacity out.old }
    ensures ok { OnOk result (out.new.items ≡ out.old.items ++ escaped c) }
    ensures room { OnOk result (vec_len out.new + left ≤ vec_capacity out.new) }
    ensures grows { Grows out.old.items out.new.items }
{
    if let Some(byte) = plain_byte(c) {
        out.push_reserved(byte);
        return Ok(());
    }
    push_escaped(out, c)?;
    out.reserve(left)?;
    Ok(())
}

// Adds characters one by one as they stand in a JSON string.
fn push_each(out: &mut Vec<u8>, text: &[char]) -> Result<(), AllocError>
    ensures ok { OnOk result (out.new.items ≡ out.old.items ++ all_escaped text.now) }
    ensures grows { Grows out.old.items out.new.items }
{
    out.reserve(text.len())?;
    for (i, c) in text.iter().enumerate() {
        push_with_room(out, *c, text.len() - i - 1)?;
    }
    Ok(())
}

// Whether a character stands for itself in a JSON string, as one byte.
#[inline]
fn is_plain(c: char) -> bool
    ensures { result ≡ is_plain c }
{
    (c >= ' ') & (c <= '~') & (c != '"') & (c != '\\')
}

// Whether each character stands for itself. All of them are looked at, and many at once.
fn are_plain(text: &[char]) -> bool
    ensures { result ≡ true → ArePlain text.now }
{
    let mut plain = true;
    for c in text {
        plain &= is_plain(*c);
    }
    plain
}

// How many characters at the front of a piece stand for themselves.
fn plain_front(text: &[char]) -> usize
    ensures few { result ≤ length text.now }
    ensures plain { ArePlain (take result text.now) }
{
    if are_plain(text) {
        return text.len();
    }
    for (i, c) in text.iter().enumerate() {
        if !is_plain(*c) {
            return i;
        }
    }
    text.len()
}

// Adds a piece of characters that stand for themselves at once.
fn push_plain(out: &mut Vec<u8>, text: &[char]) -> Result<(), AllocError>
    requires short { length text.now ≤ 64 }
    requires plain { ArePlain text.now }
    ensures ok { OnOk result (out.new.items ≡ out.old.items ++ text.now) }
    ensures grows { Grows out.old.items out.new.items }
{
    let mut bytes = [0u8; PIECE];
    for (i, c) in text.iter().enumerate() {
        bytes[i] = *c as u8;
    }
    push_bytes(out, &bytes[..text.len()])
}

// Adds a piece of characters as they stand in a JSON string: those at its front that stand for themselves at once, where
// there are some characters, and the others one by one.
fn push_piece(out: &mut Vec<u8>, text: &[char]) -> Result<(), AllocError>
    requires { length text.now ≤ 64 }
    ensures ok { OnOk result (out.new.items ≡ out.old.items ++ all_escaped text.now) }
    ensures grows { Grows out.old.items out.new.items }
{
    if text.len() < SOME {
        return push_each(out, text);
    }
    let (front, rest) = text.split_at(plain_front(text));
    push_plain(out, front)?;
    push_each(out, rest)?;
    Ok(())
}

/// Adds characters as they stand in a JSON string.
pub fn push_characters(out: &mut Vec<u8>, text: &[char]) -> Result<(), AllocError>
    ensures ok { OnOk result (out.new.items ≡ out.old.items ++ all_escaped text.now) }
    ensures grows { Grows out.old.items out.new.items }
{
    let mut rest = text;
    while rest.len() > PIECE {
        let (piece, more) = rest.split_at(PIECE);
        push_piece(out, piece)?;
        rest = more;
    }
    push_piece(out, rest)?;
    Ok(())
}
