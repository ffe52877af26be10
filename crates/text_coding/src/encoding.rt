//! The bytes that texts are saved as.

ghost use Rattle.std.specs.Prelude.{◌≡◌, ◌∷◌, [], ◌++◌, IfOk, OnOk, encode_utf8_all, encode_utf8};
ghost use Rattle.text_model.specs.Texts.{IsLine};
ghost use Rattle.compact_chars.specs.Rows.{chars_of};
ghost use Rattle.text_coding.specs.Coding.{mark_of, to_form, saved};

use crate::form::{Bom, Eol};
use compact_chars::CharsRef;
use line_buffer::Lines;
use std::alloc::{AllocError, Global};

// What stands before a text.
fn mark_of(bom: Bom) -> &'static [u8]
    ensures { result.now ≡ mark_of bom }
{
    match bom {
        Bom::No => &[],
        Bom::Utf8 => &[0xEF, 0xBB, 0xBF],
    }
}

// Room for the bytes of a text whose characters are one byte each.
fn room(lines: &Lines, eol: Eol, bom: Bom) -> usize {
    let ends = match eol {
        Eol::Lf => 0,
        Eol::Crlf => lines.line_count(),
    };
    mark_of(bom)
        .len()
        .saturating_add(lines.len())
        .saturating_add(ends)
}

// Adds a byte.
#[inline(always)]
fn push_byte(bytes: &mut Vec<u8>, byte: u8) -> Result<(), AllocError>
    ensures { OnOk result (bytes.new.items ≡ bytes.old.items ++ byte ∷ []) }
{
    bytes.push(byte)?;
    Ok(())
}

// Adds a character.
#[inline(always)]
fn push_char(bytes: &mut Vec<u8>, c: char) -> Result<(), AllocError>
    ensures { OnOk result (bytes.new.items ≡ bytes.old.items ++ encode_utf8 c) }
{
    if (c as u32) < 128 {
        return push_byte(bytes, c as u8);
    }
    let mut utf8 = [0u8; 4];
    bytes.extend_from_slice(c.encode_utf8(&mut utf8).as_bytes())
}

// Bytes with characters behind them.
fn with_chars(mut bytes: Vec<u8>, chars: CharsRef<'_>) -> Result<Vec<u8>, AllocError>
    ensures { IfOk result (λ new. new.items ≡ bytes.items ++ encode_utf8_all (chars_of chars.entry)) }
{
    for i in 0..chars.len() {
        push_char(&mut bytes, chars.at(i))?;
    }
    Ok(bytes)
}

// Bytes with characters behind them, at once where these are kept as ASCII.
fn with_run(mut bytes: Vec<u8>, chars: CharsRef<'_>) -> Result<Vec<u8>, AllocError>
    ensures { IfOk result (λ new. new.items ≡ bytes.items ++ encode_utf8_all (chars_of chars.entry)) }
{
    match chars {
        CharsRef::Narrow(narrow) if narrow.is_ascii() => {
            bytes.extend_from_slice(narrow)?;
            Ok(bytes)
        }
        _ => with_chars(bytes, chars),
    }
}

// Bytes with the end of a line behind them.
fn with_end(mut bytes: Vec<u8>, eol: Eol) -> Result<Vec<u8>, AllocError>
    ensures { IfOk result (λ new. new.items ≡ bytes.items ++ encode_utf8_all (to_form eol (10 ∷ []))) }
{
    if let Eol::Crlf = eol {
        push_byte(&mut bytes, b'\r')?;
        push_byte(&mut bytes, b'\n')?;
        return Ok(bytes);
    }
    push_byte(&mut bytes, b'\n')?;
    Ok(bytes)
}

// Bytes with a line behind them.
fn with_line(bytes: Vec<u8>, line: CharsRef<'_>, eol: Eol) -> Result<Vec<u8>, AllocError>
    requires { IsLine (chars_of line) }
    ensures { IfOk result (λ new. new.items ≡ bytes.items ++ encode_utf8_all (to_form eol (chars_of line.entry))) }
{
    with_end(with_run(bytes, line.between(0, line.len() - 1))?, eol)
}

/// The bytes that a text is saved as, made of its lines. Room for them is taken once, unless characters that take more
/// bytes than one ask for more.
pub fn encode(alloc: Global, lines: &Lines, eol: Eol, bom: Bom) -> Result<Vec<u8>, AllocError>
    ensures { IfOk result (λ bytes. bytes.items ≡ saved lines.now eol bom) }
{
    let mut bytes = Vec::with_capacity(alloc, room(lines, eol, bom))?;
    bytes.extend_from_slice(mark_of(bom))?;
    for n in 0..lines.line_count() {
        bytes = with_line(bytes, lines.line(n), eol)?;
    }
    Ok(bytes)
}
