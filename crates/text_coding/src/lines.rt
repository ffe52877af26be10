//! The lines of a file, one behind another.

ghost use Rattle.std.specs.Prelude.{◌+◌, IsErrOf, ◌≡◌, ◌≢◌, ◌==◌, ◌<◌, ◌++◌, ◌∷◌, [], ℕ, List, None, length, take, slice_index, chars, All, IfOk, IfSome, OnOk};
ghost use Rattle.text_model.specs.declared.TheConstants.{MAX_CHARS};
ghost use Rattle.text_model.specs.Texts.{IsLine, IsText};
ghost use Rattle.text_model.specs.Changes.{ended};
ghost use Rattle.text_coding.specs.Coding.{eol_of, from_form, without_returns};
ghost use Rattle.text_coding.specs.Parting.{IsParted};
ghost use Rattle.text_coding.specs.Surveying.{last_of};

use crate::form::Eol;
use line_buffer::{GrowingLines, Lines, LinesError};
use memchr::memchr;
use std::alloc::Global;

// A text that was parted at a newline.
#[derive(Clone, Copy)]
struct Parted<'a> {
    // what stands before the newline
    run: &'a str,
    // the same, with the newline
    line: &'a str,
    // what stands behind the newline
    behind: &'a str,
}

// Parts a text at its first newline.
fn parted_at(text: &str, newline: usize) -> Parted<'_>
    requires inside { newline < length text.now }
    requires newline { slice_index text.now newline ≡ 10 }
    requires first { All (λ b. b ≢ 10) (take newline text.now) }
    ensures { IsParted result text.now }
{
    let (line, behind) = text.split_at(newline + 1);
    let (run, _) = line.split_at(newline);
    Parted { run, line, behind }
}

// Parts a text at its first newline, if it has one.
fn first_line(text: &str) -> Option<Parted<'_>>
    ensures some { IfSome result (λ parted. IsParted parted text.now) }
    ensures none { result ≡ None → All (λ c. c ≢ 10) (chars text.now) }
{
    let newline = memchr(b'\n', text.as_bytes())?;
    Some(parted_at(text, newline))
}

// What stands before a return at the end, if one stands there.
fn before_return(run: &str) -> Option<&str>
    ensures some { IfSome result (λ front. chars run.now ≡ chars front.now ++ 13 ∷ []) }
    ensures none { result ≡ None → last_of 0 (chars run.now) ≢ 13 }
{
    let (last, front) = run.as_bytes().split_last()?;
    if *last != b'\r' {
        return None;
    }
    Some(run.split_at(front.len()).0)
}

/// How the lines of a file end. It is gone over up to the first newline without a return.
pub fn eol_of(text: &str) -> Eol
    ensures { result ≡ eol_of (chars text.now) }
{
    let mut newline = false;
    let mut rest = text;
    while let Some(parted) = first_line(rest) {
        let Some(_) = before_return(parted.run) else {
            return Eol::Lf;
        };
        newline = true;
        rest = parted.behind;
    }
    if newline { Eol::Crlf } else { Eol::Lf }
}

// What stands before a newline, without a return at its end.
fn without_return(run: &str) -> &str
    requires { All (λ c. c ≢ 10) (chars run.now) }
    ensures open { All (λ c. c ≢ 10) (chars result.now) }
    ensures same { (rest : List ℕ) → without_returns (chars run.now ++ 10 ∷ rest) ≡ chars result.now ++ 10 ∷ without_returns rest }
{
    match before_return(run) {
        Some(front) => front,
        None => run,
    }
}

// Adds a line that lacks its newline, which it gets in a room for that.
fn push_run(
    alloc: Global,
    lines: &mut GrowingLines,
    room: &mut String,
    run: &str,
) -> Result<(), LinesError>
    requires { All (λ c. c ≢ 10) (chars run.now) }
    ensures ok { OnOk result (lines.new ≡ lines.old ++ (chars run.now ++ 10 ∷ [])) }
    ensures full { IsErrOf result LinesError.TextFull → MAX_CHARS < length lines.old + length (chars run.now ++ 10 ∷ []) }
{
    room.clear();
    room.push_str(run)?;
    room.push('\n')?;
    lines.push(alloc, room.as_str())
}

// Adds the line before a newline, as it stands in a text.
fn push_parted(
    alloc: Global,
    lines: &mut GrowingLines,
    room: &mut String,
    parted: Parted<'_>,
    eol: Eol,
) -> Result<(), LinesError>
    requires open { All (λ c. c ≢ 10) (chars parted.run.now) }
    requires line { chars parted.line.now ≡ chars parted.run.now ++ 10 ∷ [] }
    ensures more { OnOk result ((rest : List ℕ) → lines.old ++ from_form eol (chars parted.entry.run.now ++ 10 ∷ rest) ≡ lines.new ++ from_form eol rest) }
    ensures whole { OnOk result (IsText lines.new) }
    ensures full { IsErrOf result LinesError.TextFull → (rest : List ℕ) → MAX_CHARS < length (lines.old ++ from_form eol (chars parted.entry.run.now ++ 10 ∷ rest)) }
{
    match eol {
        Eol::Lf => lines.push(alloc, parted.line),
        Eol::Crlf => push_run(alloc, lines, room, without_return(parted.run)),
    }
}

// The text of lines with characters behind them, which may lack a newline.
fn closed(alloc: Global, mut lines: GrowingLines, rest: &str) -> Result<Lines, LinesError>
    requires whole { 0 < length lines → IsText lines }
    requires open { All (λ c. c ≢ 10) (chars rest.now) }
    ensures text { IfOk result (λ text. text ≡ ended (lines ++ chars rest.now)) }
    ensures full { IsErrOf result LinesError.TextFull → MAX_CHARS < length (ended (lines ++ chars rest.now)) }
{
    if rest.is_empty() && lines.len() > 0 {
        return Ok(lines.finish(alloc));
    }
    push_run(alloc, &mut lines, &mut String::new(alloc), rest)?;
    Ok(lines.finish(alloc))
}

/// The lines of the text of a file whose lines end so. Each line goes to the text as soon as its newline is found.
/// `TextFull` comes only where the text has more than `MAX_CHARS` characters.
pub fn text_lines(alloc: Global, text: &str, eol: Eol) -> Result<Lines, LinesError>
    ensures lines { IfOk result (λ lines. lines ≡ ended (from_form eol (chars text.now))) }
    ensures full { IsErrOf result LinesError.TextFull → MAX_CHARS < length (ended (from_form eol (chars text.now))) }
{
    let mut lines = GrowingLines::new(alloc);
    let mut room = String::new(alloc);
    let mut rest = text;
    while let Some(parted) = first_line(rest) {
        push_parted(alloc, &mut lines, &mut room, parted, eol)?;
        rest = parted.behind;
    }
    closed(alloc, lines, rest)
}
