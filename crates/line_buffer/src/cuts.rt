//! Characters put together, and cut into lines.

ghost use Rattle.std.specs.Prelude.{◌≡◌, ◌≢◌, ◌<◌, ◌≤◌, ◌++◌, length, take, drop, All, IfOk};
ghost use Rattle.text_model.specs.Texts.{IsText, lines_of};
ghost use Rattle.compact_chars.specs.Rows.{chars_of};

use crate::line::Line;
use compact_chars::CharsRef;
use std::alloc::{AllocError, Global};

/// Characters with others behind them.
pub fn gathered(alloc: Global, front: &[char], back: CharsRef<'_>) -> Result<Vec<char>, AllocError>
    ensures { IfOk result (λ all. all.items ≡ front.now ++ chars_of back.entry) }
{
    let mut all = Vec::with_capacity(alloc, front.len() + back.len())?;
    all.extend_from_slice(front)?;
    back.push_onto(&mut all)?;
    Ok(all)
}

/// The lines of a text.
pub fn cut(alloc: Global, text: &[char]) -> Result<Vec<Line>, AllocError>
    requires { IsText text.now }
    ensures { IfOk result (λ lines. lines.items ≡ lines_of text.now) }
{
    let mut lines = Vec::new(alloc);
    let mut start = 0;
    for (i, c) in text.iter().enumerate() {
        if *c == '\n' {
            lines.push(Line::of_chars(alloc, CharsRef::Wide(&text[start..i + 1]))?)?;
            start = i + 1;
        }
    }
    Ok(lines)
}

/// How many characters there are up to and with the last newline; 0 where there is none. It looks at those behind it.
pub fn last_end(chars: &[char]) -> usize
    ensures inside { result ≤ length chars.now }
    ensures lines { 0 < result → IsText (take result chars.now) }
    ensures rest { All (λ c. c ≢ 10) (drop result chars.now) }
{
    let mut end = chars.len();
    while end > 0 {
        if chars[end - 1] == '\n' {
            return end;
        }
        end -= 1;
    }
    0
}
