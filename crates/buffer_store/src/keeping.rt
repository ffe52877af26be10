//! Changing a text once, and keeping the change.

ghost use Rattle.std.specs.Prelude.{◌≡◌, ℕ, ◌<◌, ◌≤◌, length, if◌then◌else◌, IfOk, OnOk, OnErr, IsErrOf};
ghost use Rattle.text_model.specs.declared.TheConstants.{MAX_CHARS};
ghost use Rattle.text_model.specs.Texts.{IsPlaceOrEnd, offset};
ghost use Rattle.text_model.specs.Changes.{ended, inserted, insertion, erasure};
ghost use Rattle.line_buffer.specs.declared.lines.LinesError.TheVariants.{TextFull};
ghost use Rattle.buffer_store.specs.Stored.{IsKeptStep};

use change_list::Change;
use kak_text::{Chars, Coord};
use line_buffer::{Lines, LinesError};
use std::alloc::{AllocError, Global};

/// Puts characters in at a place or at the end, where they get a newline behind them if their last is none, and gives the
/// change; none where there are no characters. `TextFull` comes only where the new text would have more than `MAX_CHARS`
/// characters, and then only want of memory may come in its place. After an error the text is as it was.
pub fn insert(
    lines: &mut Lines,
    alloc: Global,
    at: Coord,
    chars: &[char],
) -> Result<Option<Change>, LinesError>
    requires { IsPlaceOrEnd lines.old at }
    ensures kept { IfOk result (λ kept. IsKeptStep lines.old lines.new (insertion lines.old (offset lines.old at) chars.now) kept) }
    ensures full { IsErrOf result TextFull → MAX_CHARS < length (inserted lines.old (offset lines.old at) chars.now) }
    ensures room { OnOk result (length (inserted lines.old (offset lines.old at) chars.now) ≤ MAX_CHARS) }
    ensures err { OnErr result (lines.new ≡ lines.old) }
{
    let at_end = at.line as usize == lines.line_count();
    if chars.is_empty() {
        return Ok(None);
    }
    let put = really_put(alloc, chars, at_end)?;
    match lines.insert(alloc, at, put.as_slice()) {
        Ok(shift) => Ok(Some(Change { shift, chars: put })),
        Err(e) => Err(e),
    }
}

/// Takes the characters from a place to before another, or to the end, out, and gives the change; none where nothing is
/// taken, since the last newline of the text stays. After an error the text is as it was.
pub fn erase(
    lines: &mut Lines,
    alloc: Global,
    from: Coord,
    to: Coord,
) -> Result<Option<Change>, AllocError>
    requires from { IsPlaceOrEnd lines.old from }
    requires to { IsPlaceOrEnd lines.old to }
    requires ordered { offset lines.old from ≤ offset lines.old to }
    ensures kept { IfOk result (λ kept. IsKeptStep lines.old lines.new (erasure lines.old (offset lines.old from) (offset lines.old to)) kept) }
    ensures err { OnErr result (lines.new ≡ lines.old) }
{
    let (shift, taken) = lines.erase(alloc, from, to)?;
    if taken.is_empty() {
        return Ok(None);
    }
    Ok(Some(Change {
        shift,
        chars: Chars::of_vec(taken),
    }))
}

// What is really put in: at the end of a text, characters get a newline at their end.
fn really_put(alloc: Global, chars: &[char], at_end: bool) -> Result<Chars, AllocError>
    ensures { IfOk result (λ put. put ≡ (if at_end then ended chars.now else chars.now)) }
{
    let mut put = Chars::from_slice(alloc, chars)?;
    if !at_end {
        return Ok(put);
    }
    if chars.last() == Some(&'\n') {
        return Ok(put);
    }
    put.push('\n')?;
    Ok(put)
}
