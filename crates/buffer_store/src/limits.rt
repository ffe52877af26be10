//! Whether an edit is refused, found before it changes anything.

ghost use Rattle.std.specs.Prelude.{◌≡◌, ℕ, ◌+◌, ◌<◌, ◌≤◌, ◌&&◌, ◌==◌, nat_lt, if◌then◌else◌, List, length};
ghost use Rattle.text_model.specs.Coords.{is_at_most};
ghost use Rattle.text_model.specs.declared.TheConstants.{MAX_CHARS};
ghost use Rattle.text_model.specs.Texts.{IsStored, IsPlaceOrEnd, offset, line_count};
ghost use Rattle.text_model.specs.Changes.{begins_line, taken_end, replacement};
ghost use Rattle.undo_model.specs.Stories.{is_undo_full};
ghost use Rattle.undo_model.specs.Edits.{is_too_long};
ghost use Rattle.buffer_store.specs.Buffers.{AreSplicesOf, IsSpliceOf, flat_splices, changes_of};
ghost use Rattle.buffer_store.specs.Limits.{added, begins_behind, IsPassed, CanPass, IsPassedTo};

use crate::edits::Splice;
use crate::history::History;
use crate::replacing::keeps_newline;
use kak_text::{Coord, MAX_CHARS};
use line_buffer::Lines;

// What is known of the text behind some replacements: the coordinate in the old text behind the last of them, whether a
// line begins behind what took its place, and how many characters there are.
#[derive(Clone, Copy)]
pub(crate) struct PassedText {
    pub(crate) behind: Coord,
    pub(crate) begins: bool,
    pub(crate) chars: usize,
}

impl History {
    /// Whether an edit of a client begins a group for which the tree has no room.
    pub(crate) fn is_undo_full(&self, who: u32, splices: &[Splice]) -> bool
        requires { AreSplicesOf self.now.text splices.now }
        ensures { result ≡ is_undo_full who (changes_of self.now.text splices.now) self.now }
    {
        self.is_full_for(who) && makes_change(self.lines(), splices)
    }
}

/// Whether the text behind one of some replacements would have more than `MAX_CHARS` characters. It takes no memory, and
/// costs the lines that they touch.
pub(crate) fn is_too_long(lines: &Lines, splices: &[Splice]) -> bool
    requires { AreSplicesOf lines.now splices.now }
    ensures { result ≡ is_too_long (length lines.now) lines.now (flat_splices lines.now splices.now) }
{
    let mut at = PassedText {
        behind: Coord { line: 0, column: 0 },
        begins: false,
        chars: lines.len(),
    };
    for splice in splices {
        match pass(lines, at, splice) {
            Some(next) => at = next,
            None => return true,
        }
    }
    false
}

// Whether replacements change the text.
fn makes_change(lines: &Lines, splices: &[Splice]) -> bool
    requires { AreSplicesOf lines.now splices.now }
    ensures { result ≡ nat_lt 0 (length (changes_of lines.now splices.now)) }
{
    for splice in splices {
        if replaces(lines, splice) {
            return true;
        }
    }
    false
}

// Whether a replacement changes the text.
fn replaces(lines: &Lines, splice: &Splice) -> bool
    requires ends { IsSpliceOf lines.now splice.now }
    requires ordered { offset lines.now splice.now.from ≤ offset lines.now splice.now.to }
    ensures { result ≡ nat_lt 0 (length (replacement lines.now (offset lines.now splice.now.from) (offset lines.now splice.now.to) splice.now.text)) }
{
    let chars = splice.text.as_slice();
    let last = lines.last_place();
    if splice.to.line as usize == lines.line_count()
        && keeps_newline(splice.from, splice.to, chars)
    {
        return chars.len() > 1 || !last.is_at_most(splice.from);
    }
    !chars.is_empty() || !taken_to(lines, splice.from, splice.to).is_at_most(splice.from)
}

// Where the range that an erasure really takes ends: at the end only where it begins behind a newline.
fn taken_to(lines: &Lines, from: Coord, to: Coord) -> Coord
    requires from { IsPlaceOrEnd lines.now from }
    requires to { IsPlaceOrEnd lines.now to }
    ensures place { IsPlaceOrEnd lines.now result }
    ensures value { offset lines.now result ≡ taken_end lines.now (offset lines.now from) (offset lines.now to) }
{
    if (to.line as usize) < lines.line_count() {
        return to;
    }
    if line_begins(from) {
        return to;
    }
    lines.last_place()
}

// Goes on to the text behind one replacement more, if it isn't too long.
fn pass(lines: &Lines, at: PassedText, splice: &Splice) -> Option<PassedText>
    requires { CanPass lines.now at splice.now }
    ensures { (now : List ℕ) (f : ℕ) → IsPassed lines.now now f at → f ≤ offset lines.now splice.now.from → IsPassedTo lines.now now splice.now result }
{
    let chars = splice.text.as_slice();
    let at_end = splice.to.line as usize == lines.line_count();
    let begins = begins_at(at, splice.from);
    let kept = at.chars - count(lines, splice.from, splice.to);
    let room = MAX_CHARS - kept;
    if chars.len() > room {
        return None;
    }
    let more = added(chars, at_end, begins);
    if more > room {
        return None;
    }
    Some(PassedText {
        behind: splice.to,
        begins: at_end || begins_behind(chars, begins),
        chars: kept + more,
    })
}

// How many characters a replacement adds beside those that it takes.
fn added(chars: &[char], at_end: bool, begins: bool) -> usize
    requires { length chars.now ≤ MAX_CHARS }
    ensures { result ≡ added chars.now at_end begins }
{
    if !at_end || chars.last() == Some(&'\n') {
        return chars.len();
    }
    if chars.is_empty() && begins {
        return 0;
    }
    chars.len() + 1
}

// Whether a line begins behind characters.
fn begins_behind(chars: &[char], begins: bool) -> bool
    ensures { result ≡ begins_behind chars.now begins }
{
    if chars.is_empty() {
        return begins;
    }
    chars.last() == Some(&'\n')
}

// Whether a line begins at a coordinate of the old text, in the text behind the replacements so far.
fn begins_at(at: PassedText, from: Coord) -> bool
    ensures { result ≡ (if is_at_most from at.behind then at.begins else (nat_lt 0 from.line && (from.column == 0))) }
{
    if from.is_at_most(at.behind) {
        return at.begins;
    }
    line_begins(from)
}

// Whether a line other than the first begins at a coordinate.
fn line_begins(at: Coord) -> bool
    ensures { result ≡ (nat_lt 0 at.line && (at.column == 0)) }
{
    at.line > 0 && at.column == 0
}

// How many characters there are from a place to another, or to the end. It costs the lines between them.
fn count(lines: &Lines, from: Coord, to: Coord) -> usize
    requires from { IsPlaceOrEnd lines.now from }
    requires to { IsPlaceOrEnd lines.now to }
    requires ordered { offset lines.now from ≤ offset lines.now to }
    ensures { offset lines.now from + result ≡ offset lines.now to }
{
    let mut all = to.column as usize;
    for n in from.line..to.line {
        all += lines.line(n as usize).len();
    }
    all - from.column as usize
}
