//! What stands before a closing mark.

ghost use Rattle.std.specs.Prelude.{◌≡◌, ◌<◌, ◌≤◌, ◌+◌, ◌^◌, ◌==◌, ◌&&◌, true, false, Some, None, [], ◌∷◌, if◌then◌else◌, length, IfOk, IfSome, MatchOption};
ghost use Rattle.kak_words.specs.Characters.{ends_word};
ghost use Rattle.kak_words.specs.Closing.{up_to, balanced, depth_behind, closed_by, escapes, plain};
ghost use Rattle.kak_words.specs.Splits.{IsSplit, IsSplitIf};

use crate::placed::{Placed, ends_word, is_escapable};
use std::alloc::{AllocError, Global};

/// What stands before a closing mark, and what stands behind it.
#[derive(Drop)]
pub(crate) struct Found<'a> {
    pub inside: Vec<Placed>,
    pub rest: &'a [Placed],
}

// What stands before a mark that isn't doubled; of a doubled one, one belongs to it.
pub(crate) fn up_to<'a>(
    alloc: Global,
    text: &'a [Placed],
    mark: char,
) -> Result<Option<Found<'a>>, AllocError>
    ensures found { IfOk result (λ o. MatchOption o (up_to mark false text.now ≡ None) (λ f. IsSplitIf (up_to mark false text.now) f.inside.items f.rest.now)) }
    ensures shorter { IfOk result (λ o. IfSome o (λ f. length f.rest.now ≤ length text.now)) }
{
    let mut inside = Vec::new(alloc);
    let mut pending = false;
    for (i, p) in text.iter().enumerate() {
        if p.c == mark {
            if !pending {
                pending = true;
                continue;
            }
            pending = false;
            inside.push(*p)?;
            continue;
        }
        if pending {
            let (_, rest) = text.split_at(i);
            return Ok(Some(Found { inside, rest }));
        }
        inside.push(*p)?;
    }
    if !pending {
        return Ok(None);
    }
    let (_, rest) = text.split_at(text.len());
    Ok(Some(Found { inside, rest }))
}

// How many brackets of a pair are open behind a character.
fn depth_behind(opening: char, closing: char, depth: usize, c: char) -> usize
    requires { depth + 1 < 2 ^ 64 }
    ensures value { result ≡ depth_behind opening closing depth c }
    ensures step { result ≤ depth + 1 }
{
    if c == opening {
        return depth + 1;
    }
    if c == closing {
        return depth.saturating_sub(1);
    }
    depth
}

// Whether a character closes what no other bracket is open in.
fn is_last(closing: char, depth: usize, c: char) -> bool
    ensures { result ≡ (c == closing && depth == 0) }
{
    c == closing && depth == 0
}

// What stands before the bracket that closes.
fn balanced<'a>(
    alloc: Global,
    text: &'a [Placed],
    opening: char,
    closing: char,
) -> Result<Option<Found<'a>>, AllocError>
    ensures found { IfOk result (λ o. MatchOption o (balanced opening closing 0 text.now ≡ None) (λ f. IsSplitIf (balanced opening closing 0 text.now) f.inside.items f.rest.now)) }
    ensures shorter { IfOk result (λ o. IfSome o (λ f. length f.rest.now ≤ length text.now)) }
{
    let mut inside = Vec::new(alloc);
    let mut depth = 0;
    for (i, p) in text.iter().enumerate() {
        if is_last(closing, depth, p.c) {
            let (_, rest) = text.split_at(i + 1);
            return Ok(Some(Found { inside, rest }));
        }
        depth = depth_behind(opening, closing, depth, p.c);
        inside.push(*p)?;
    }
    Ok(None)
}

/// What stands before that which closes an opening mark: the bracket of its pair, or the same mark.
pub(crate) fn closed_by<'a>(
    alloc: Global,
    text: &'a [Placed],
    mark: char,
) -> Result<Option<Found<'a>>, AllocError>
    ensures found { IfOk result (λ o. MatchOption o (closed_by mark text.now ≡ None) (λ f. IsSplitIf (closed_by mark text.now) f.inside.items f.rest.now)) }
    ensures shorter { IfOk result (λ o. IfSome o (λ f. length f.rest.now ≤ length text.now)) }
{
    match mark {
        '{' => balanced(alloc, text, '{', '}'),
        '[' => balanced(alloc, text, '[', ']'),
        '(' => balanced(alloc, text, '(', ')'),
        '<' => balanced(alloc, text, '<', '>'),
        _ => up_to(alloc, text, mark),
    }
}

// Whether a backslash before a text has its first character stand for itself.
fn escapes(start: bool, text: &[Placed]) -> bool
    ensures { result ≡ escapes start text.now }
{
    match text.first() {
        Some(p) => is_escapable(start, p.c),
        None => false,
    }
}

// Whether a character is a backslash that has the first character behind it stand for itself.
fn is_escape(start: bool, c: char, behind: &[Placed]) -> bool
    ensures { result ≡ (c == 92 && escapes start behind.now) }
{
    c == '\\' && escapes(start, behind)
}

// What a plain word begins with: its first character, unless that only has the next one stand for itself.
fn beginning(alloc: Global, first: Placed, literal: bool) -> Result<Vec<Placed>, AllocError>
    ensures { IfOk result (λ v. v.items ≡ (if literal then [] else first ∷ [])) }
{
    let mut inside = Vec::new(alloc);
    if literal {
        return Ok(inside);
    }
    inside.push(first)?;
    Ok(inside)
}

/// A plain word, from its first character on.
pub(crate) fn plain<'a>(
    alloc: Global,
    first: Placed,
    behind: &'a [Placed],
) -> Result<Found<'a>, AllocError>
    requires { ends_word first.c ≡ false }
    ensures found { IfOk result (λ f. IsSplit (plain true false (first ∷ behind.now)) f.inside.items f.rest.now) }
    ensures shorter { IfOk result (λ f. length f.rest.now ≤ length behind.now) }
{
    let mut literal = is_escape(true, first.c, behind);
    let mut inside = beginning(alloc, first, literal)?;
    for (i, p) in behind.iter().enumerate() {
        if literal {
            literal = false;
            inside.push(*p)?;
            continue;
        }
        let (_, rest) = behind.split_at(i);
        if ends_word(p.c) {
            return Ok(Found { inside, rest });
        }
        let (_, further) = behind.split_at(i + 1);
        if is_escape(false, p.c, further) {
            literal = true;
            continue;
        }
        inside.push(*p)?;
    }
    let (_, rest) = behind.split_at(behind.len());
    Ok(Found { inside, rest })
}
