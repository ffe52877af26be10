//! What a pattern finds.

ghost use Rattle.std.specs.Prelude.{◌≡◌, ℕ, List, length, map, IfOk};
ghost use Rattle.regex_ports.specs.Matching.{matches_of, is_found_in};
ghost use Rattle.regex_ports.specs.Grouping.{groups_of, groups_found, spans_of};
ghost use Rattle.regex_ports.specs.Seeking.{first_behind, last_before};

use crate::texts::Texts;
use sequences::Seq;
use std::alloc::{AllocError, Global};

/// A range of a text, in bytes: its first, and the one behind its last.
#[derive(Clone, Copy, PartialEq, Eq, Debug)]
pub struct Span {
    pub start: usize,
    pub end: usize,
}

/// The groups of a match.
#[derive(Drop, Debug)]
pub struct Groups {
    /// At 0 the match itself, and at n its n-th group, if it took part.
    pub spans: Vec<Option<Span>>,
}

/// The range of a group of a match: the match itself has number 0, and its n-th group has number n.
#[derive(Clone, Copy, Debug)]
pub struct GroupSpan {
    pub group: usize,
    pub span: Span,
}

/// A pattern, which was made of a text.
pub trait Pattern: Drop {
    // The text that the pattern was made of.
    ghost source: { Self → List ℕ };

    /// The text that it was made of. Two patterns of one text find the same.
    fn text(&self) -> &str
        ensures { result.now ≡ source self.now };

    /// The matches of the pattern in a text, from left to right, each searched for behind the one before it. `^` and
    /// `$` match at the ends of lines, and `.` matches a newline.
    fn matches(&self, alloc: Global, text: &str) -> Result<Vec<Span>, AllocError>
        ensures { IfOk result (λ spans. spans.items ≡ matches_of (source self.now) text.now) };

    /// The first of these matches that begins behind a byte, or, where none does, the first of all; one that begins at the
    /// text's end is never found. It costs the text up to the match behind the byte, or else all of it, and keeps no list.
    fn first_behind(
        &self,
        alloc: Global,
        text: &str,
        byte: usize,
    ) -> Result<Option<Span>, AllocError>
        ensures { IfOk result (λ found. found ≡ first_behind byte (length text.now) (matches_of (source self.now) text.now)) };

    /// The last of these matches that begins before a byte, or, where none does, the last of all; one that begins at the
    /// text's end is found only where a byte behind that is given. It costs the text, and keeps no list.
    fn last_before(
        &self,
        alloc: Global,
        text: &str,
        byte: usize,
    ) -> Result<Option<Span>, AllocError>
        ensures { IfOk result (λ found. found ≡ last_before byte (length text.now) (matches_of (source self.now) text.now)) };

    /// The groups of each of these matches, in their order.
    fn groups(&self, alloc: Global, text: &str) -> Result<Vec<Groups>, AllocError>
        ensures { IfOk result (λ list. map spans_of list.items ≡ groups_of (source self.now) text.now) };

    /// Of each of some texts whether the pattern has a match in it, an empty one and one at its end too. Each is searched
    /// by itself, up to its first match, and they are all searched with one matcher.
    fn found_in<T: Texts>(&self, alloc: Global, texts: &mut T) -> Result<Vec<bool>, AllocError>
        ensures { IfOk result (λ found. found.items ≡ map (is_found_in (source self.now)) (T.left texts.old)) };

    /// Of each of some texts the groups that took part in the matches in it, match by match. They are all searched with one
    /// matcher, and a text without a match takes no memory.
    fn groups_in<T: Texts>(
        &self,
        alloc: Global,
        texts: &mut T,
    ) -> Result<Vec<Seq<GroupSpan>>, AllocError>
        ensures { IfOk result (λ found. found.items ≡ map (groups_found (source self.now)) (T.left texts.old)) };
}
