//! How lines are cut from bytes.

ghost use Rattle.std.specs.Prelude.{◌≡◌, ℕ, List, ◌++◌};
ghost use Rattle.std.specs.List.{AllByRecursion};
ghost use Rattle.session_turns.specs.Lines.{whole_lines, last_part, with_newlines, HasNoNewline};

/// Lines are where the newlines are: the lines, each with its newline, and the last part are the bytes that came; and
/// where none was in what came before, none is in a line or in the last part.
pub fn lines_are_between_newlines()
    ensures all { (part bytes : List ℕ) → with_newlines (whole_lines part bytes) ++ last_part part bytes ≡ part ++ bytes }
    ensures lines { (part bytes : List ℕ) → HasNoNewline part → AllByRecursion HasNoNewline (whole_lines part bytes) }
    ensures rest { (part bytes : List ℕ) → HasNoNewline part → HasNoNewline (last_part part bytes) }
{}
