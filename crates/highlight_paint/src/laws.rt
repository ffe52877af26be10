//! The laws of paths and faces, and worked examples of the definitions.

ghost use Rattle.highlight_paint.specs.Examples.{HighlighterExamples, MatchExamples, WorkedExamples};
ghost use Rattle.highlight_paint.specs.Laws.{PathLaws};

/// A highlighter that was added is held, and one that was removed isn't; at other scopes nothing changes.
pub fn paths_are_apart()
    ensures { PathLaws }
{}

/// Which faces the matches of patterns lay over lines. The function does nothing; its clause is the list of them.
pub fn match_examples()
    ensures { MatchExamples }
{}

/// Highlighters that are added, replaced and removed. The function does nothing; its clause is the list of them.
pub fn highlighter_examples()
    ensures { HighlighterExamples }
{}

/// Which faces other highlighters lay over lines, and which is seen. The function does nothing; its clause is the list.
pub fn worked_examples()
    ensures { WorkedExamples }
{}
