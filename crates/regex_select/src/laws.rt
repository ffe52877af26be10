//! Laws of searches, and worked examples of the definitions.

ghost use Rattle.regex_select.specs.Examples.{KeptExamples, MatchedExamples, SplitExamples, SearchExamples};
ghost use Rattle.regex_select.specs.Laws.{SearchLaws};

/// Worked examples of the selections that are kept.
pub fn kept_examples()
    ensures { KeptExamples }
{}

/// Worked examples of what matches select.
pub fn matched_examples()
    ensures { MatchedExamples }
{}

/// Worked examples of the parts that matches leave.
pub fn split_examples()
    ensures { SplitExamples }
{}

/// Worked examples of the matches that are found from selections.
pub fn search_examples()
    ensures { SearchExamples }
{}

/// Laws of the matches that are found from selections.
pub fn search_laws()
    ensures { SearchLaws }
{}
