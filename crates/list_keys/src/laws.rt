//! A law of splitting, and worked examples of the rows.

ghost use Rattle.list_keys.specs.Examples.{WholeLineExamples, TrimExamples, PartExamples, CopyExamples, MainExamples};
ghost use Rattle.list_keys.specs.Splitting.{SplittingMakesParts};

/// Worked examples of selections cut to whole lines.
pub fn whole_line_examples()
    ensures { WholeLineExamples }
{}

/// Worked examples of trimmed selections.
pub fn trim_examples()
    ensures { TrimExamples }
{}

/// Worked examples of selections that are split, and of their ends.
pub fn part_examples()
    ensures { PartExamples }
{}

/// Worked examples of copies.
pub fn copy_examples()
    ensures { CopyExamples }
{}

/// Worked examples of the rows that go by the main selection, and of the whole text.
pub fn main_examples()
    ensures { MainExamples }
{}

/// The parts that a selection is split into are the selection, one behind the other, and each is on one line: it ends at
/// the first newline in it, or where the selection ends.
pub fn splitting_makes_parts()
    ensures { SplittingMakesParts }
{}
