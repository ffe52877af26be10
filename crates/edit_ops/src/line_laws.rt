//! Laws of the definitions of edits that go by lines, and worked examples: each is the contract of a function that does
//! nothing.

ghost use Rattle.edit_ops.specs.Blanks.{BlanksWithinAreAll};
ghost use Rattle.edit_ops.specs.Spans.{TouchedAreHeld};
ghost use Rattle.edit_ops.specs.LineExamples.{LineExamples};

/// The lines that a selection touches are those of which it holds a character.
pub fn touched_lines_are_held()
    ensures { TouchedAreHeld }
{}

/// The blanks that a line loses are all that take no more columns.
pub fn blanks_within_are_all()
    ensures { BlanksWithinAreAll }
{}

/// Worked examples of lines that are joined and indented.
pub fn line_examples()
    ensures { LineExamples }
{}
