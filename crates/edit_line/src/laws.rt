//! Worked examples of the definitions, as the contract of a function that does nothing.

ghost use Rattle.edit_line.specs.Examples.{WorkedExamples};

/// Worked examples of lines that are edited.
pub fn worked_examples()
    ensures { WorkedExamples }
{}
