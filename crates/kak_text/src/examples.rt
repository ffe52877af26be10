//! Worked examples of the definitions.

ghost use Rattle.kak_text.specs.Examples.{WorkedExamples};

/// Worked examples of classes, cells and bytes.
pub fn worked_examples()
    ensures { WorkedExamples }
{}
