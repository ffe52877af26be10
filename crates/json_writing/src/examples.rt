//! Worked examples of the definitions.

ghost use Rattle.json_writing.specs.Examples.{WorkedExamples};

/// The definitions at given texts, drawings and refusals. The function does nothing; its clause is
/// the table.
pub fn worked_examples()
    ensures { WorkedExamples }
{}
