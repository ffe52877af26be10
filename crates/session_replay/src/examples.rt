//! Worked examples of the definitions.

ghost use Rattle.session_replay.specs.Examples.{WorkedExamples};
ghost use Rattle.session_replay.specs.WrittenExamples.{WrittenExamples};

/// The worked examples hold.
pub fn worked_examples()
    ensures { WorkedExamples }
{}

/// What given lines are. The function does nothing; its clause is the table.
pub fn written_examples()
    ensures { WrittenExamples }
{}
