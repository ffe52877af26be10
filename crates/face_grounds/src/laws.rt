//! Worked examples of the definitions.

ghost use Rattle.face_grounds.specs.Examples.{WorkedExamples};

/// The definitions at given grounds. The function does nothing; its clause is the table of them.
pub fn worked_examples()
    ensures { WorkedExamples }
{}
