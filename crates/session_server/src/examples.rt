//! Worked examples of the definitions.

ghost use Rattle.session_server.specs.Examples.{Examples};
ghost use Rattle.session_server.specs.RowExamples.{RowExamples};

/// The worked examples of sessions hold.
pub fn worked_examples()
    ensures { Examples }
{}

/// The worked examples of the rows of links hold.
pub fn row_examples()
    ensures { RowExamples }
{}
