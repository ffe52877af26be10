//! Worked examples of the definitions.

ghost use Rattle.json_ui.specs.NumberExamples.{NumberExamples};
ghost use Rattle.json_ui.specs.RequestExamples.{ReadExamples};

/// Which numbers there are. The function does nothing; its clause is the table.
pub fn number_examples()
    ensures { NumberExamples }
{}

/// The reading of given lines. The function does nothing; its clause is the table.
pub fn read_examples()
    ensures { ReadExamples }
{}
