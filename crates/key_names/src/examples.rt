//! Worked examples of the definitions, and of the code that reads and prints keys.

ghost use Rattle.key_names.specs.Examples.{WorkedExamples};

/// The definitions at given texts and keys. The function does nothing; its clause is the table.
pub fn worked_examples()
    ensures { WorkedExamples }
{}
