//! Worked examples of the definitions.

ghost use Rattle.kak_words.specs.Examples.{WorkedExamples};

/// The definitions at given texts. The function does nothing; its clause is the table of them.
pub fn worked_examples()
    ensures { WorkedExamples }
{}
