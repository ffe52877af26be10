//! The law of descriptions, and worked examples of their definitions.

ghost use Rattle.selection_texts.specs.Laws.{DescriptionsAreReadBack};
ghost use Rattle.selection_texts.specs.Examples.{WorkedExamples};

/// A selection that is told is the one that is meant, without its target, and straight where it is one character; and
/// its text is read as its description.
pub fn descriptions_are_read_back()
    ensures { DescriptionsAreReadBack }
{}

/// The definitions at given texts. The function does nothing; its clause is the table of them.
pub fn worked_examples()
    ensures { WorkedExamples }
{}
