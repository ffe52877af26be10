//! Worked examples of the definitions, and that switches which are compared are one exactly where they are the same.

ghost use Rattle.command_forms.specs.Examples.{WorkedExamples};
ghost use Rattle.command_forms.specs.Laws.{SwitchLaws};

/// The definitions at given words. The function does nothing; its clause is the table of them.
pub fn worked_examples()
    ensures { WorkedExamples }
{}

/// Switches that are compared are one exactly where they are the same.
pub fn switches_are_apart()
    ensures { SwitchLaws }
{}
