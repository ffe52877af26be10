//! The laws of registers, and worked examples of their definitions.

ghost use Rattle.std.specs.Prelude.{◌≡◌};
ghost use Rattle.kak_registers.specs.Laws.{RegisterLaws};
ghost use Rattle.kak_registers.specs.Examples.{WorkedExamples};

/// A register holds what it was set to, whatever others are set to, and `_` holds nothing.
pub fn registers_are_apart()
    ensures { RegisterLaws }
{}

/// The definitions at given registers, and the limit's value. The function does nothing; its clause is the list of
/// them.
pub fn worked_examples()
    ensures { WorkedExamples }
{}
