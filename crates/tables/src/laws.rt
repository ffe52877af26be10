//! The laws of tables, and worked examples of the definitions.

ghost use Rattle.tables.specs.Examples.{WorkedExamples};
ghost use Rattle.tables.specs.Laws.{ChangingLaws, PuttingLaws};

/// A row that was put is found by its test, and a test that doesn't pass it finds what it found before.
pub fn rows_are_put_in_place()
    ensures { PuttingLaws }
{}

/// A row that was changed where it stands is found changed by its test, and a test that doesn't pass it finds what it
/// found before.
pub fn rows_are_changed_in_place()
    ensures { ChangingLaws }
{}

/// The definitions at given tables. The function does nothing; its clause is the list of them.
pub fn worked_examples()
    ensures { WorkedExamples }
{}
