//! Laws of the rows, and worked examples of the definitions: each is the contract of a function that does nothing.

ghost use Rattle.normal_keys.specs.Examples.{Examples};
ghost use Rattle.normal_keys.specs.EditExamples.{AllEditExamples};
ghost use Rattle.normal_keys.specs.ObjectExamples.{ObjectExamples};
ghost use Rattle.normal_keys.specs.PatternExamples.{PatternExamples};
ghost use Rattle.normal_keys.specs.MacroExamples.{MacroExamples};
ghost use Rattle.normal_keys.specs.Laws.{RowsKeepClients};

/// No key of normal mode makes a client come or go.
pub fn rows_keep_clients()
    ensures { RowsKeepClients }
{}

/// Worked examples of the rows.
pub fn worked_examples()
    ensures { Examples }
{}

/// Worked examples of the rows that change the text.
pub fn edit_examples()
    ensures { AllEditExamples }
{}

/// Worked examples of the rows that select objects.
pub fn object_examples()
    ensures { ObjectExamples }
{}

/// Worked examples of the rows that handle patterns.
pub fn pattern_examples()
    ensures { PatternExamples }
{}

/// Worked examples of the rows that record and run macros.
pub fn macro_examples()
    ensures { MacroExamples }
{}
