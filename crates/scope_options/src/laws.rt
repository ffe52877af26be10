//! The laws of options, and worked examples of their definitions.

ghost use Rattle.scope_options.specs.Laws.{SettingLaws};
ghost use Rattle.scope_options.specs.Examples.{WorkedExamples};

/// What is set at a scope stands there, and nothing else changes.
pub fn settings_are_apart()
    ensures { SettingLaws }
{}

/// The definitions at given options. The function does nothing; its clause is the table of them.
pub fn worked_examples()
    ensures { WorkedExamples }
{}
