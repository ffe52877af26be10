//! The laws of the tables, and worked examples of their definitions.

ghost use Rattle.scope_tables.specs.Examples.{HookExamples, WholeExamples, WorkedExamples};
ghost use Rattle.scope_tables.specs.Laws.{HookLaws, KeyLaws, HookNameLaws, RowLaws};

/// The text of a hook's name is read as that name, and names that are compared are one exactly where they are the same.
pub fn names_are_apart()
    ensures { HookNameLaws }
{}

/// Keys that are compared are one exactly where they are the same.
pub fn keys_are_apart()
    ensures { KeyLaws }
{}

/// A hook that was removed isn't found, and every other one is; an event of a name that no hook has is heard by none.
pub fn hooks_are_found()
    ensures { HookLaws }
{}

/// A key, a word and a name stand for what they were mapped to, aliased to and defined as, and nothing else changes.
pub fn rows_are_apart()
    ensures { RowLaws }
{}

/// Patterns that match the whole of a text, or don't. The function does nothing; its clause is the list of them.
pub fn whole_examples()
    ensures { WholeExamples }
{}

/// Which hooks an event has, at given tables. The function does nothing; its clause is the list.
pub fn hook_examples()
    ensures { HookExamples }
{}

/// The definitions at given tables. The function does nothing; its clause is the list of them.
pub fn worked_examples()
    ensures { WorkedExamples }
{}
