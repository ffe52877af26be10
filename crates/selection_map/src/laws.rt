//! The laws, and the worked examples of the definitions.

ghost use Rattle.selection_map.specs.Examples.{Examples};
ghost use Rattle.selection_map.specs.Laws.{ChangesMakeOneRun, ChangesAreSteps, ListsCatchUp};

/// Changes whose begins rise, as those of an edit, or fall, as those that take it back, are one run.
pub fn changes_make_one_run()
    ensures { ChangesMakeOneRun }
{}

/// Single changes of a text with their shifts are steps that lead on from it.
pub fn changes_are_steps()
    ensures { ChangesAreSteps }
{}

/// A list that is held in a text catches up with single changes of it by their shifts, also where these come one by one.
pub fn lists_catch_up()
    ensures { ListsCatchUp }
{}

/// Worked examples of where places and lists of selections go.
pub fn worked_examples()
    ensures { Examples }
{}
