//! The laws of the definitions, the limit and the worked examples: each is the contract of a function that does nothing.

ghost use Rattle.std.specs.Prelude.{◌≡◌};
ghost use Rattle.undo_model.specs.declared.TheConstants.{MAX_NODES};
ghost use Rattle.undo_model.specs.Laws.{StepsAreTakenBack, StoriesAreKept, MovesLead, HeirsAreRemembered, MovesByName, ForgottenIsAStory, MovesGoByNodes, EditsAreSteps, MarksLieInside};
ghost use Rattle.undo_model.specs.Examples.{WorkedExamples};

/// Changes and then their inverses from the last to the first give the old text, over texts that can be kept.
pub fn steps_are_taken_back()
    ensures { StepsAreTakenBack }
{}

/// What is done to a story leaves a story.
pub fn stories_are_kept()
    ensures { StoriesAreKept }
{}

/// The single changes of a move lead to the text of its node, and all texts of the tree stay.
pub fn moves_lead()
    ensures { MovesLead }
{}

/// Undo and redo are remembered, and redo brings back what undo took.
pub fn heirs_are_remembered()
    ensures { HeirsAreRemembered }
{}

/// Moves by their names are undo, redo and the move to a node, and lead where these do.
pub fn moves_by_name()
    ensures { MovesByName }
{}

/// A text whose history was lost is a story again, and is modified.
pub fn forgotten_is_a_story()
    ensures { ForgottenIsAStory }
{}

/// A move goes node by node up to the nearest common ancestor, and from there down, over no node twice.
pub fn moves_go_by_nodes()
    ensures { MovesGoByNodes }
{}

/// The single changes of an edit are changes of texts that can be kept.
pub fn edits_are_steps()
    ensures { EditsAreSteps }
{}

/// The list that a move leaves lies in the text.
pub fn marks_lie_inside()
    ensures { MarksLieInside }
{}

/// The limit, in numbers.
pub fn limits()
    ensures { MAX_NODES ≡ 100000 }
{}

/// Worked examples of all definitions.
pub fn worked_examples()
    ensures { WorkedExamples }
{}
