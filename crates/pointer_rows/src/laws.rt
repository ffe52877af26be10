//! Laws and worked examples of the definitions: each is the contract of a function that does nothing.

ghost use Rattle.pointer_rows.specs.Examples.{PointingExamples, ScrollingExamples};
ghost use Rattle.pointer_rows.specs.Laws.{PointingMovesPlaces, ScrollingMovesPlaces};

/// Whatever a mouse does leaves its client's status, its count and all else of its own but the drag, what others have of their
/// own, each text with its undo tree and what is pending there, registers, options, faces, the step's units and what is kept by
/// scope.
pub fn pointing_moves_places()
    ensures { PointingMovesPlaces }
{}

/// Scrolling leaves the same, however far it goes.
pub fn scrolling_moves_places()
    ensures { ScrollingMovesPlaces }
{}

/// Worked examples of places, and of what a mouse selects there.
pub fn pointing_examples()
    ensures { PointingExamples }
{}

/// Worked examples of scrolling.
pub fn scrolling_examples()
    ensures { ScrollingExamples }
{}
