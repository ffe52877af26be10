//! Worked examples of motions in their one form and of those that search, and that what their definitions find is the least and the greatest.

ghost use Rattle.motion_keys.specs.Extremes.{ExtremesAreFound};
ghost use Rattle.motion_keys.specs.FindingExamples.{FindingExamples};
ghost use Rattle.motion_keys.specs.JumpExamples.{CharExamples, BracketExamples};
ghost use Rattle.motion_keys.specs.LandmarkExamples.{LandmarkExamples, NonBlankExamples, LinePartExamples};

/// Worked examples of moves to a character.
pub fn char_examples()
    ensures { CharExamples }
{}

/// Worked examples of moves to a bracket.
pub fn bracket_examples()
    ensures { BracketExamples }
{}

/// Worked examples of places that have a name.
pub fn landmark_examples()
    ensures { LandmarkExamples }
{}

/// Worked examples of the first character of a line that is no blank.
pub fn non_blank_examples()
    ensures { NonBlankExamples }
{}

/// Worked examples of parts of the cursor's line.
pub fn line_part_examples()
    ensures { LinePartExamples }
{}

/// What is found is the least or the greatest that passes the test, none is found only where none passes, and nothing
/// else is the least or the greatest.
pub fn extremes_are_found()
    ensures { ExtremesAreFound }
{}

/// Worked examples of what becomes of a selection by a motion.
pub fn finding_examples()
    ensures { FindingExamples }
{}
