//! Worked examples of steps and of vertical moves, and that what their definitions find holds the cell.

ghost use Rattle.motion_keys.specs.Examples.{Examples};
ghost use Rattle.motion_keys.specs.Motions.{HoldersAreFound};
ghost use Rattle.motion_keys.specs.VerticalExamples.{LineExamples, VerticalExamples, CellExamples};

/// Worked examples of steps.
pub fn worked_examples()
    ensures { Examples }
{}

/// Worked examples of the line that is some lines below another one.
pub fn line_examples()
    ensures { LineExamples }
{}

/// Worked examples of vertical moves.
pub fn vertical_examples()
    ensures { VerticalExamples }
{}

/// Worked examples of vertical moves over tabs, wide characters and characters without cells.
pub fn cell_examples()
    ensures { CellExamples }
{}

/// The character that is found for a cell holds it, and where none is found no character holds it.
pub fn holders_are_found()
    ensures { HoldersAreFound }
{}
