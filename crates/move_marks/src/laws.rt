//! The laws, and the worked examples of the definitions.

ghost use Rattle.move_marks.specs.Laws.{PartsMayBeSettled};
ghost use Rattle.move_marks.specs.Examples.{Examples};

/// A part of a list may be settled before the rest comes to it, and before it is carried through changes.
pub fn parts_may_be_settled()
    ensures { PartsMayBeSettled }
{}

/// Worked examples of the marks of changes, and of the lists that they leave.
pub fn worked_examples()
    ensures { Examples }
{}
