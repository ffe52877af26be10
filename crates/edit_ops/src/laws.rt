//! Laws of the definitions and worked examples: each is the contract of a function that does nothing.

ghost use Rattle.edit_ops.specs.Typing.{TypingHasPlaces};
ghost use Rattle.edit_ops.specs.Aligning.{NeighboursShareLines};
ghost use Rattle.edit_ops.specs.Crowding.{CrowdedEditsAreTooLong};
ghost use Rattle.edit_ops.specs.Ordered.{HeldEditsAreInOrder};
ghost use Rattle.edit_ops.specs.Examples.{WorkedExamples};

/// What goes in before cursors of a list that is held in a text goes in at places of it, in order.
pub fn typing_has_places()
    ensures { TypingHasPlaces }
{}

/// What is put and aligned at the selections of a list that is held in a text are replacements in order, as an edit of the
/// text takes them.
pub fn held_edits_are_in_order()
    ensures { HeldEditsAreInOrder }
{}

/// An edit that puts in more characters than a text may have is too long, and an edit that is too long makes a change.
pub fn crowded_edits_are_too_long()
    ensures { CrowdedEditsAreTooLong }
{}

/// Of a list that is held in a text, two selections begin on one line exactly where two neighbours do.
pub fn neighbours_share_lines()
    ensures { NeighboursShareLines }
{}

/// Worked examples of edits, and of the lists that they leave.
pub fn worked_examples()
    ensures { WorkedExamples }
{}
