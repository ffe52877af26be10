//! Worked examples of the definitions.

ghost use Rattle.selection_set.specs.Examples.{Examples};

/// Worked examples of lists of selections.
pub fn worked_examples()
    ensures { Examples }
{}
