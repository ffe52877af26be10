//! The worked examples of the definitions.

ghost use Rattle.draw_model.specs.Examples.{Examples};

/// Drawings of given worlds. The function does nothing; its clause is the table.
pub fn worked_examples()
    ensures { Examples }
{}
