//! Worked examples of the definitions.

ghost use Rattle.engine_desk.specs.Examples.{Examples};

/// The worked examples hold.
pub fn worked_examples()
    ensures { Examples }
{}
