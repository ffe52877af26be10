//! Worked examples of the definitions.
ghost use Rattle.session_desk.specs.Examples.{Examples};

/// Each example of `specs/Examples.antt` holds.
pub fn worked_examples()
    ensures { Examples }
{}
