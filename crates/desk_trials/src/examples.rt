//! Worked examples of the definitions.
ghost use Rattle.desk_trials.specs.Examples.{Examples};

/// Each example of `specs/Examples.antt` holds.
pub fn worked_examples()
    ensures { Examples }
{}
