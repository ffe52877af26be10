//! Worked examples of the definitions.

ghost use Rattle.session_lines.specs.Examples.{Examples};

/// The worked examples hold.
pub fn worked_examples()
    ensures { Examples }
{}
