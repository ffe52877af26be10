//! Worked examples of the definitions.

ghost use Rattle.session_draws.specs.Examples.{Examples};

/// Numbers, keys and strikes that are drawn, and a summary. The function does nothing; its clause is the table.
pub fn worked_examples()
    ensures { Examples }
{}
