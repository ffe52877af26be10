//! Worked examples of the definitions. The function does nothing; its clause is the list of them.

ghost use Rattle.kak_app.specs.Examples.{Examples};

/// By which words the programs may be called, a replay with which user interfaces; and what generated sessions play.
pub fn worked_examples()
    ensures { Examples }
{}
