//! Worked examples of the definitions.

ghost use Rattle.client_links.specs.Examples.{Examples};

/// The worked examples hold.
pub fn worked_examples()
    ensures { Examples }
{}
