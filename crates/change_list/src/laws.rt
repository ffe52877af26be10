//! The limit and the worked examples: each is the contract of a function that does nothing.

ghost use Rattle.std.specs.Prelude.{◌≡◌};
ghost use Rattle.change_list.specs.declared.log.TheConstants.{MAX_STAMP};
ghost use Rattle.change_list.specs.Examples.{Examples};

/// The limit, in numbers.
pub fn limits()
    ensures { MAX_STAMP ≡ 100000 }
{}

/// Worked examples of the definitions.
pub fn worked_examples()
    ensures { Examples }
{}
