//! The laws, and the worked examples of the definitions.

ghost use Rattle.list_model.specs.Examples.{Examples};
ghost use Rattle.list_model.specs.Laws.{SettlingLaws, ChainLaws, MovingLaws};

/// A list of selections has one settled list, which settling gives.
pub fn lists_have_one_settled_list()
    ensures { SettlingLaws }
{}

/// Selections become one exactly where a chain of them leads from one to the other.
pub fn chains_become_one()
    ensures { ChainLaws }
{}

/// A list may be settled at each change or once after many: the result is the same.
pub fn settling_may_wait()
    ensures { MovingLaws }
{}

/// Worked examples of the definitions.
pub fn worked_examples()
    ensures { Examples }
{}
