//! Laws of histories.

ghost use Rattle.std.specs.Prelude.{ℕ, ◌+◌, ◌≤◌, ◌++◌, List, length};
ghost use Rattle.session_events.specs.declared.event.Entry.{Entry};
ghost use Rattle.session_events.specs.Counting.{joined_among};
ghost use Rattle.session_events.specs.Entries.{AreOf};
ghost use Rattle.session_events.specs.Legal.{IsLegal};

/// A history of one client alone has as many entries as it may have at most, and behind them its going.
pub fn one_goes_last()
    ensures { (who limit : ℕ) (history : List Entry) → AreOf who history → IsLegal limit history → length history ≤ limit + 1 }
{}

/// Behind no front of a history are more than 64 clients here.
pub fn few_are_here()
    ensures { (limit : ℕ) (front rest : List Entry) → IsLegal limit (front ++ rest) → joined_among front ≤ 64 }
{}
