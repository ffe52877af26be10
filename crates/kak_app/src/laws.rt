//! Laws of the promises: each is the contract of a function that does nothing.

ghost use Rattle.kak_app.specs.Laws.{FaultsAreCounted, FullHistoryIsFull};

/// Where neither count of faults rises, a run for a client is served to its end, or it wasn't called by the program's words, met a
/// limit, or found no memory.
pub fn faults_are_counted()
    ensures { FaultsAreCounted }
{}

/// A history is told as full only where it has all entries that it may have, and the leaving.
pub fn full_history_is_full()
    ensures { FullHistoryIsFull }
{}
