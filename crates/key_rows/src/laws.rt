//! A law of the rows, as the contract of a function that does nothing.

ghost use Rattle.key_rows.specs.Laws.{EditsKeepClients};

/// No edit makes a client come or go.
pub fn edits_keep_clients()
    ensures { EditsKeepClients }
{}
