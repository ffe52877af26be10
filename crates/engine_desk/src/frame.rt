//! What no move on an engine changes.

use kak_engine::Outside;
use std::marker::Model;

/// How many entries the history may have, and the outside as it was at first. No value of it is made.
#[derive(Drop)]
pub struct EngineFrame<O: Outside> {
    limit: u64,
    first: O,
}

impl<O: Outside> Model for EngineFrame<O> {
    ghost use Rattle.engine_desk.specs.Sharing.{Frame};

    ghost Value = { Frame };

    ghost view = { λ f. record { limit = f.limit; first = O.seen f.first } };
}
