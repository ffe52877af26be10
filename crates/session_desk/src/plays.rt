//! What each step on the table tells.
ghost use Rattle.session_desk.specs.Rule.{takes_turn, publishes, frees_turn, looks, tells, admitting, admitted, taking_back, spent_view};

use crate::played::Played;
use crate::rule::View;
use atomic_table::{Join, Play, Split};
use std::marker::PhantomData;

/// An exchange of the turn, free to held.
pub(crate) struct TakeTurn<O> {
    object: PhantomData<O>,
}

impl<O: Played> Play<Option<O>, View<O::Entry, O::Frame>> for TakeTurn<O> {
    ghost then = { takes_turn O.entries O.maker O.marked O.frame };
}

/// A store of the length and the mark.
pub(crate) struct Publish<O> {
    object: PhantomData<O>,
}

impl<O: Played> Play<Option<O>, View<O::Entry, O::Frame>> for Publish<O> {
    ghost then = { publishes O.entries O.maker O.marked O.frame };
}

/// A store of the turn, held to free.
pub(crate) struct Free<O> {
    object: PhantomData<O>,
}

impl<O: Played> Play<Option<O>, View<O::Entry, O::Frame>> for Free<O> {
    ghost then = { frees_turn O.entries O.maker O.marked O.frame };
}

/// A load of the length and the mark.
pub(crate) struct Look<O> {
    object: PhantomData<O>,
}

impl<O: Played> Play<Option<O>, View<O::Entry, O::Frame>> for Look<O> {
    ghost then = { looks O.maker };
}

/// A load of the turn by the keeper.
pub(crate) struct Tell<O> {
    object: PhantomData<O>,
}

impl<O: Played> Play<Option<O>, View<O::Entry, O::Frame>> for Tell<O> {
    ghost then = { tells O.maker };
}

/// A pass is made.
pub(crate) struct Admit;

impl<E, F> Split<View<E, F>> for Admit {
    ghost left = { admitting };

    ghost right = { admitted };
}

/// A pass is given back.
pub(crate) struct Return;

impl<E, F> Join<View<E, F>> for Return {
    ghost both = { taking_back };

    ghost spent = { spent_view };
}
