//! The tokens of a desk.
ghost use Rattle.std.specs.Prelude.{◌≡◌, length};

use crate::played::Played;
use crate::rule::TableSeat;
use std::marker::Model;

/// The right to play under one number. Contracts see its number, the history that it has seen, and the mark that it met.
#[derive(Drop)]
pub struct Pass<O: Played> {
    pub(crate) number: u32,
    pub(crate) reached: u64,
    pub(crate) seat: TableSeat<O>,
}

impl<O: Played> Model for Pass<O> {
    ghost use Rattle.std.specs.Prelude.{◌≡◌, length};
    ghost use Rattle.session_desk.specs.declared.rule.Role.TheVariants.{Plays};
    ghost use Rattle.session_desk.specs.Tokens.{PassView};
    ghost use Rattle.session_desk.specs.Rule.{IsSeatReady};

    ghost Value = { PassView O.Entry O.Frame };

    ghost view = { λ p. record { place = record { table = p.seat.table_id; frame = p.seat.me.0.frame }; number = p.number; seen = p.seat.me.0.seen; mark = p.seat.me.0.mark } };

    ghost invariant = { λ p. IsSeatReady (Plays p.number) p.seat.me × (p.reached ≡ length p.seat.me.0.seen) };
}

/// The right to admit passes, to take them back and to close the desk.
#[derive(Drop)]
pub struct Keeper<O: Played> {
    pub(crate) admitted: u32,
    pub(crate) out: u32,
    pub(crate) reached: u64,
    pub(crate) seat: TableSeat<O>,
}

impl<O: Played> Model for Keeper<O> {
    ghost use Rattle.std.specs.Prelude.{◌≡◌, ◌+◌, length};
    ghost use Rattle.session_desk.specs.declared.rule.Role.TheVariants.{Admits};
    ghost use Rattle.session_desk.specs.Tokens.{KeeperView};
    ghost use Rattle.session_desk.specs.Rule.{IsSeatReady};

    ghost Value = { KeeperView O.Entry O.Frame };

    ghost view = { λ k. record { place = record { table = k.seat.table_id; frame = k.seat.me.0.frame }; made = k.admitted; given = k.seat.me.0.given; seen = k.seat.me.0.seen; mark = k.seat.me.0.mark } };

    ghost invariant = { λ k. IsSeatReady (Admits k.admitted k.out) k.seat.me × (k.reached ≡ length k.seat.me.0.seen) × (k.out + length k.seat.me.0.given ≡ k.admitted) };
}

/// The desk can't be closed: so many passes weren't given back.
#[derive(Drop)]
pub struct Out<O: Played> {
    pub keeper: Keeper<O>,
    pub out: u32,
}

impl<O: Played> Pass<O> {
    /// The number under which it plays.
    pub fn number(&self) -> u32
        ensures { result ≡ self.now.number }
    {
        self.number
    }

    /// The length of the history that it has seen.
    pub fn seen(&self) -> u64
        ensures { result ≡ length self.now.seen }
    {
        self.reached
    }
}
