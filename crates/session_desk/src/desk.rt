//! The desk and its calls.
ghost use Rattle.std.specs.Prelude.{◌≡◌, ◌↔◌, ◌+◌, ◌<◌, ◌≤◌, ◌++◌, [], ◌∷◌, length, All, AllPairs, Some, None, IsOk, IfOk, IfErr};
ghost use Rattle.session_turns.specs.Growth.{Begins};
ghost use Rattle.session_desk.specs.Histories.{longer, first_mark, HasGiven, HasMet, HasOtherNumber};
ghost use Rattle.session_desk.specs.Tokens.{IsOf, IsSamePass, IsSameKeeper, SeesMore, SeesMoreOf, PassAdds, PassRefuses, Closes};

use crate::played::Played;
use crate::plays::{Admit, Look, Return, TakeTurn, Tell};
use crate::rule::{DeskTable, LENGTH, OBJECT, TURN, TURN_FREE, TURN_HELD};
use crate::tokens::{Keeper, Out, Pass};
use crate::turns::{give_turn, publish, take_turn};
use atomic_table::Table;
use std::alloc::{AllocError, Global};
use std::marker::Model;
use std::snapshot::Snapshot;
use std::sync::Wait;

/// One object for many threads. Contracts see which desk it is, and the frame of its object.
#[derive(Drop)]
pub struct Desk<O: Played> {
    table: DeskTable<O>,
}

impl<O: Played> Model for Desk<O> {
    ghost use Rattle.std.specs.Prelude.{◌≡◌};
    ghost use Rattle.session_desk.specs.Tokens.{Home};

    ghost Value = { Home O.Frame };

    ghost view = { λ d. record { table = d.table.shared.table_id; frame = O.frame d.table.shared.key.value } };

    ghost invariant = { λ d. (d.table.shared.table_id.words ≡ 2) × (d.table.shared.table_id.slots ≡ 1) };
}

impl<O: Played> Desk<O> {
    /// A desk with an object that has no entry and no mark. At Err there was no memory, and the object was dropped.
    pub fn new(alloc: Global, object: O) -> Result<(Desk<O>, Keeper<O>), AllocError>
        requires entries { O.entries object ≡ [] }
        requires mark { O.marked object ≡ None }
        ensures frame { IfOk result (λ r. r.0.frame ≡ O.frame object) }
        ensures own { IfOk result (λ r. IsOf r.1.place r.0) }
        ensures keeper { IfOk result (λ r. (r.1.made ≡ 0) × (r.1.given ≡ []) × (r.1.seen ≡ []) × (r.1.mark ≡ None)) }
    {
        let about = Snapshot::of(&object);
        let mut slots = Vec::with_capacity(alloc, 1)?;
        slots.push(Some(object))?;
        let Ok((table, seat)) = Table::new(alloc, &[0, 0], slots, &about) else {
            return Err(AllocError);
        };
        let keeper = Keeper {
            admitted: 0,
            out: 0,
            reached: 0,
            seat,
        };
        Ok((Desk { table }, keeper))
    }

    /// A new pass, with the next number and what the keeper has seen and met.
    pub fn admit(&self, keeper: &mut Keeper<O>) -> Pass<O>
        requires own { IsOf keeper.old.place self.now }
        requires room { keeper.old.made < 4294967295 }
        ensures keeper { keeper.new ≡ record keeper.old { made = keeper.old.made + 1 } }
        ensures pass { result ≡ record { place = keeper.old.place; number = keeper.old.made; seen = keeper.old.seen; mark = keeper.old.mark } }
    {
        let seat = self.table.shared.split_seat::<Admit>(&mut keeper.seat);
        let number = keeper.admitted;
        keeper.admitted += 1;
        keeper.out += 1;
        Pass {
            number,
            reached: keeper.reached,
            seat,
        }
    }

    /// Waits for the turn, and plays a move on the object that stands for the history so far. At Ok the history has one entry more,
    /// which the pass has seen with all before it. At Err no entry was added, and the pass has seen the history and met the mark
    /// that the object then has.
    pub fn step<R: Wait>(
        &self,
        rt: &R,
        alloc: Global,
        pass: &mut Pass<O>,
        mv: &O::Move,
    ) -> Result<O::Reply, O::Fault>
        requires own { IsOf pass.old.place self.now }
        ensures same { IsSamePass pass.old pass.new }
        ensures ok { IfOk result (λ reply. PassAdds O.maker (O.answers self.now.frame) pass.old pass.new mv.now reply) }
        ensures fault { IfErr result (λ fault. PassRefuses O.maker (O.answers self.now.frame) pass.old pass.new mv.now fault) }
    {
        let shared = &self.table.shared;
        let mut object = take_turn(rt, shared, &mut pass.seat);
        let answer = object.play(alloc, pass.number, mv);
        pass.reached = object.count();
        publish(shared, &mut pass.seat, pass.number, object);
        answer
    }

    /// The length of the history now. It waits for nobody.
    pub fn glance(&self, pass: &mut Pass<O>) -> u64
        requires own { IsOf pass.old.place self.now }
        ensures exact { result ≡ length pass.new.seen }
        ensures at_least { length pass.old.seen ≤ result }
        ensures same { IsSamePass pass.old pass.new }
        ensures sees { SeesMore O.maker pass.old pass.new }
    {
        let word = self.table.shared.load::<Look<O>>(&mut pass.seat, LENGTH);
        pass.reached = word / 2;
        pass.reached
    }

    /// Waits for the turn, and shows the object that stands for the history so far.
    pub fn look<R: Wait>(&self, rt: &R, pass: &mut Pass<O>) -> O::Glimpse
        requires own { IsOf pass.old.place self.now }
        ensures glimpse { O.shows self.now.frame pass.new.seen pass.new.mark pass.old.number result }
        ensures same { IsSamePass pass.old pass.new }
        ensures sees { SeesMore O.maker pass.old pass.new }
    {
        let shared = &self.table.shared;
        let object = take_turn(rt, shared, &mut pass.seat);
        let glimpse = object.glimpse(pass.number);
        pass.reached = object.count();
        give_turn(shared, &mut pass.seat, object);
        glimpse
    }

    /// The same for the keeper, as number u32::MAX, which no pass has. All that the keeper has then seen is of passes that it
    /// admitted.
    pub fn watch<R: Wait>(&self, rt: &R, keeper: &mut Keeper<O>) -> O::Glimpse
        requires own { IsOf keeper.old.place self.now }
        ensures glimpse { O.shows self.now.frame keeper.new.seen keeper.new.mark 4294967295 result }
        ensures same { IsSameKeeper keeper.old keeper.new }
        ensures sees { SeesMoreOf O.maker keeper.old keeper.new }
        ensures numbers { All (λ e. O.maker e < keeper.old.made) keeper.new.seen }
    {
        let shared = &self.table.shared;
        let object = take_turn(rt, shared, &mut keeper.seat);
        let glimpse = object.glimpse(u32::MAX);
        keeper.reached = object.count();
        give_turn(shared, &mut keeper.seat, object);
        glimpse
    }

    /// Gives a pass back. The keeper notes its number, its list and its mark, and has then seen the longer of both histories, which
    /// begins with the other, and met the mark that one of both had met. It waits for nobody.
    pub fn leave(&self, keeper: &mut Keeper<O>, pass: Pass<O>)
        requires keeper { IsOf keeper.old.place self.now }
        requires pass { IsOf pass.place self.now }
        ensures place { keeper.new.place ≡ keeper.old.place }
        ensures made { keeper.new.made ≡ keeper.old.made }
        ensures given { keeper.new.given ≡ keeper.old.given ++ (pass.number, pass.seen, pass.mark) ∷ [] }
        ensures seen { keeper.new.seen ≡ longer keeper.old.seen pass.seen }
        ensures begins { Begins keeper.new.seen keeper.old.seen }
        ensures mark { keeper.new.mark ≡ first_mark keeper.old.mark pass.mark }
        ensures own_entries { All (HasGiven O.maker keeper.new.seen) keeper.new.given }
        ensures marks { All (HasMet keeper.new.mark) keeper.new.given }
        ensures differ { AllPairs HasOtherNumber keeper.new.given }
    {
        let Pass {
            number: _,
            reached,
            seat,
        } = pass;
        let shared = &self.table.shared;
        shared.join_seat::<Return>(&mut keeper.seat, seat);
        shared.load::<Tell<O>>(&mut keeper.seat, TURN);
        keeper.out -= 1;
        keeper.reached = keeper.reached.max(reached);
    }

    /// Takes the object out once each pass was given back. At Err some weren't. It waits for nobody.
    pub fn close(&self, keeper: Keeper<O>) -> Result<O, Out<O>>
        requires own { IsOf keeper.place self.now }
        ensures closes { IsOk result ↔ (length keeper.given ≡ keeper.made) }
        ensures frame { IfOk result (λ o. O.frame o ≡ self.now.frame) }
        ensures history { IfOk result (λ o. Closes O.maker keeper (O.entries o) (O.marked o)) }
        ensures out { IfErr result (λ x. (x.keeper ≡ keeper) × (0 < x.out) × (x.out + length keeper.given ≡ keeper.made)) }
    {
        if keeper.out > 0 {
            return Err(Out {
                out: keeper.out,
                keeper,
            });
        }
        let Keeper {
            admitted: _,
            out: _,
            reached: _,
            mut seat,
        } = keeper;
        let shared = &self.table.shared;
        shared.compare_exchange::<TakeTurn<O>>(&mut seat, TURN, TURN_FREE, TURN_HELD);
        Ok(shared.exchange(&mut seat, OBJECT, None).unwrap())
    }
}
