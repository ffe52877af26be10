//! Single turns, by any seat.
ghost use Rattle.std.specs.Prelude.{◌≡◌, length, true, false, [], ◌∷◌};
ghost use Rattle.session_desk.specs.declared.rule.Role.TheVariants.{Plays};
ghost use Rattle.session_desk.specs.Rule.{IsSeatReady, Found, IsInHand, MayBecome, seeing, length_word, is_live};

use crate::played::Played;
use crate::plays::{Free, Publish, TakeTurn};
use crate::rule::{LENGTH, OBJECT, SharedTable, TURN, TURN_FREE, TURN_HELD, TableSeat};
use std::sync::Wait;

/// Waits for the turn, and takes it with the object.
pub(crate) fn take_turn<O: Played, R: Wait>(
    rt: &R,
    shared: &SharedTable<O>,
    seat: &mut TableSeat<O>,
) -> O
    requires table { (seat.old.table_id ≡ shared.now.table_id) × (shared.now.table_id.words ≡ 2) × (shared.now.table_id.slots ≡ 1) }
    requires live { is_live seat.old.me.0.role ≡ true }
    requires ready { IsSeatReady seat.old.me.0.role seat.old.me }
    ensures seat { seat.new.table_id ≡ seat.old.table_id }
    ensures taken { seat.new.me ≡ (seeing true (O.entries result) (O.marked result) seat.old.me.0, (0, None) ∷ []) }
    ensures found { Found O.entries O.maker O.marked O.frame seat.old.me.0 result }
{
    for _ in rt.forever() {
        if shared.compare_exchange::<TakeTurn<O>>(seat, TURN, TURN_FREE, TURN_HELD) == TURN_FREE {
            return shared.exchange(seat, OBJECT, None).unwrap();
        }
        shared.park(rt, TURN, TURN_HELD as u32);
    }
    unreachable!()
}

/// Gives the object back as it was found, and lets go of the turn.
pub(crate) fn give_turn<O: Played>(shared: &SharedTable<O>, seat: &mut TableSeat<O>, object: O)
    requires table { (seat.old.table_id ≡ shared.now.table_id) × (shared.now.table_id.words ≡ 2) × (shared.now.table_id.slots ≡ 1) }
    requires empty { seat.old.me.1 ≡ (0, None) ∷ [] }
    requires hand { IsInHand O.entries O.marked O.frame seat.old.me.0 object }
    ensures seat { seat.new.table_id ≡ seat.old.table_id }
    ensures freed { seat.new.me ≡ (seeing false seat.old.me.0.seen seat.old.me.0.mark seat.old.me.0, []) }
{
    shared.exchange(seat, OBJECT, Some(object));
    shared.store::<Free<O>>(seat, TURN, TURN_FREE);
    shared.wake_one(TURN);
}

/// Word 1 of the table for this object.
fn word_of<O: Played>(object: &O) -> u64
    ensures { result ≡ length_word (length (O.entries object.now)) (O.marked object.now) }
{
    match object.mark() {
        None => 2 * object.count(),
        Some(_) => 2 * object.count() + 1,
    }
}

/// Gives the object back with what the pass `number` made of it, and lets go of the turn.
pub(crate) fn publish<O: Played>(
    shared: &SharedTable<O>,
    seat: &mut TableSeat<O>,
    number: u32,
    object: O,
)
    requires table { (seat.old.table_id ≡ shared.now.table_id) × (shared.now.table_id.words ≡ 2) × (shared.now.table_id.slots ≡ 1) }
    requires empty { seat.old.me.1 ≡ (0, None) ∷ [] }
    requires pass { (seat.old.me.0.role ≡ Plays number) × (seat.old.me.0.holds ≡ true) × (seat.old.me.0.frame ≡ Some (O.frame object)) }
    requires played { MayBecome O.maker number seat.old.me.0.seen seat.old.me.0.mark (O.entries object) (O.marked object) }
    ensures seat { seat.new.table_id ≡ seat.old.table_id }
    ensures freed { seat.new.me ≡ (seeing false (O.entries object) (O.marked object) seat.old.me.0, []) }
{
    let word = word_of(&object);
    shared.exchange(seat, OBJECT, Some(object));
    shared.store::<Publish<O>>(seat, LENGTH, word);
    shared.store::<Free<O>>(seat, TURN, TURN_FREE);
    shared.wake_one(TURN);
}
