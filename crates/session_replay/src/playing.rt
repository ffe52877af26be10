//! One client of a replay: it comes, its connection is opened, its lines are played, and it goes.

ghost use Rattle.std.specs.Prelude.{◌≡◌, ◌⊎◌, ℕ, Bool, List, ◌∷◌, [], OnOk, OnErr, IfErr, IfOk, Err};
ghost use Rattle.std.specs.declared.option.Option.{Option};
ghost use Rattle.ui_board.specs.Boards.{box_at, IsTaken, report_at};
ghost use Rattle.session_turns.specs.Histories.{own};
ghost use Rattle.session_events.specs.declared.event.Entry.{Entry};
ghost use Rattle.session_events.specs.declared.event.Event.TheVariants.{Join};
ghost use Rattle.session_events.specs.declared.event.Output.{Output};
ghost use Rattle.session_events.specs.Meaning.{rules};
ghost use Rattle.session_events.specs.Seats.{Seated, IsLegalSeat, IsIn, StaysUnbroken, Refuses, turned_to};
ghost use Rattle.session_lines.specs.declared.playing.Stop.TheVariants.{NoMemory};
ghost use Rattle.session_lines.specs.Serving.{HasOnlyCome, how_of};
ghost use Rattle.session_lines.specs.Stops.{Stops, StopsFor, StaysWholeFor, IsLoss};
ghost use Rattle.session_replay.specs.Settings.{setting};
ghost use Rattle.session_replay.specs.Boxes.{told_to, TellsOnly};
ghost use Rattle.session_replay.specs.Clients.{GotTo, GrowsBy, LeavesAlone, LeavesOrStays, GetsOn};
ghost use Rattle.session_replay.specs.Staying.{IsSessionStill};

use crate::telling::tell_box;
use requests::Reader;
use session_events::{Event, Seats, StepFault};
use session_lines::{Stop, answer_line, leave, play_keys};
use std::alloc::Global;
use ui_board::{Board, Ui};

// Why a coming is refused. A client comes once, and there are no more clients than may be here.
fn stop_of(fault: StepFault) -> Stop
    ensures stops { (crowded parting : List Entry → Bool) → (seat : Seated) → Refuses crowded parting fault seat Join → StopsFor result seat }
    ensures whole { (before : Option ℕ) → (seat : Seated) → StaysUnbroken {A = Output} (Err fault) seat → StaysWholeFor result before seat.mark }
{
    match fault {
        StepFault::HistoryFull => Stop::HistoryFull,
        StepFault::Broken(at) => Stop::Broken(at),
        StepFault::NoMemory => Stop::NoMemory,
        StepFault::NoClient(_) | StepFault::Joined(_) | StepFault::Full => Stop::NoMemory,
    }
}

/// Lets a client come that has no entry yet, and tells whether it was let go by that. Where its coming is refused, no entry was
/// added.
pub fn join<Q: Reader, S: Seats>(alloc: Global, seats: &mut S, who: u32) -> Result<bool, Stop>
    requires legal { IsLegalSeat (S.seated seats.old) }
    requires away { own (rules S.gives) who (S.seated seats.old).seen ≡ [] }
    ensures session { IsSessionStill S.seated S.kept result seats.old seats.new }
    ensures grows { GrowsBy (setting S.gives Q.reads) who (S.seated seats.old).seen (S.seated seats.new).seen }
    ensures came { IfOk result (λ leaving. HasOnlyCome S.gives (turned_to who (S.seated seats.new)) leaving) }
    ensures here { OnOk result (IsIn (turned_to who (S.seated seats.new))) }
    ensures refused { OnErr result ((S.seated seats.new).seen ≡ (S.seated seats.old).seen) }
    ensures stops { Stops result (S.seated seats.new) }
{
    seats.turn_to(who);
    match seats.step(alloc, &Event::Join) {
        Ok(output) => Ok(output.leaving),
        Err(fault) => Err(stop_of(fault)),
    }
}

/// Opens the connection of a client that has just come, also where its coming let it go; what it is shown is told to its box.
/// Tells whether it may leave.
pub fn open_for<Q: Reader, S: Seats, U: Ui>(
    alloc: Global,
    seats: &mut S,
    board: &mut Board<U>,
    who: u32,
    leaving: bool,
) -> Result<bool, Stop>
    requires legal { IsLegalSeat (S.seated seats.old) }
    requires here { IsIn (turned_to who (S.seated seats.old)) }
    requires new { HasOnlyCome S.gives (turned_to who (S.seated seats.old)) leaving }
    requires taken { IsTaken who board.old.seats.items }
    requires untold { told_to U.shown who board.old ≡ [] }
    ensures session { IsSessionStill S.seated S.kept result seats.old seats.new }
    ensures grows { GrowsBy (setting S.gives Q.reads) who (S.seated seats.old).seen (S.seated seats.new).seen }
    ensures got { GotTo (setting S.gives Q.reads) (how_of result) who (S.seated seats.new).seen [] (told_to U.shown who board.new) }
    ensures here { IsIn (turned_to who (S.seated seats.new)) }
    ensures stops { Stops result (S.seated seats.new) }
    ensures only { TellsOnly U.shown who board.old board.new }
{
    seats.turn_to(who);
    let reply = play_keys(alloc, seats, &[])?;
    tell_box(alloc, board, who, &reply.telling)?;
    Ok(leaving | reply.leaving)
}

/// Plays a line of a client that is here; what it is shown or refused is told to its box. Tells whether it may leave.
pub fn play<Q: Reader, S: Seats, U: Ui>(
    alloc: Global,
    seats: &mut S,
    board: &mut Board<U>,
    who: u32,
    line: &[u8],
) -> Result<bool, Stop>
    requires legal { IsLegalSeat (S.seated seats.old) }
    requires here { IsIn (turned_to who (S.seated seats.old)) }
    requires taken { IsTaken who board.old.seats.items }
    ensures session { IsSessionStill S.seated S.kept result seats.old seats.new }
    ensures grows { GrowsBy (setting S.gives Q.reads) who (S.seated seats.old).seen (S.seated seats.new).seen }
    ensures got { GetsOn (setting S.gives Q.reads) U.shown (how_of result) who line.now (S.seated seats.old).seen (S.seated seats.new).seen board.old board.new }
    ensures here { IsIn (turned_to who (S.seated seats.new)) }
    ensures stops { Stops result (S.seated seats.new) }
    ensures only { TellsOnly U.shown who board.old board.new }
{
    seats.turn_to(who);
    let reply = answer_line::<Q, S>(alloc, seats, line)?;
    tell_box(alloc, board, who, &reply.telling)?;
    Ok(reply.leaving)
}

/// Lets a client go that is here, and gives the report of its box, which stays at its seat. After want of memory it may have
/// gone; where the session is broken it hasn't.
pub fn let_go<Q: Reader, S: Seats, U: Ui>(
    alloc: Global,
    seats: &mut S,
    board: &Board<U>,
    who: u32,
) -> Result<Vec<u8>, Stop>
    requires legal { IsLegalSeat (S.seated seats.old) }
    requires here { IsIn (turned_to who (S.seated seats.old)) }
    requires taken { IsTaken who board.now.seats.items }
    ensures session { IsSessionStill S.seated S.kept result seats.old seats.new }
    ensures grows { GrowsBy (setting S.gives Q.reads) who (S.seated seats.old).seen (S.seated seats.new).seen }
    ensures leaves { OnOk result (LeavesAlone who (S.seated seats.old).seen (S.seated seats.new).seen) }
    ensures still { IfErr result (LeavesOrStays S.parting (setting S.gives Q.reads) who (S.seated seats.old).seen (S.seated seats.new)) }
    ensures stops { IfErr result (λ why. (why ≡ NoMemory) ⊎ IsLoss S.parting why (S.seated seats.new)) }
    ensures reports { IfOk result (λ report. report.items ≡ report_at (box_at U.shown who board.now)) }
{
    seats.turn_to(who);
    leave(alloc, seats)?;
    let report = board.report(alloc, who)?;
    Ok(report)
}
