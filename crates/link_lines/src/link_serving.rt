//! A whole connection over a link, from the client's coming to its leaving.

ghost use Rattle.std.specs.Prelude.{◌≡◌, OnOk, IfOk, IfErr, None};
ghost use Rattle.client_links.specs.Wires.{TellsNoMore};
ghost use Rattle.session_events.specs.Seats.{IsSameSeat, IsLegalSeat};
ghost use Rattle.session_lines.specs.Serving.{service, HasOnlyCome};
ghost use Rattle.session_lines.specs.Stops.{IsReady};
ghost use Rattle.link_lines.specs.Drawings.{DrawsOnlyMissed};
ghost use Rattle.link_lines.specs.Endings.{WasServedOver, EndsFor, HasLeftAt, IsUnbroken, JoinsNot, NeverCame};

use crate::ended::{Ended, ended_of};
use crate::link_playing::play_link;
use crate::talk::Talk;
use client_links::Link;
use key_names::Key;
use line_gates::Gate;
use requests::Reader;
use session_events::{Event, LiveSeat, Seat, StepFault};
use session_lines::{Stop, leave};
use std::alloc::Global;
use std::sync::Wait;

// Has the client come, of which there is no entry yet, and tells whether it was let go by that. An `Err` tells how the serving
// ends where it can't come.
fn come<S: Seat>(alloc: Global, seat: &mut S) -> Result<bool, Ended>
    requires { NeverCame S.gives (S.seated seat.old).number (S.seated seat.old).seen }
    ensures same { IsSameSeat (S.seated seat.old) (S.seated seat.new) }
    ensures kept { S.kept seat.new ≡ S.kept seat.old }
    ensures legal { IsLegalSeat (S.seated seat.new) }
    ensures ready { OnOk result (IsReady (S.seated seat.new)) }
    ensures new { IfOk result (λ let_go. HasOnlyCome S.gives (S.seated seat.new) let_go) }
    ensures unbroken { OnOk result ((S.seated seat.new).mark ≡ None) }
    ensures refused { IfErr result (λ ended. JoinsNot S.gives S.crowded ended (S.seated seat.new)) }
    ensures whole { IfErr result (λ ended. IsUnbroken ended (S.seated seat.new)) }
{
    match seat.step(alloc, &Event::Join) {
        Ok(output) => Ok(output.leaving),
        Err(StepFault::Full) => Err(Ended::Full),
        Err(StepFault::HistoryFull) => Err(Ended::HistoryFull),
        Err(StepFault::Broken(at)) => Err(Ended::Broken(at)),
        Err(StepFault::NoMemory) => Err(Ended::NoMemory),
        Err(StepFault::NoClient(_)) => unreachable!(),
        Err(StepFault::Joined(_)) => unreachable!(),
    }
}

/// Serves a connection over a link, whose client has no entry in the history yet: it comes, keys are struck before its first
/// drawing, its lines are played as they come, each when the gate lets it run, and where none comes it is drawn what it has
/// missed. It leaves before every end at which it came, where sending failed too, unless the session is broken. Where leaving
/// fails, that is told, whatever came before.
pub fn serve_over<Q: Reader, R: Wait, S: LiveSeat, L: Link, G: Gate>(
    rt: &R,
    alloc: Global,
    who: u32,
    seat: &mut S,
    keys: &[Key],
    link: &mut L,
    gate: &mut G,
) -> Ended
    requires number { (S.seated seat.old).number ≡ who }
    requires new { NeverCame S.gives (S.seated seat.old).number (S.seated seat.old).seen }
    ensures same { IsSameSeat (S.seated seat.old) (S.seated seat.new) }
    ensures kept { S.kept seat.new ≡ S.kept seat.old }
    ensures legal { IsLegalSeat (S.seated seat.new) }
    ensures unbroken { IsUnbroken result (S.seated seat.new) }
    ensures served { WasServedOver (service S.gives Q.reads keys.now) who (S.seated seat.new).seen (L.wire link.old) (L.wire link.new) result }
    ensures left { HasLeftAt S.gives S.parting result who (S.seated seat.new).seen }
    ensures drawn { DrawsOnlyMissed who (S.seated seat.new).seen }
    ensures cause { EndsFor S.gives S.crowded S.parting result (S.seated seat.new) (L.wire link.old) (L.wire link.new) }
    ensures no_more { TellsNoMore (L.wire link.old) (L.wire link.new) }
{
    let let_go = match come(alloc, seat) {
        Ok(let_go) => let_go,
        Err(ended) => return ended,
    };
    let mut talk = Talk::new(alloc, who, let_go);
    let played = play_link::<Q, R, S, L, G>(rt, seat, link, gate, &mut talk, keys);
    match leave(alloc, seat) {
        Ok(()) => ended_of(played),
        Err(Stop::Broken(at)) => Ended::Broken(at),
        Err(Stop::HistoryFull) => unreachable!(),
        Err(Stop::NoMemory) => Ended::NoMemory,
        Err(Stop::WriteFault) => unreachable!(),
    }
}
