//! A link, heard to its end and played line by line.

ghost use Rattle.std.specs.Prelude.{◌≡◌, [], List};
ghost use Rattle.key_names.specs.declared.key.Key.{Key};
ghost use Rattle.client_links.specs.Wires.{TellsNoMore};
ghost use Rattle.line_reading.specs.Hearing.{inlet_of};
ghost use Rattle.session_lines.specs.Reading.{FaultIs};
ghost use Rattle.session_lines.specs.Serving.{service, HasOnlyCome};
ghost use Rattle.session_lines.specs.Stops.{IsReady, Stays, Causes, StaysWhole};
ghost use Rattle.link_lines.specs.Talking.{PlaysOver, PlaysFromOpening};
ghost use Rattle.link_lines.specs.Drawings.{DrawsOnlyMissed, DrawsOnlyMissedStill};

use crate::talk::Talk;
use client_links::Link;
use key_names::Key;
use line_gates::Gate;
use line_reading::Came;
use requests::Reader;
use session_events::LiveSeat;
use session_lines::{InputEnd, Stop};
use std::sync::Wait;

/// Plays the lines of a link one after another as they come, a last part without a newline too where the other side has
/// ended. Where none has come, the client is drawn what it has missed. The next line is heard where the client stays and
/// nothing stopped.
pub fn play_turns<Q: Reader, R: Wait, S: LiveSeat, L: Link, G: Gate>(
    rt: &R,
    seat: &mut S,
    link: &mut L,
    gate: &mut G,
    talk: &mut Talk,
) -> Result<InputEnd, Stop>
    requires ready { IsReady (S.seated seat.old) }
    requires taken { talk.old.reading.taken ≡ 0 }
    requires pending { talk.old.reading.pending ≡ [] }
    ensures stays { Stays (S.seated seat.old) (S.seated seat.new) }
    ensures kept { S.kept seat.new ≡ S.kept seat.old }
    ensures whole { StaysWhole result (S.seated seat.old).mark (S.seated seat.new).mark }
    ensures plays { (opens : List Key) → PlaysOver [] (service S.gives Q.reads opens) (S.seated seat.old) (S.seated seat.new) (L.wire link.old) (L.wire link.new) result }
    ensures fault { FaultIs result (inlet_of (L.wire link.old)) (inlet_of (L.wire link.new)) }
    ensures cause { Causes result (S.seated seat.new) (L.wire link.old).outlet (L.wire link.new).outlet }
    ensures no_more { TellsNoMore (L.wire link.old) (L.wire link.new) }
    ensures drawn { DrawsOnlyMissedStill (S.seated seat.old) (S.seated seat.new) }
{
    for _ in rt.forever() {
        match talk.hear(rt, link)? {
            Came::Line => {
                if talk.play_line::<Q, R, S, L, G>(rt, seat, link, gate)? {
                    return Ok(InputEnd::Left);
                }
            }
            Came::Last => {
                let leaving = talk.play_line::<Q, R, S, L, G>(rt, seat, link, gate)?;
                if leaving {
                    return Ok(InputEnd::Left);
                }
                return Ok(InputEnd::Ended);
            }
            Came::Ended => return Ok(InputEnd::Ended),
            Came::Idle => talk.draw_missed(rt, seat, link)?,
            Came::ReadFault => return Ok(InputEnd::ReadFault),
            Came::Full => return Ok(InputEnd::Full),
        }
    }
    unreachable!()
}

/// Plays a connection whose client has joined and done nothing else: keys are struck, it is drawn, and its link is heard and
/// played line by line. Where it was let go by its coming, or is by the keys, nothing is heard. It doesn't leave yet.
pub fn play_link<Q: Reader, R: Wait, S: LiveSeat, L: Link, G: Gate>(
    rt: &R,
    seat: &mut S,
    link: &mut L,
    gate: &mut G,
    talk: &mut Talk,
    keys: &[Key],
) -> Result<InputEnd, Stop>
    requires ready { IsReady (S.seated seat.old) }
    requires new { HasOnlyCome S.gives (S.seated seat.old) talk.old.let_go }
    requires taken { talk.old.reading.taken ≡ 0 }
    requires pending { talk.old.reading.pending ≡ [] }
    ensures stays { Stays (S.seated seat.old) (S.seated seat.new) }
    ensures kept { S.kept seat.new ≡ S.kept seat.old }
    ensures whole { StaysWhole result (S.seated seat.old).mark (S.seated seat.new).mark }
    ensures plays { PlaysFromOpening (service S.gives Q.reads keys.now) (S.seated seat.old) (S.seated seat.new) (L.wire link.old) (L.wire link.new) result }
    ensures fault { FaultIs result (inlet_of (L.wire link.old)) (inlet_of (L.wire link.new)) }
    ensures cause { Causes result (S.seated seat.new) (L.wire link.old).outlet (L.wire link.new).outlet }
    ensures no_more { TellsNoMore (L.wire link.old) (L.wire link.new) }
    ensures drawn { DrawsOnlyMissed (S.seated seat.old).number (S.seated seat.new).seen }
{
    if talk.open(rt, seat, link, keys)? {
        return Ok(InputEnd::Left);
    }
    play_turns::<Q, R, S, L, G>(rt, seat, link, gate, talk)
}
