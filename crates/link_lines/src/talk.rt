//! What is kept of a connection from one line to the next.

ghost use Rattle.std.specs.Prelude.{◌≡◌, [], OnOk, OnErr};
ghost use Rattle.client_links.specs.Wires.{IsSameHearing, TellsNoMore};
ghost use Rattle.session_lines.specs.Serving.{HasOnlyCome, PlaysLine, OpensWith};
ghost use Rattle.session_lines.specs.Stops.{IsReady, Stays, Causes, StaysWhole};
ghost use Rattle.line_reading.specs.Hearing.{HearsLine, ReadFaultIsTold};
ghost use Rattle.link_lines.specs.Talks.{one_line_more};
ghost use Rattle.link_lines.specs.Talking.{DrawsWhatIsMissed};

use crate::telling::tell;
use client_links::Link;
use key_names::Key;
use line_gates::Gate;
use line_reading::{Came, LineReader};
use requests::Reader;
use session_events::{LiveSeat, Missed};
use session_lines::{Stop, answer_idle, answer_line, answer_opening};
use std::alloc::{AllocError, Global};
use std::marker::Model;
use std::sync::Wait;

/// What is kept of a connection from one of its lines to the next. Contracts see what its reader is seen as, its client's
/// number, whether this was let go by its coming, and how many lines were played.
#[derive(Drop)]
pub struct Talk {
    alloc: Global,
    // the client's number
    who: u32,
    // whether it was let go by its coming
    let_go: bool,
    reader: LineReader,
    // how many lines were played
    lines: u64,
    // what is being sent
    out: Vec<u8>,
}

impl Model for Talk {
    ghost use Rattle.link_lines.specs.Talks.{Talked};

    ghost Value = { Talked };

    ghost view = { λ t. record { reading = t.reader; who = t.who; let_go = t.let_go; lines = t.lines } };
}

impl Talk {
    /// That of a client whose link has said nothing yet, which was let go by its coming or not.
    pub fn new(alloc: Global, who: u32, let_go: bool) -> Talk
        ensures taken { result.reading.taken ≡ 0 }
        ensures pending { result.reading.pending ≡ [] }
        ensures who { result.who ≡ who }
        ensures let_go { result.let_go ≡ let_go }
        ensures lines { result.lines ≡ 0 }
    {
        Talk {
            alloc,
            who,
            let_go,
            reader: LineReader::new(alloc),
            lines: 0,
            out: Vec::new(alloc),
        }
    }

    /// Hears the next line. Where memory is wanting, nothing that was received is lost.
    pub fn hear<R: Wait, L: Link>(&mut self, rt: &R, link: &mut L) -> Result<Came, AllocError>
        ensures hears { HearsLine result self.old.reading self.new.reading (L.wire link.old) (L.wire link.new) }
        ensures fault { ReadFaultIsTold result (L.wire link.old) (L.wire link.new) }
        ensures sent { (L.wire link.new).outlet ≡ (L.wire link.old).outlet }
        ensures no_more { TellsNoMore (L.wire link.old) (L.wire link.new) }
        ensures who { self.new.who ≡ self.old.who }
        ensures let_go { self.new.let_go ≡ self.old.let_go }
        ensures lines { self.new.lines ≡ self.old.lines }
    {
        self.reader.hear(rt, link)
    }

    /// Opens the connection of a client that has joined and done nothing else: keys are struck, and its first drawing is
    /// sent, also where it was let go by its coming. Tells whether the client may leave.
    pub fn open<R: Wait, S: LiveSeat, L: Link>(
        &mut self,
        rt: &R,
        seat: &mut S,
        link: &mut L,
        keys: &[Key],
    ) -> Result<bool, Stop>
        requires ready { IsReady (S.seated seat.old) }
        requires new { HasOnlyCome S.gives (S.seated seat.old) self.old.let_go }
        ensures stays { Stays (S.seated seat.old) (S.seated seat.new) }
        ensures kept { S.kept seat.new ≡ S.kept seat.old }
        ensures whole { StaysWhole result (S.seated seat.old).mark (S.seated seat.new).mark }
        ensures serves { OpensWith S.gives keys.now (S.seated seat.old) (S.seated seat.new) (L.wire link.old).outlet (L.wire link.new).outlet result }
        ensures cause { Causes result (S.seated seat.new) (L.wire link.old).outlet (L.wire link.new).outlet }
        ensures heard { IsSameHearing (L.wire link.old) (L.wire link.new) }
        ensures no_more { TellsNoMore (L.wire link.old) (L.wire link.new) }
        ensures same { self.new ≡ self.old }
    {
        let reply = answer_opening(self.alloc, seat, keys, self.let_go)?;
        tell(rt, link, &mut self.out, &reply.telling)?;
        Ok(reply.leaving)
    }

    /// Plays the line that came last, as the reader reads it, once the gate lets it run, and sends what it gives; then the
    /// gate is told. Tells whether the client may leave.
    pub fn play_line<Q: Reader, R: Wait, S: LiveSeat, L: Link, G: Gate>(
        &mut self,
        rt: &R,
        seat: &mut S,
        link: &mut L,
        gate: &mut G,
    ) -> Result<bool, Stop>
        requires { IsReady (S.seated seat.old) }
        ensures stays { Stays (S.seated seat.old) (S.seated seat.new) }
        ensures kept { S.kept seat.new ≡ S.kept seat.old }
        ensures whole { StaysWhole result (S.seated seat.old).mark (S.seated seat.new).mark }
        ensures serves { PlaysLine S.gives Q.reads (S.seated seat.old) (S.seated seat.new) (L.wire link.old).outlet (L.wire link.new).outlet self.old.reading.line result }
        ensures cause { Causes result (S.seated seat.new) (L.wire link.old).outlet (L.wire link.new).outlet }
        ensures heard { IsSameHearing (L.wire link.old) (L.wire link.new) }
        ensures no_more { TellsNoMore (L.wire link.old) (L.wire link.new) }
        ensures reading { self.new.reading ≡ self.old.reading }
        ensures who { self.new.who ≡ self.old.who }
        ensures let_go { self.new.let_go ≡ self.old.let_go }
        ensures lines { OnOk result (self.new.lines ≡ one_line_more self.old.lines) }
        ensures stopped { OnErr result (self.new.lines ≡ self.old.lines) }
    {
        let number = self.lines;
        gate.hold(rt, self.who, number);
        let reply = answer_line::<Q, S>(self.alloc, seat, self.reader.line())?;
        tell(rt, link, &mut self.out, &reply.telling)?;
        gate.passed(self.who, number);
        self.lines = number.saturating_add(1);
        Ok(reply.leaving)
    }

    /// Looks at the session, and draws the client where it has missed something.
    pub fn draw_missed<R: Wait, S: LiveSeat, L: Link>(
        &mut self,
        rt: &R,
        seat: &mut S,
        link: &mut L,
    ) -> Result<(), Stop>
        requires { IsReady (S.seated seat.old) }
        ensures stays { Stays (S.seated seat.old) (S.seated seat.new) }
        ensures kept { S.kept seat.new ≡ S.kept seat.old }
        ensures whole { StaysWhole result (S.seated seat.old).mark (S.seated seat.new).mark }
        ensures draws { DrawsWhatIsMissed S.gives (S.seated seat.old) (S.seated seat.new) (L.wire link.old).outlet (L.wire link.new).outlet result }
        ensures cause { Causes result (S.seated seat.new) (L.wire link.old).outlet (L.wire link.new).outlet }
        ensures heard { IsSameHearing (L.wire link.old) (L.wire link.new) }
        ensures no_more { TellsNoMore (L.wire link.old) (L.wire link.new) }
        ensures same { self.new ≡ self.old }
    {
        match seat.look() {
            Missed::Something => {
                let reply = answer_idle(self.alloc, seat)?;
                tell(rt, link, &mut self.out, &reply.telling)
            }
            Missed::Nothing => Ok(()),
            Missed::Broken(at) => Err(Stop::Broken(at)),
        }
    }
}
