//! Single links: to a session that breaks, to one at which another client types, and over a gate that keeps what it is asked.

ghost use Rattle.std.specs.Prelude.{if◌then◌else◌, Some, None, [], ◌∷◌, false};
ghost use Rattle.client_links.specs.Memory.{memory_wire};
ghost use Rattle.session_events.specs.declared.event.Event.TheVariants.{Join};
ghost use Rattle.session_events.specs.Entries.{entry_of};
ghost use Rattle.session_events.specs.Meaning.{no_output};

use crate::outside::PatternsAlone;
use client_links::{Heard, Link, MemLink};
use engine_desk::{DeskSeat, SharedEngine};
use json_ui::JsonReader;
use kak_ports::{FailingCalls, Put};
use key_names::{Base, Key};
use line_gates::{Gate, OpenGate};
use link_lines::{Ended, serve_over};
use session_desk::Desk;
use session_events::{Event, LiveSeat, Missed, Output, Seat, StepFault, is_join};
use session_server::serve_link;
use std::alloc::Global;
use std::sync::Wait;
use std::test::Fail;

// A drawing of the client, and one in which the letter stands in a face of its own.
const IS_DRAWN: &str = "\"method\":\"refresh\"";

const X_IS_DRAWN: &str = "{\"contents\":\"x\",\"face\"";

// Two lines, of which the second asks for nothing.
const TWO_LINES: &str = "{\"jsonrpc\":\"2.0\",\"method\":\"keys\",\"params\":[\"ix\"]}\n\n";

// A link whose client says one piece, or nothing for a while where it is empty.
fn link_of(alloc: Global, piece: &[u8]) -> Result<MemLink, Fail> {
    let none = FailingCalls::none(alloc);
    Ok(MemLink::new(alloc, &[piece], 10_000, none, FailingCalls::none(alloc))?)
}

// What was sent over a link.
fn sent_over(alloc: Global, link: MemLink) -> Result<String, Fail> {
    Ok(String::from_str(alloc, str::from_utf8(link.contents())?)?)
}

// A seat at a session that breaks once its client has come.
#[derive(Drop)]
struct FragileSeat {
    who: u32,
    came: bool,
    broken: bool,
}

impl Seat for FragileSeat {
    ghost gives = { λ _ _. no_output };

    ghost crowded = { λ _. false };

    ghost parting = { λ _. false };

    ghost seated = { λ s. record {
      number = s.who;
      limit = 10;
      mark = if s.broken then Some 1 else None;
      seen = if s.came then entry_of s.who Join ∷ [] else [];
      others = None;
    } };

    ghost Kept = { Unit {0} };

    ghost kept = { λ _. tt };

    fn step(&mut self, _alloc: Global, event: &Event) -> Result<Output, StepFault> {
        if self.came || self.broken {
            self.broken = true;
            return Err(StepFault::Broken(1));
        }
        if is_join(event) {
            self.came = true;
            return Ok(Output::nothing());
        }
        Err(StepFault::NoClient(self.who))
    }
}

impl LiveSeat for FragileSeat {
    fn look(&mut self) -> Missed {
        if self.broken {
            return Missed::Broken(1);
        }
        if self.came {
            return Missed::Something;
        }
        Missed::Nothing
    }
}

// Serves a link to a session that breaks once its client has come: how that ended, whether it came, and what it was sent.
fn serve_fragile<R: Wait>(rt: &R, alloc: Global) -> Result<(Ended, bool, String), Fail> {
    let mut link = link_of(alloc, b"\n")?;
    let mut seat = FragileSeat {
        who: 0,
        came: false,
        broken: false,
    };
    let ended = serve_over::<JsonReader, _, _, _, _>(
        rt,
        alloc,
        0,
        &mut seat,
        &[],
        &mut link,
        &mut OpenGate,
    );
    Ok((ended, seat.came, sent_over(alloc, link.finish())?))
}

#[test]
fn a_link_to_a_session_that_breaks_is_told_so(rt: HostRuntime) -> Result<(), Fail> {
    let (ended, came, sent) = serve_fragile(&rt, rt.alloc())?;
    assert_eq!(rt; ended, Ended::Broken(1));
    assert!(rt; came);
    assert_eq!(rt; sent.as_str(), "");
    Ok(())
}

// A letter that is struck.
fn letter(c: char) -> Event {
    Event::Key(Key {
        control: false,
        alt: false,
        shift: false,
        base: Base::Char(c),
    })
}

// A link of one client, while another one types whenever it is asked what came.
#[derive(Drop)]
struct OvertypedLink<S: Seat + Drop> {
    alloc: Global,
    other: S,
    link: MemLink,
}

impl<S: Seat + Drop> Link for OvertypedLink<S> {
    type Spent = MemLink;

    ghost wire = { λ l. memory_wire l.link };

    ghost spent = { memory_wire };

    fn recv<R: Wait>(&mut self, rt: &R, into: &mut [u8]) -> Heard {
        let _insert = self.other.step(self.alloc, &letter('i'));
        let _typed = self.other.step(self.alloc, &letter('x'));
        self.link.recv(rt, into)
    }

    fn send<R: Wait>(&mut self, rt: &R, bytes: &[u8]) -> Put {
        self.link.send(rt, bytes)
    }

    fn finish(self) -> MemLink {
        let OvertypedLink {
            alloc: _,
            other: _,
            link,
        } = self;
        link
    }
}

// Has a client come at a seat.
fn join<S: Seat>(alloc: Global, seat: &mut S) -> Result<(), Fail> {
    match seat.step(alloc, &Event::Join) {
        Ok(_) => Ok(()),
        Err(_) => Err("the other one comes".into()),
    }
}

// Serves a link from which nothing comes for a while, and then its end, while another client types: how that ended, and what
// was sent.
fn serve_overtyped<R: Wait>(rt: &R, alloc: Global) -> Result<(Ended, String), Fail> {
    let Ok(engine) = SharedEngine::new(alloc, PatternsAlone::new(), 100) else {
        return Err("there is memory for an engine".into());
    };
    let (desk, mut keeper) = Desk::new(alloc, engine)?;
    let pass = desk.admit(&mut keeper);
    let mut other = DeskSeat::new(rt, &desk, desk.admit(&mut keeper));
    join(alloc, &mut other)?;
    let link = link_of(alloc, b"")?;
    let mut link = OvertypedLink { alloc, other, link };
    let (ended, _pass) = serve_link(rt, alloc, &desk, pass, None, &mut link, &mut OpenGate);
    Ok((ended, sent_over(alloc, link.finish())?))
}

// Where a text stands in another one, and another one stands first.
fn places(text: &str, one: &str, other: &str) -> (Option<usize>, Option<usize>) {
    (text.find(one), text.find(other))
}

#[test]
fn an_idle_client_is_drawn_what_another_one_typed(rt: HostRuntime) -> Result<(), Fail> {
    let (ended, sent) = serve_overtyped(&rt, rt.alloc())?;
    assert_eq!(rt; ended, Ended::Closed);
    let (Some(drawn), Some(typed)) = places(sent.as_str(), IS_DRAWN, X_IS_DRAWN) else {
        return Err("the client was drawn when it came, and what the other one typed".into());
    };
    assert!(rt; drawn < typed);
    Ok(())
}

// What a gate is asked and told: whose line, and its number.
#[derive(Clone, Copy, PartialEq, Eq, Debug)]
enum Asked {
    Hold(u32, u64),
    Passed(u32, u64),
}

// A gate that lets all lines run, and keeps what it was asked and told.
#[derive(Drop)]
struct LoggedGate {
    log: Vec<Asked>,
}

impl Gate for LoggedGate {
    fn hold<R: Wait>(&mut self, _rt: &R, who: u32, line: u64) {
        let _ = self.log.push(Asked::Hold(who, line));
    }

    fn passed(&mut self, who: u32, line: u64) {
        let _ = self.log.push(Asked::Passed(who, line));
    }
}

// Serves a link whose client says two lines: what the gate was asked and told.
fn serve_logged<R: Wait>(rt: &R, alloc: Global) -> Result<Vec<Asked>, Fail> {
    let Ok(engine) = SharedEngine::new(alloc, PatternsAlone::new(), 100) else {
        return Err("there is memory for an engine".into());
    };
    let (desk, mut keeper) = Desk::new(alloc, engine)?;
    let pass = desk.admit(&mut keeper);
    let mut link = link_of(alloc, TWO_LINES.as_bytes())?;
    let mut gate = LoggedGate {
        log: Vec::new(alloc),
    };
    let (_ended, _pass) = serve_link(rt, alloc, &desk, pass, None, &mut link, &mut gate);
    let LoggedGate { log } = gate;
    Ok(log)
}

#[test]
fn a_gate_is_asked_before_each_line_and_told_behind_it(rt: HostRuntime) -> Result<(), Fail> {
    let log = serve_logged(&rt, rt.alloc())?;
    let wanted = [
        Asked::Hold(0, 0),
        Asked::Passed(0, 0),
        Asked::Hold(0, 1),
        Asked::Passed(0, 1),
    ];
    assert_eq!(rt; log.as_slice(), wanted.as_slice());
    Ok(())
}
