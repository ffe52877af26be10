//! Two clients at one desk, played by rows: that memory is found and calls succeed is what no clause can say.

ghost use Rattle.std.specs.Prelude.{◌≡◌, [], None, IfOk};

use Act::{Draw, Insert, Join, Leave, Look};
use Told::{Refused, Saw, Taken};
use engine_desk::{DeskSeat, SharedEngine};
use kak_engine::NoOutside;
use key_names::{Base, Key};
use session_desk::{Desk, Played};
use session_events::{Event, LiveSeat, Missed, Seat};
use std::alloc::Global;
use std::sync::Wait;
use std::test::Fail;

// What a client does in a row.
#[derive(Clone, Copy)]
enum Act {
    Join,
    // It strikes the letter that begins an insertion.
    Insert,
    // It is drawn; whether it asked to be.
    Draw(bool),
    Leave,
    // It looks at the session.
    Look,
}

// What a row told.
#[derive(Clone, Copy, PartialEq, Eq, Debug)]
enum Told {
    Taken,
    Refused,
    Saw(Missed),
}

// A row: its name, whether the second client does it, what it does, and what it is to be told.
type Row = (&'static str, bool, Act, Told);

// What is left of a desk: the first row that told something else, how many were here then and had come, and how many entries
// stand and how many are here by the engine once the desk is closed.
#[derive(Clone, Copy, PartialEq, Eq, Debug)]
struct Left {
    wrong: Option<(&'static str, Told)>,
    joined: u32,
    joins: u64,
    entries: u64,
    stayed: u32,
}

// An engine that may have so many entries.
fn engine_of(alloc: Global, limit: u64) -> Result<SharedEngine<NoOutside>, Fail>
    ensures { IfOk result (λ e. (e.engine.history ≡ []) × (e.engine.mark ≡ None)) }
{
    match SharedEngine::new(alloc, NoOutside::new(), limit) {
        Ok(engine) => Ok(engine),
        Err(_) => Err("there is memory for an engine".into()),
    }
}

// The event of what a client does, if it is one.
fn event_of(act: Act) -> Option<Event> {
    match act {
        Act::Join => Some(Event::Join),
        Act::Insert => Some(Event::Key(Key {
            control: false,
            alt: false,
            shift: false,
            base: Base::Char('i'),
        })),
        Act::Draw(asked) => Some(Event::Refresh(asked)),
        Act::Leave => Some(Event::Leave),
        Act::Look => None,
    }
}

// What a client is told at what it does.
fn told_at<S: LiveSeat>(alloc: Global, seat: &mut S, act: Act) -> Told
    ensures { S.kept seat.new ≡ S.kept seat.old }
{
    let Some(event) = event_of(act) else {
        return Told::Saw(seat.look());
    };
    match seat.step(alloc, &event) {
        Ok(_) => Told::Taken,
        Err(_) => Told::Refused,
    }
}

// What one of two clients is told at what it does.
fn told_to<S: LiveSeat>(
    alloc: Global,
    first: &mut S,
    second: &mut S,
    is_second: bool,
    act: Act,
) -> Told
    ensures one { S.kept first.new ≡ S.kept first.old }
    ensures other { S.kept second.new ≡ S.kept second.old }
{
    if is_second {
        return told_at(alloc, second, act);
    }
    told_at(alloc, first, act)
}

// Plays rows, up to one that tells something else.
fn first_wrong<S: LiveSeat>(
    alloc: Global,
    first: &mut S,
    second: &mut S,
    rows: &[Row],
) -> Option<(&'static str, Told)>
    ensures one { S.kept first.new ≡ S.kept first.old }
    ensures other { S.kept second.new ≡ S.kept second.old }
{
    for row in rows {
        let (name, is_second, act, wanted) = *row;
        let told = told_to(alloc, first, second, is_second, act);
        if told != wanted {
            return Some((name, told));
        }
    }
    None
}

// Has two clients play rows at a new desk, whose history may have so many entries, and closes it.
fn play<R: Wait>(rt: &R, alloc: Global, limit: u64, rows: &[Row]) -> Result<Left, Fail> {
    let (desk, mut keeper) = Desk::new(alloc, engine_of(alloc, limit)?)?;
    let mut first = DeskSeat::new(rt, &desk, desk.admit(&mut keeper));
    let mut second = DeskSeat::new(rt, &desk, desk.admit(&mut keeper));
    let wrong = first_wrong(alloc, &mut first, &mut second, rows);
    let glimpse = desk.watch(rt, &mut keeper);
    desk.leave(&mut keeper, first.into_pass());
    desk.leave(&mut keeper, second.into_pass());
    let Ok(engine) = desk.close(keeper) else {
        return Err("each pass is back".into());
    };
    Ok(Left {
        wrong,
        joined: glimpse.joined,
        joins: glimpse.joins,
        entries: engine.count(),
        stayed: engine.glimpse(0).joined,
    })
}

static TOLD_AND_DRAWN: [Row; 8] = [
    ("the second one comes", true, Join, Taken),
    ("and asks to be drawn", true, Draw(true), Taken),
    ("it has missed nothing", true, Look, Saw(Missed::Nothing)),
    ("the first one comes", false, Join, Taken),
    ("and strikes a key", false, Insert, Taken),
    (
        "the second one has missed that",
        true,
        Look,
        Saw(Missed::Something),
    ),
    ("it is drawn unasked", true, Draw(false), Taken),
    (
        "and has missed nothing more",
        true,
        Look,
        Saw(Missed::Nothing),
    ),
];

#[test]
fn a_client_is_told_what_it_missed_until_it_is_drawn(rt: HostRuntime) -> Result<(), Fail> {
    let wanted = Left {
        wrong: None,
        joined: 2,
        joins: 2,
        entries: 5,
        stayed: 2,
    };
    assert_eq!(rt; play(&rt, rt.alloc(), 100, &TOLD_AND_DRAWN)?, wanted);
    Ok(())
}

static ONE_ENTRY: [Row; 3] = [
    ("a client comes", false, Join, Taken),
    ("its key is one entry too many", false, Insert, Refused),
    ("its leaving isn't", false, Leave, Taken),
];

#[test]
fn a_full_history_takes_leavings_alone(rt: HostRuntime) -> Result<(), Fail> {
    let wanted = Left {
        wrong: None,
        joined: 0,
        joins: 1,
        entries: 2,
        stayed: 0,
    };
    assert_eq!(rt; play(&rt, rt.alloc(), 1, &ONE_ENTRY)?, wanted);
    Ok(())
}
