//! Events of a client that is joined, played over a seat.

ghost use Rattle.std.specs.Prelude.{◌≡◌, ◌∷◌, [], true, false, Some, IfOk, IfErr, IfSome, OnErr};
ghost use Rattle.session_events.specs.declared.event.Event.TheVariants.{Refresh};
ghost use Rattle.session_events.specs.Entries.{kind_of, is_join, is_leave};
ghost use Rattle.session_events.specs.declared.kind.Kind.TheVariants.{Doing};
ghost use Rattle.session_events.specs.Meaning.{IsMeaning, drawn_bytes};
ghost use Rattle.session_events.specs.Seats.{IsIn, IsSameSeat, IsLegalSeat, Steps, Sees};
ghost use Rattle.session_lines.specs.declared.playing.Telling.TheVariants.{Nothing as Silent};
ghost use Rattle.session_lines.specs.Session.{keys_played};
ghost use Rattle.session_lines.specs.Serving.{telling_bytes, TakesEvents, TakesDrawing, PhaseAnswers, Leaves};
ghost use Rattle.session_lines.specs.Stops.{IsReady, Stays, Stops, IsLoss, StaysWhole};

use drawings::{Drawing, Refusal};
use key_names::Key;
use session_events::{Event, Output, Seat, StepFault};
use std::alloc::{AllocError, Global};
use thiserror::Error;

/// Why playing stopped before its end.
#[derive(Clone, Copy, PartialEq, Eq, Debug, Error)]
pub enum Stop {
    /// The history takes no further entry; nothing was sent for the turn.
    #[error("the history is full")]
    HistoryFull,
    /// The session is broken, since so many entries stood.
    #[error("the session is broken since entry {0}")]
    Broken(u64),
    /// Memory ran out.
    #[error("out of memory")]
    NoMemory,
    /// A write failed; some of the turn's bytes may have been sent.
    #[error("a write failed")]
    WriteFault,
}

/// What a client is told at the end of a phase.
#[derive(Drop, Debug)]
pub enum Telling {
    /// Nothing.
    Nothing,
    /// What is drawn for it.
    Drawn(Drawing),
    /// Why its line is refused.
    Refused(Refusal),
}

/// What the playing of a phase gives its client.
#[derive(Drop, Debug)]
pub struct Reply {
    /// What it is to be told.
    pub telling: Telling,
    /// Whether it may leave.
    pub leaving: bool,
}

impl Reply {
    /// Nothing is told, and the client may not leave.
    pub fn nothing() -> Reply
        ensures telling { result.telling ≡ Silent }
        ensures stays { result.leaving ≡ false }
    {
        Reply {
            telling: Telling::Nothing,
            leaving: false,
        }
    }
}

impl From<AllocError> for Stop {
    ghost use Rattle.session_lines.specs.declared.playing.Stop.TheVariants.{NoMemory};

    ghost from_gives = { λ _ stop. stop ≡ NoMemory };

    fn from(_error: AllocError) -> Stop {
        Stop::NoMemory
    }
}

// Takes an event of a client that is joined: a full history alone refuses it, and leaving is never refused.
fn take<S: Seat>(alloc: Global, seat: &mut S, event: &Event) -> Result<Output, Stop>
    requires joined { IsIn (S.seated seat.old) }
    requires joins_no_more { is_join event.now ≡ false }
    ensures meaning { IsMeaning S.gives }
    ensures same { IsSameSeat (S.seated seat.old) (S.seated seat.new) }
    ensures kept { S.kept seat.new ≡ S.kept seat.old }
    ensures whole { StaysWhole result (S.seated seat.old).mark (S.seated seat.new).mark }
    ensures legal { IsLegalSeat (S.seated seat.new) }
    ensures joined { is_leave event.now ≡ false → IsIn (S.seated seat.new) }
    ensures ok { IfOk result (λ output. Steps S.gives (S.seated seat.old) (S.seated seat.new) event.now output) }
    ensures err { OnErr result (Sees S.gives (S.seated seat.old) (S.seated seat.new)) }
    ensures stops { is_leave event.now ≡ false → Stops result (S.seated seat.new) }
    ensures leaves { is_leave event.now ≡ true → IfErr result (λ stop. IsLoss S.parting stop (S.seated seat.new)) }
    ensures marked { IfSome (S.seated seat.old).mark (λ at. (S.seated seat.new).mark ≡ Some at) }
{
    match seat.step(alloc, event) {
        Ok(output) => Ok(output),
        Err(StepFault::HistoryFull) => Err(Stop::HistoryFull),
        Err(StepFault::Broken(at)) => Err(Stop::Broken(at)),
        Err(StepFault::NoMemory) => Err(Stop::NoMemory),
        Err(StepFault::NoClient(_)) => unreachable!(),
        Err(StepFault::Joined(_)) => unreachable!(),
        Err(StepFault::Full) => unreachable!(),
    }
}

// What is told of a drawing, if there is one.
fn telling_of(drawing: Option<Drawing>) -> Telling
    ensures { telling_bytes result ≡ drawn_bytes drawing }
{
    match drawing {
        None => Telling::Nothing,
        Some(drawing) => Telling::Drawn(drawing),
    }
}

// Takes an event by which the client does something, which gives no drawing. Tells whether the client may leave by it.
fn act<S: Seat>(alloc: Global, seat: &mut S, event: &Event) -> Result<bool, Stop>
    requires ready { IsReady (S.seated seat.old) }
    requires acts { kind_of event.now ≡ Doing }
    ensures meaning { IsMeaning S.gives }
    ensures stays { Stays (S.seated seat.old) (S.seated seat.new) }
    ensures kept { S.kept seat.new ≡ S.kept seat.old }
    ensures whole { StaysWhole result (S.seated seat.old).mark (S.seated seat.new).mark }
    ensures takes { TakesEvents S.gives (S.seated seat.old) (S.seated seat.new) (event.now ∷ []) result }
    ensures stops { Stops result (S.seated seat.new) }
{
    let output = take(alloc, seat, event)?;
    Ok(output.leaving)
}

// Draws the client, which asked for it or didn't.
fn draw<S: Seat>(alloc: Global, seat: &mut S, asked: bool) -> Result<Telling, Stop>
    requires { IsReady (S.seated seat.old) }
    ensures meaning { IsMeaning S.gives }
    ensures stays { Stays (S.seated seat.old) (S.seated seat.new) }
    ensures kept { S.kept seat.new ≡ S.kept seat.old }
    ensures whole { StaysWhole result (S.seated seat.old).mark (S.seated seat.new).mark }
    ensures takes { TakesDrawing S.gives asked (S.seated seat.old) (S.seated seat.new) result }
    ensures stops { Stops result (S.seated seat.new) }
{
    let output = take(alloc, seat, &Event::Refresh(asked))?;
    Ok(telling_of(output.drawing))
}

/// Draws the client without its having asked for it. It may not leave by that.
pub fn answer_idle<S: Seat>(alloc: Global, seat: &mut S) -> Result<Reply, Stop>
    requires { IsReady (S.seated seat.old) }
    ensures stays { Stays (S.seated seat.old) (S.seated seat.new) }
    ensures kept { S.kept seat.new ≡ S.kept seat.old }
    ensures whole { StaysWhole result (S.seated seat.old).mark (S.seated seat.new).mark }
    ensures answers { PhaseAnswers S.gives (S.seated seat.old) (S.seated seat.new) (Refresh false ∷ []) [] result }
    ensures remains { IfOk result (λ reply. reply.leaving ≡ false) }
    ensures stops { Stops result (S.seated seat.new) }
{
    let telling = draw(alloc, seat, false)?;
    Ok(Reply {
        telling,
        leaving: false,
    })
}

/// Strikes keys and draws the client.
pub fn play_keys<S: Seat>(alloc: Global, seat: &mut S, keys: &[Key]) -> Result<Reply, Stop>
    requires { IsReady (S.seated seat.old) }
    ensures meaning { IsMeaning S.gives }
    ensures stays { Stays (S.seated seat.old) (S.seated seat.new) }
    ensures kept { S.kept seat.new ≡ S.kept seat.old }
    ensures whole { StaysWhole result (S.seated seat.old).mark (S.seated seat.new).mark }
    ensures answers { PhaseAnswers S.gives (S.seated seat.old) (S.seated seat.new) (keys_played keys.now) [] result }
    ensures stops { Stops result (S.seated seat.new) }
{
    let mut leaving = false;
    for &key in keys {
        leaving |= act(alloc, seat, &Event::Key(key))?;
    }
    let telling = draw(alloc, seat, true)?;
    Ok(Reply { telling, leaving })
}

/// Takes an event by which the client does something, and draws the client.
pub fn play_event<S: Seat>(alloc: Global, seat: &mut S, event: &Event) -> Result<Reply, Stop>
    requires ready { IsReady (S.seated seat.old) }
    requires acts { kind_of event.now ≡ Doing }
    ensures stays { Stays (S.seated seat.old) (S.seated seat.new) }
    ensures kept { S.kept seat.new ≡ S.kept seat.old }
    ensures whole { StaysWhole result (S.seated seat.old).mark (S.seated seat.new).mark }
    ensures answers { PhaseAnswers S.gives (S.seated seat.old) (S.seated seat.new) (event.now ∷ Refresh true ∷ []) [] result }
    ensures stops { Stops result (S.seated seat.new) }
{
    let leaving = act(alloc, seat, event)?;
    let telling = draw(alloc, seat, true)?;
    Ok(Reply { telling, leaving })
}

/// Lets the client go. Memory is wanting only where something is run by that.
pub fn leave<S: Seat>(alloc: Global, seat: &mut S) -> Result<(), Stop>
    requires { IsReady (S.seated seat.old) }
    ensures same { IsSameSeat (S.seated seat.old) (S.seated seat.new) }
    ensures kept { S.kept seat.new ≡ S.kept seat.old }
    ensures whole { StaysWhole result (S.seated seat.old).mark (S.seated seat.new).mark }
    ensures legal { IsLegalSeat (S.seated seat.new) }
    ensures leaves { Leaves S.gives S.parting (S.seated seat.old) (S.seated seat.new) result }
    ensures marked { IfSome (S.seated seat.old).mark (λ at. (S.seated seat.new).mark ≡ Some at) }
{
    match take(alloc, seat, &Event::Leave) {
        Ok(_output) => Ok(()),
        Err(stop) => Err(stop),
    }
}
