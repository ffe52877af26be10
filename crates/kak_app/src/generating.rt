//! The run of a generated session: its clients come, strike the keys that are drawn, are summed up, and go.

ghost use Rattle.std.specs.Prelude.{◌≡◌, ◌<◌, [], ◌∷◌, true, false, None, string_bytes, IfOk, OnOk, OnErr};
ghost use Rattle.kak_ports.specs.Ports.{Inlet};
ghost use Rattle.session_events.specs.Entries.{is_leave};
ghost use Rattle.session_events.specs.Legal.{Away, is_here, presence_from};
ghost use Rattle.kak_engine.specs.Honesty.{Outside as Seen, IsUntouched};
ghost use Rattle.kak_engine.specs.Seating.{WasHonest, WasLost};
ghost use Rattle.kak_engine.specs.Steps.{AllAsked};
ghost use Rattle.kak_app.specs.Runs.{around_run};
ghost use Rattle.kak_app.specs.Generated.{made_by, comings, goings, drawn_moves, generated_whole, summary_of, GenAnswers};
ghost use Rattle.kak_app.specs.Generating.{Adds, AddsSome, AllStay, AreHere, StaysHonest, IsSummed, Writes};

use crate::program::Status;
use kak_engine::{Engine, NoEngine, Outside};
use kak_ports::{Put, Sink};
use program_words::GenWords;
use session_draws::{Draws, head_text, sels_line};
use session_events::{Event, MAX_ENTRIES};
use std::alloc::{AllocError, Global};

// Has a client make an event. An error is want of memory.
fn play<O: Outside>(
    alloc: Global,
    engine: &mut Engine<O>,
    who: u32,
    event: &Event,
) -> Result<(), AllocError>
    ensures adds { OnOk result (Adds (made_by who event.now ∷ []) engine.old.history engine.new.history) }
    ensures stays { OnErr result (engine.new.history ≡ engine.old.history) }
    ensures whole { OnOk result (engine.new.mark ≡ engine.old.mark) }
    ensures honest { StaysHonest engine.old engine.new }
    ensures here { OnOk result (is_leave event.now ≡ false → is_here (presence_from who Away engine.new.history) ≡ true) }
    ensures others { OnOk result (is_leave event.now ≡ false → AllStay engine.old.history engine.new.history) }
{
    match engine.step(alloc, who, event) {
        Ok(_output) => Ok(()),
        Err(_fault) => Err(AllocError),
    }
}

// Lets so many clients come, in the order of their numbers.
fn come_all<O: Outside>(
    alloc: Global,
    engine: &mut Engine<O>,
    clients: u32,
) -> Result<(), AllocError>
    ensures adds { OnOk result (Adds (comings clients) engine.old.history engine.new.history) }
    ensures lost { OnErr result (AddsSome (comings clients) engine.old.history engine.new.history) }
    ensures whole { OnOk result (engine.new.mark ≡ engine.old.mark) }
    ensures honest { StaysHonest engine.old engine.new }
    ensures here { OnOk result (AreHere clients engine.new.history) }
{
    for who in 0..clients {
        play(alloc, engine, who, &Event::Join)?;
    }
    Ok(())
}

// Has the keys struck that are drawn.
fn strike_all<O: Outside>(
    alloc: Global,
    engine: &mut Engine<O>,
    session: GenWords,
) -> Result<(), AllocError>
    requires some { 0 < session.clients }
    requires here { AreHere session.clients engine.old.history }
    ensures adds { OnOk result (Adds (drawn_moves session.clients session.keys session.seed) engine.old.history engine.new.history) }
    ensures lost { OnErr result (AddsSome (drawn_moves session.clients session.keys session.seed) engine.old.history engine.new.history) }
    ensures whole { OnOk result (engine.new.mark ≡ engine.old.mark) }
    ensures honest { StaysHonest engine.old engine.new }
    ensures here { OnOk result (AreHere session.clients engine.new.history) }
{
    let mut draws = Draws::new(session.seed);
    for _ in 0..session.keys {
        let struck = draws.strike(session.clients);
        play(alloc, engine, struck.who, &Event::Key(struck.key))?;
    }
    Ok(())
}

// Lets so many clients go, in the order of their numbers.
fn leave_all<O: Outside>(
    alloc: Global,
    engine: &mut Engine<O>,
    clients: u32,
) -> Result<(), AllocError>
    ensures adds { OnOk result (Adds (goings clients) engine.old.history engine.new.history) }
    ensures lost { OnErr result (AddsSome (goings clients) engine.old.history engine.new.history) }
    ensures whole { OnOk result (engine.new.mark ≡ engine.old.mark) }
    ensures honest { StaysHonest engine.old engine.new }
{
    for who in 0..clients {
        play(alloc, engine, who, &Event::Leave)?;
    }
    Ok(())
}

// The summary of a session whose clients are all here.
fn summary<O: Outside>(
    alloc: Global,
    engine: &Engine<O>,
    clients: u32,
) -> Result<String, AllocError>
    requires whole { engine.now.mark ≡ None }
    requires some { 0 < clients }
    requires here { AreHere clients engine.now.history }
    ensures { IfOk result (λ text. string_bytes text ≡ summary_of clients engine.now.history) }
{
    let mut text = head_text(alloc, engine.count(), engine.chars(0), engine.lines(0))?;
    for who in 0..clients {
        let line = sels_line(alloc, who, engine.sels(alloc, who)?)?;
        text.push_str(line.as_str())?;
    }
    Ok(text)
}

// Plays a generated session on an engine to which nothing happened, and gives its summary.
fn play_session<O: Outside>(
    alloc: Global,
    engine: &mut Engine<O>,
    session: GenWords,
) -> Result<String, AllocError>
    requires whole { engine.old.mark ≡ None }
    requires some { 0 < session.clients }
    requires fresh { engine.old.history ≡ [] }
    ensures summed { IfOk result (λ text. IsSummed session (string_bytes text) engine.new.history) }
    ensures lost { OnErr result (AddsSome (generated_whole session) [] engine.new.history) }
    ensures whole { OnOk result (engine.new.mark ≡ None) }
    ensures honest { StaysHonest engine.old engine.new }
{
    come_all(alloc, engine, session.clients)?;
    strike_all(alloc, engine, session)?;
    let text = summary(alloc, engine, session.clients)?;
    leave_all(alloc, engine, session.clients)?;
    Ok(text)
}

// Writes a text, and gives the status of the run.
fn write_text<K: Sink>(output: &mut K, text: &str) -> Status
    ensures { Writes text.now result (K.outlet output.old) (K.outlet output.new) }
{
    match output.put(text.as_bytes()) {
        Put::Done => Status::Done,
        Put::Failed => Status::WriteFault,
    }
}

// Writes the summary of a session, if there is one, and gives the status of the run.
fn write_summary<K: Sink>(output: &mut K, played: Result<String, AllocError>) -> Status
    ensures written { IfOk played (λ text. Writes (string_bytes text) result (K.outlet output.old) (K.outlet output.new)) }
    ensures lost { OnErr played (result ≡ Status.NoMemory) }
    ensures unwritten { OnErr played (K.outlet output.new ≡ K.outlet output.old) }
{
    match played {
        Ok(text) => write_text(output, text.as_str()),
        Err(_error) => Status::NoMemory,
    }
}

// Rescues the texts of an engine whose session was lost, since memory was wanting, and gives its outside.
fn rescue_engine<O: Outside>(alloc: Global, engine: Engine<O>) -> O
    ensures lost { (first : Seen) → WasHonest engine first → WasLost engine.history engine.mark engine.inside first (O.seen result) }
    ensures asked { AllAsked engine.history }
{
    let mut engine = engine;
    engine.inside_is_run();
    let _tried = engine.rescue(alloc);
    engine.into_outside()
}

// Ends an engine, and gives its outside. Where its session was lost, its texts are rescued.
fn part_engine<O: Outside>(alloc: Global, engine: Engine<O>, lost: bool) -> O
    ensures lost { lost ≡ true → (first : Seen) → WasHonest engine first → WasLost engine.history engine.mark engine.inside first (O.seen result) }
    ensures whole { lost ≡ false → O.seen result ≡ engine.outside }
    ensures asked { AllAsked engine.history }
{
    if lost {
        return rescue_engine(alloc, engine);
    }
    engine.into_outside()
}

/// Plays the session that the words of a generated session name, and writes its summary. The outside is given back as what the
/// history says of it left it: it was asked for that and for nothing else. Where memory ran out, the texts are rescued which may
/// differ from what was saved.
pub fn generate<K: Sink, O: Outside>(
    alloc: Global,
    session: GenWords,
    output: &mut K,
    outside: O,
) -> (Status, O)
    requires opening { IsUntouched (O.seen outside).shelf.told }
    requires some { 0 < session.clients }
    ensures answers { (inlet : Inlet) → GenAnswers session result.0 (around_run inlet (K.outlet output.old) (O.seen outside)) (around_run inlet (K.outlet output.new) (O.seen result.1)) }
    ensures used { result.0 ≡ Status.Usage → ⊥ }
{
    match Engine::new(alloc, outside, MAX_ENTRIES) {
        Ok(mut engine) => {
            let played = play_session(alloc, &mut engine, session);
            let outside = part_engine(alloc, engine, played.is_err());
            let status = write_summary(output, played);
            (status, outside)
        }
        Err(NoEngine { outside }) => (Status::NoMemory, outside),
    }
}
