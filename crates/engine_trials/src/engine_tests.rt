//! Plays the scripts at engines.

use crate::engine_scripts::{Act, SCRIPTS, Script, Told};
use drawings::{Drawing, DrawnLine};
use kak_engine::{Engine, NoOutside};
use key_names::read_keys;
use session_events::{Entry, Event, Output, StepFault};
use std::alloc::{AllocError, Global};
use std::test::Fail;

type Played = Engine<NoOutside>;

// What a client is shown: its lines, the column of its cursor, its mode line and its status.
#[derive(Drop)]
struct Shown {
    lines: String,
    column: u32,
    mode_line: String,
    status: String,
}

// A step of an engine. No clause says here what it does, so none is in the way of those who call this.
fn step(alloc: Global, engine: &mut Played, who: u32, event: &Event) -> Result<Output, StepFault> {
    engine.step(alloc, who, event)
}

// How many entries an engine has.
fn count(engine: &Played) -> u64 {
    engine.count()
}

// How many entries of an engine are a key of the client.
fn count_keys(engine: &Played, who: u32) -> usize {
    count_keys_of(engine.history(), who)
}

// How many entries are a key of the client.
fn count_keys_of(history: &[Entry], who: u32) -> usize {
    history
        .iter()
        .filter(|entry| entry.who == who && matches!(entry.event, Event::Key(_)))
        .count()
}

// A new engine at which so many clients have joined, by numbers from 0.
fn engine_of(alloc: Global, limit: u64, clients: u32) -> Result<Played, Fail> {
    let mut engine = Engine::new(alloc, NoOutside::new(), limit)?;
    join_all(alloc, &mut engine, clients)?;
    Ok(engine)
}

// So many clients join.
fn join_all(alloc: Global, engine: &mut Played, clients: u32) -> Result<(), StepFault> {
    for who in 0..clients {
        step(alloc, engine, who, &Event::Join)?;
    }
    Ok(())
}

// What an event tells.
fn told_at(alloc: Global, engine: &mut Played, who: u32, event: &Event) -> Told {
    match step(alloc, engine, who, event) {
        Ok(output) if output.leaving => Told::MayLeave,
        Ok(output) if output.drawing.is_some() => Told::Drew,
        Ok(_) => Told::Ran,
        Err(fault) => Told::Refused(fault),
    }
}

// A client strikes keys. Gives what the last one tells, where all before it ran.
fn strike(alloc: Global, engine: &mut Played, who: u32, text: &str) -> Result<Told, Fail> {
    let keys = read_keys(alloc, text)?;
    let mut told = Told::Ran;
    for key in keys.as_slice() {
        if told != Told::Ran {
            return Ok(Told::Unlike);
        }
        told = told_at(alloc, engine, who, &Event::Key(*key));
    }
    Ok(told)
}

// Adds the characters of a line that is drawn.
fn add_line(out: &mut String, line: &DrawnLine) -> Result<(), AllocError> {
    for atom in line.atoms.as_slice() {
        for c in atom.contents.as_slice() {
            out.push(*c)?;
        }
    }
    Ok(())
}

// The characters of lines that are drawn.
fn text_of(alloc: Global, lines: &[DrawnLine]) -> Result<String, AllocError> {
    let mut text = String::new(alloc);
    for line in lines {
        add_line(&mut text, line)?;
    }
    Ok(text)
}

// The characters of a line that is drawn.
fn line_of(alloc: Global, line: &DrawnLine) -> Result<String, AllocError> {
    let mut text = String::new(alloc);
    add_line(&mut text, line)?;
    Ok(text)
}

// What a drawing shows.
fn shown_of(alloc: Global, drawing: &Drawing) -> Result<Shown, AllocError> {
    Ok(Shown {
        lines: text_of(alloc, drawing.lines.as_slice())?,
        column: drawing.cursor.column,
        mode_line: line_of(alloc, &drawing.mode_line)?,
        status: line_of(alloc, &drawing.status)?,
    })
}

// Draws a client.
fn look(alloc: Global, engine: &mut Played, who: u32) -> Result<Shown, Fail> {
    let output = step(alloc, engine, who, &Event::Refresh(true))?;
    match &output.drawing {
        Some(drawing) => Ok(shown_of(alloc, drawing)?),
        None => Err("nothing is drawn".into()),
    }
}

// Whether a drawing shows these lines, the cursor in this column, and this mode line.
fn is_seen(shown: &Shown, lines: &str, column: u32, mode_line: &str) -> bool {
    shown.lines.as_str() == lines && shown.column == column && shown.mode_line.as_str() == mode_line
}

// What is told where something is as it is to be.
fn told_if(told: Told, is_so: bool) -> Told {
    if is_so { told } else { Told::Unlike }
}

// What a client does tells this.
fn does(alloc: Global, engine: &mut Played, who: u32, act: Act) -> Result<Told, Fail> {
    match act {
        Act::Join => Ok(told_at(alloc, engine, who, &Event::Join)),
        Act::Keys(text) => strike(alloc, engine, who, text),
        Act::Draw(asked) => Ok(told_at(alloc, engine, who, &Event::Refresh(asked))),
        Act::Sees(lines, column, mode_line) => {
            let shown = look(alloc, engine, who)?;
            Ok(told_if(Told::Drew, is_seen(&shown, lines, column, mode_line)))
        }
        Act::Says(status) => {
            let shown = look(alloc, engine, who)?;
            Ok(told_if(Told::Drew, shown.status.as_str() == status))
        }
        Act::Leave => Ok(told_at(alloc, engine, who, &Event::Leave)),
        Act::Struck(wanted) => Ok(told_if(Told::Ran, count_keys(engine, who) == wanted)),
    }
}

// Plays a script. Gives the first row that told something else or left another number of entries, and what came.
fn first_wrong(alloc: Global, script: &Script) -> Result<Option<(usize, Told, u64)>, Fail> {
    let mut engine = engine_of(alloc, script.limit, script.clients)?;
    for (number, &(who, act, wanted, entries)) in script.rows.iter().enumerate() {
        let told = does(alloc, &mut engine, who, act)?;
        if told != wanted || count(&engine) != entries {
            return Ok(Some((number, told, count(&engine))));
        }
    }
    Ok(None)
}

#[test]
fn scripts_tell_what_they_are_to_tell(rt: HostRuntime) -> Result<(), Fail> {
    for script in &SCRIPTS {
        assert_eq!(rt; first_wrong(rt.alloc(), script)?, None, "{}", script.name);
    }
    Ok(())
}
