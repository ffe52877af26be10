//! What a client is shown of the world, and where its cursor stands.

use draw_model::redraw;
use drawings::{Drawing, DrawnLine};
use kak_world::{AnyTurn, Mode, World};
use regex_ports::RegexPattern;
use std::alloc::Global;
use std::process::Abort;
use std::test::Fail;

// The contents of a line's atoms, each with a bar behind it.
fn shown(alloc: Global, line: &DrawnLine) -> Result<String, Fail> {
    let mut out = String::new(alloc);
    for atom in line.atoms.as_slice() {
        for c in atom.contents.as_slice() {
            out.push(*c)?;
        }
        out.push_str("|")?;
    }
    Ok(out)
}

// The contents of the atoms of all lines that are drawn.
fn shown_lines(alloc: Global, drawing: &Drawing) -> Result<String, Fail> {
    let mut lines = String::new(alloc);
    for line in drawing.lines.as_slice() {
        lines.push_str(shown(alloc, line)?.as_str())?;
    }
    Ok(lines)
}

// What a first client is shown.
fn first_drawing<R: Abort>(rt: &R, alloc: Global) -> Result<Drawing, Fail> {
    let mut world = World::<RegexPattern, AnyTurn>::new(alloc)?;
    world.join(alloc, 0)?;
    assert!(rt; world.is_joined(0));
    world.enter(0);
    assert!(rt; world.acts(0));
    Ok(redraw(alloc, &mut world, 0)?)
}

#[test]
fn a_first_client_sees_the_newline_under_its_cursor(rt: HostRuntime) -> Result<(), Fail> {
    let alloc = rt.alloc();
    let drawing = first_drawing(&rt, alloc)?;
    let lines = shown_lines(alloc, &drawing)?;
    assert_eq!(rt; lines.as_str(), "\n|");
    assert_eq!(rt; drawing.cursor.column, 0);
    assert!(rt; drawing.first);
    Ok(())
}

#[test]
fn a_first_client_has_a_mode_line_and_no_status(rt: HostRuntime) -> Result<(), Fail> {
    let alloc = rt.alloc();
    let drawing = first_drawing(&rt, alloc)?;
    let mode = shown(alloc, &drawing.mode_line)?;
    let status = shown(alloc, &drawing.status)?;
    assert_eq!(rt; mode.as_str(), "*scratch* 1:1 normal 1/1 - client0|");
    assert_eq!(rt; status.as_str(), "");
    Ok(())
}

// What client 0 is shown with this text in its prompt.
fn prompt_drawing<R: Abort>(rt: &R, alloc: Global, typed: &str) -> Result<Drawing, Fail> {
    let mut world = World::<RegexPattern, AnyTurn>::new(alloc)?;
    world.join(alloc, 0)?;
    for c in typed.chars() {
        assert!(rt; world.is_joined(0));
        world.own_mut(0).prompt.put(&[c])?;
    }
    assert!(rt; world.is_joined(0));
    world.own_mut(0).mode = Mode::Prompt;
    assert!(rt; world.is_joined(0));
    world.enter(0);
    assert!(rt; world.acts(0));
    Ok(redraw(alloc, &mut world, 0)?)
}

#[test]
fn a_prompt_has_three_atoms(rt: HostRuntime) -> Result<(), Fail> {
    let alloc = rt.alloc();
    let drawing = prompt_drawing(&rt, alloc, "q")?;
    let status = shown(alloc, &drawing.status)?;
    assert_eq!(rt; status.as_str(), ":|q| |");
    assert!(rt; drawing.cursor.prompt);
    assert_eq!(rt; drawing.cursor.column, 2);
    Ok(())
}

#[test]
fn a_tab_in_a_prompt_leads_to_the_next_stop(rt: HostRuntime) -> Result<(), Fail> {
    let alloc = rt.alloc();
    for (typed, column) in &[("q\t", 8), ("q\t漢\u{301}", 10)] {
        let drawing = prompt_drawing(&rt, alloc, typed)?;
        assert_eq!(rt; drawing.cursor.column, *column);
    }
    Ok(())
}
