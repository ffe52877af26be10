//! What pressing, moving and releasing a mouse does to a client.
#![tactic(auto, using(kak_world::proofs::WorldLaws::world_laws))]

ghost use Rattle.std.specs.Prelude.{◌≡◌, true};
ghost use Rattle.text_model.specs.Texts.{offset, IsPlace};
ghost use Rattle.kak_world.specs.Flat.{is_joined, acts, text_of};
ghost use Rattle.pointer_rows.specs.Pointing.{is_quiet, offset_at, selects, extends, drags, with_drag, mouse_done, pointed};

use crate::lists::extended;
use crate::places::coord_shown;
use kak_text::Coord;
use kak_world::{Mode, Turn, World};
use mouse_events::{Button, Mouse};
use regex_ports::Pattern;
use selection_set::{Sel, Sels};
use std::alloc::Global;

/// Whether a client is in normal mode, and none of its keys waits for another one.
pub(crate) fn is_quiet<P: Pattern, T: Turn>(world: &World<P, T>, who: u32) -> bool
    requires { is_joined who world.now.flat ≡ true }
    ensures { result ≡ is_quiet who world.now.flat }
{
    let own = world.own(who);
    match own.mode {
        Mode::Normal => own.pending.is_none(),
        Mode::Insert => false,
        Mode::Prompt => false,
    }
}

// The character at a place of a client's window.
fn coord_at<P: Pattern, T: Turn>(world: &World<P, T>, who: u32, gutter: u32, at: Coord) -> Coord
    requires { is_joined who world.now.flat ≡ true }
    ensures place { IsPlace (text_of who world.now.flat) result }
    ensures value { offset (text_of who world.now.flat) result ≡ offset_at who gutter at world.now.flat }
{
    coord_shown(
        world.lines(who),
        &world.window(who),
        gutter,
        world.tabstop(who),
        at,
    )
}

// Selects the character at a place, alone.
fn select<P: Pattern, T: Turn>(
    alloc: Global,
    world: &mut World<P, T>,
    who: u32,
    gutter: u32,
    at: Coord,
)
    requires { acts who world.old.flat ≡ true }
    ensures { world.new.flat ≡ selects who gutter at world.old.flat }
{
    let place = coord_at(world, who, gutter, at);
    world.set_sels(who, Sels::one(alloc, Sel::only(place)));
}

// Extends the main selection to the character at a place, and keeps it alone.
fn extend<P: Pattern, T: Turn>(
    alloc: Global,
    world: &mut World<P, T>,
    who: u32,
    gutter: u32,
    at: Coord,
)
    requires { acts who world.old.flat ≡ true }
    ensures { world.new.flat ≡ extends who gutter at world.old.flat }
{
    let place = coord_at(world, who, gutter, at);
    let sel = extended(world.sels(who), place);
    world.set_sels(who, Sels::one(alloc, sel));
}

// Does so where the client is dragging.
fn drag<P: Pattern, T: Turn>(
    alloc: Global,
    world: &mut World<P, T>,
    who: u32,
    gutter: u32,
    at: Coord,
)
    requires { acts who world.old.flat ≡ true }
    ensures { world.new.flat ≡ drags who gutter at world.old.flat }
{
    let own = world.own(who);
    if own.dragging {
        extend(alloc, world, who, gutter, at);
    }
}

// A client is dragging from now on, or isn't.
fn set_drag<P: Pattern, T: Turn>(world: &mut World<P, T>, who: u32, dragging: bool)
    requires { is_joined who world.old.flat ≡ true }
    ensures { world.new.flat ≡ with_drag who dragging world.old.flat }
{
    world.own_mut(who).dragging = dragging;
}

// Does to a client that is quiet what a mouse did.
fn do_mouse<P: Pattern, T: Turn>(
    alloc: Global,
    world: &mut World<P, T>,
    who: u32,
    gutter: u32,
    mouse: Mouse,
)
    requires { acts who world.old.flat ≡ true }
    ensures { world.new.flat ≡ mouse_done who gutter mouse world.old.flat }
{
    match mouse {
        Mouse::Move(at) => drag(alloc, world, who, gutter, at),
        Mouse::Press(Button::Left, at) => {
            select(alloc, world, who, gutter, at);
            set_drag(world, who, true);
        }
        Mouse::Press(Button::Middle, _) => {}
        Mouse::Press(Button::Right, at) => extend(alloc, world, who, gutter, at),
        Mouse::Release(Button::Left, at) => {
            drag(alloc, world, who, gutter, at);
            set_drag(world, who, false);
        }
        Mouse::Release(Button::Middle, _) => {}
        Mouse::Release(Button::Right, _) => {}
    }
}

/// Does to a client whose turn it is what a mouse did over its window, where so many cells stand before the text. Pressing the
/// left button selects a character, from which moving the mouse extends the selection until the button is released; pressing
/// the right one extends the main selection. Nothing is done unless the client is in normal mode and none of its keys waits for
/// another one. Takes no memory.
pub fn point<P: Pattern, T: Turn>(
    alloc: Global,
    world: &mut World<P, T>,
    who: u32,
    gutter: u32,
    mouse: Mouse,
)
    requires { acts who world.old.flat ≡ true }
    ensures { world.new.flat ≡ pointed who gutter mouse world.old.flat }
{
    if is_quiet(world, who) {
        do_mouse(alloc, world, who, gutter, mouse);
    }
}
