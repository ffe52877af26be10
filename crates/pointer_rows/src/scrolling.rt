//! What scrolling does to a client.
#![tactic(auto, using(kak_world::proofs::WorldLaws::world_laws))]

ghost use Rattle.std.specs.Prelude.{◌≡◌, ◌<◌, true};
ghost use Rattle.text_model.specs.Texts.{line_count};
ghost use Rattle.kak_world.specs.Flat.{acts, text_of, view_of};
ghost use Rattle.pointer_rows.specs.Scrolling.{keeps_shown, window_by, scrolled};

use crate::lists::brought_in;
use crate::pointing::is_quiet;
use crate::windows::top_by;
use kak_world::{Turn, World};
use regex_ports::Pattern;
use std::alloc::Global;
use window_view::Corner;

// Brings the main selection to a line that the window shows, alone, where it shows the cursor's line no more.
fn keep_shown<P: Pattern, T: Turn>(alloc: Global, world: &mut World<P, T>, who: u32)
    requires acts { acts who world.old.flat ≡ true }
    requires top { (view_of who world.old.flat).top < line_count (text_of who world.old.flat) }
    ensures { world.new.flat ≡ keeps_shown who world.old.flat }
{
    let brought = brought_in(
        alloc,
        world.lines(who),
        &world.window(who),
        world.tabstop(who),
        world.sels(who),
    );
    if let Some(sels) = brought {
        world.set_sels(who, sels);
    }
}

// Lets a client's window go so many lines on, or back.
fn move_window<P: Pattern, T: Turn>(world: &mut World<P, T>, who: u32, lines: i32)
    requires { acts who world.old.flat ≡ true }
    ensures moves { world.new.flat ≡ window_by who lines world.old.flat }
    ensures top { (view_of who world.new.flat).top < line_count (text_of who world.new.flat) }
    ensures acts { acts who world.new.flat ≡ true }
{
    let window = world.window(who);
    let top = top_by(world.lines(who).line_count(), window.top, lines);
    world.set_corner(
        who,
        Corner {
            top,
            left: window.left,
        },
    );
}

/// Lets the window of a client whose turn it is go so many lines on, or back, as far as its text goes. Where it doesn't show the
/// main cursor's line then, a vertical move of the main selection to the nearest line that it shows is selected alone. Nothing
/// is done unless the client is in normal mode and none of its keys waits for another one. Takes no memory.
pub fn scroll<P: Pattern, T: Turn>(alloc: Global, world: &mut World<P, T>, who: u32, lines: i32)
    requires { acts who world.old.flat ≡ true }
    ensures { world.new.flat ≡ scrolled who lines world.old.flat }
{
    if is_quiet(world, who) {
        move_window(world, who, lines);
        keep_shown(alloc, world, who);
    }
}
