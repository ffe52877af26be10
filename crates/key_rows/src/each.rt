//! What is done to each selection of a client by itself.
#![tactic(auto, using(kak_world::proofs::WorldLaws::world_laws))]

ghost use Rattle.std.specs.Prelude.{◌≡◌, ◌≤◌, true, length, map, IfOk, IsOk, OnOk, OnErr};
ghost use Rattle.list_model.specs.Ranges.{cursor};
ghost use Rattle.list_model.specs.Settling.{each_settled};
ghost use Rattle.selection_set.specs.Inside.{range_of, IsInside};
ghost use Rattle.selection_set.specs.Listing.{AreInside, ranges_of};
ghost use Rattle.window_view.specs.Views.{window_seen};
ghost use Rattle.kak_world.specs.Flat.{acts, sels_of};
ghost use Rattle.selection_set.specs.Held.{selected, IsHeld};
ghost use Rattle.motion_keys.specs.Words.{EndsAre};
ghost use Rattle.key_rows.specs.Each.{object_ends, object_range, each_range, each_changed};

use crate::shapes::{Shape, reshape};
use kak_world::{Turn, World};
use line_buffer::Lines;
use motion_keys::{Motion, Place, Reach, moved};
use regex_ports::Pattern;
use selection_set::{Pair, Sel, Sels};
use smallvec::SmallVec;
use std::alloc::{AllocError, Global};
use text_objects::{Object, around, inner};
use window_view::{Tabstop, Window};

/// How much of an object is selected.
#[derive(Clone, Copy, PartialEq, Eq, Debug)]
pub enum Extent {
    /// The object by itself.
    Inner,
    /// The object with what belongs to it.
    Around,
}

/// What is done to a selection by itself.
#[derive(Clone, Copy, PartialEq, Eq, Debug)]
pub enum Each {
    /// It goes where a motion leads.
    Moved(Motion, Reach),
    /// It changes its shape.
    Reshaped(Shape),
    /// The first character of its first line that is no blank.
    AtFirstLine,
    /// The object that its cursor is in; where there is none, it stays.
    Object(Extent, Object),
}

// The ends of an object at a selection's cursor.
fn object_ends(
    lines: &Lines,
    tabstop: Tabstop,
    sel: Sel,
    extent: Extent,
    object: Object,
) -> Option<Pair>
    requires inside { IsInside lines.now sel }
    ensures { EndsAre lines.now result (object_ends extent object lines.now (cursor (range_of lines.now sel)) tabstop.columns) }
{
    match extent {
        Extent::Inner => inner(lines, &sel, object, tabstop),
        Extent::Around => around(lines, &sel, object, tabstop),
    }
}

// The object at a selection's cursor, straight; where there is none, the selection stays.
fn on_object(lines: &Lines, tabstop: Tabstop, sel: Sel, extent: Extent, object: Object) -> Sel
    requires inside { IsInside lines.now sel }
    ensures inside { IsInside lines.now result }
    ensures selects { range_of lines.now result ≡ object_range extent object tabstop.columns lines.now (range_of lines.now sel) }
{
    match object_ends(lines, tabstop, sel, extent, object) {
        Some(pair) => Sel::of_pair(pair),
        None => sel,
    }
}

// What becomes of a selection.
fn changed(lines: &Lines, window: &Window, tabstop: Tabstop, sel: Sel, change: Each) -> Sel
    requires inside { IsInside lines.now sel }
    ensures inside { IsInside lines.now result }
    ensures changes { range_of lines.now result ≡ each_range change (window_seen window.now) tabstop.columns lines.now (range_of lines.now sel) }
{
    match change {
        Each::Moved(motion, reach) => moved(lines, window, tabstop, sel, motion, reach),
        Each::Reshaped(shape) => reshape(lines, sel, shape),
        Each::AtFirstLine => {
            let text = Motion::To(Place::NonBlank);
            moved(
                lines,
                window,
                tabstop,
                Sel::only(sel.low),
                text,
                Reach::Select,
            )
        }
        Each::Object(extent, object) => on_object(lines, tabstop, sel, extent, object),
    }
}

// What becomes of some selections, each by itself. Takes no memory for at most four.
fn changed_list(
    alloc: Global,
    lines: &Lines,
    window: &Window,
    tabstop: Tabstop,
    sels: &[Sel],
    change: Each,
) -> Result<SmallVec<Sel, 4>, AllocError>
    requires inside { AreInside lines.now sels.now }
    ensures inside { IfOk result (λ list. AreInside lines.now list.items) }
    ensures changes { IfOk result (λ list. ranges_of lines.now list.items
        ≡ map (each_range change (window_seen window.now) tabstop.columns lines.now) (ranges_of lines.now sels.now)) }
    ensures few { length sels.now ≤ 4 → IsOk result }
{
    let mut list = SmallVec::with_capacity(alloc, sels.len())?;
    for sel in sels {
        list.push_reserved(changed(lines, window, tabstop, *sel, change));
    }
    Ok(list)
}

// The settled list of what selections become. The main one is the one that holds what the former main one became. Takes
// no memory for at most four; where no selection comes to begin before an earlier one, it is one vector and a pass.
fn changed_sels(
    alloc: Global,
    lines: &Lines,
    window: &Window,
    tabstop: Tabstop,
    sels: &Sels,
    change: Each,
) -> Result<Sels, AllocError>
    requires held { IsHeld lines.now sels.now }
    ensures held { IfOk result (λ s. IsHeld lines.now s) }
    ensures changes { IfOk result (λ s. selected lines.now s
        ≡ each_settled (each_range change (window_seen window.now) tabstop.columns lines.now) (selected lines.now sels.now)) }
    ensures few { length sels.now.list ≤ 4 → IsOk result }
{
    let list = changed_list(alloc, lines, window, tabstop, sels.as_slice(), change)?;
    // they are as many as before, so never too many
    match Sels::of_vec(alloc, list, sels.main()) {
        Ok(changed) => Ok(changed),
        Err(_) => Err(AllocError),
    }
}

/// Does something to each selection of a client by itself, and settles the list. Takes no memory for at most four
/// selections.
pub fn change_each<P: Pattern, T: Turn>(
    alloc: Global,
    world: &mut World<P, T>,
    who: u32,
    change: Each,
) -> Result<(), AllocError>
    requires { acts who world.old.flat ≡ true }
    ensures does { OnOk result (world.new.flat ≡ each_changed change who world.old.flat) }
    ensures few { length (sels_of who world.old.flat).list ≤ 4 → IsOk result }
    ensures err { OnErr result (world.new.flat ≡ world.old.flat) }
{
    let changed = changed_sels(
        alloc,
        world.lines(who),
        &world.window(who),
        world.tabstop(who),
        world.sels(who),
        change,
    )?;
    world.set_sels(who, changed);
    Ok(())
}
