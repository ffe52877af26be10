//! Faces that are laid over a line's, in one pass.

ghost use Rattle.std.specs.Prelude.{◌≡◌, ℕ, ◌≤◌, ◌<◌, ◌+◌, [], List, true, false, max, length, drop, slice_index_or, IfOk, OnOk, OnErr};
ghost use Rattle.face_grounds.specs.declared.ground.Run.{Run as RunSeen};
ghost use Rattle.kak_faces.specs.declared.face.Face.{Face as FaceSeen};
ghost use Rattle.kak_faces.specs.Faces.{merged};
ghost use Rattle.face_grounds.specs.Grounds.{face_in, over_all};
ghost use Rattle.face_grounds.specs.Laying.{seen_over, EndsWithin, ReachesBehind, AreAscending, AddsRun, GoesOver, LaysOne, Finishes, StayAhead};

use crate::ground::{Over, Run};
use kak_faces::{Face, merge};
use std::alloc::{AllocError, Global};

// How far the runs have been gone over: the place before which all is done, and the first run that reaches behind it.
#[derive(Clone, Copy, Debug)]
pub(crate) struct FaceReach {
    pub place: usize,
    pub run: usize,
}

// A face, with another over it where there is one.
fn under(face: Face, over: Option<Face>) -> Face
    ensures { result ≡ seen_over over face }
{
    match over {
        None => face,
        Some(over) => merge(face, over),
    }
}

// Adds a run that ends at a place, where that is behind what was reached.
fn push_run(out: &mut Vec<Run>, begin: usize, end: usize, face: Face) -> Result<(), AllocError>
    requires { begin ≤ end }
    ensures { OnOk result (AddsRun face begin end out.old.items out.new.items) }
{
    if begin >= end {
        return Ok(());
    }
    out.push(Run { end, face })?;
    Ok(())
}

// Whether there is a run of a number that ends at a place or before it.
fn ends_within(runs: &[Run], run: usize, to: usize) -> bool
    ensures within { result ≡ true → EndsWithin runs.now run to }
    ensures behind { result ≡ false → ReachesBehind runs.now run to }
{
    if run >= runs.len() {
        return false;
    }
    runs[run].end <= to
}

// The face of a run, or the one behind the last.
fn face_here(runs: &[Run], rest: Face, run: usize) -> Face
    ensures { (n to : ℕ) → ReachesBehind runs.now run to → n < to → face_in (drop run runs.now) rest n ≡ result }
{
    if run >= runs.len() {
        return rest;
    }
    runs[run].face
}

// Goes over one run, with a face over it, if there is one.
fn go_over_run(
    runs: &[Run],
    rest: Face,
    out: &mut Vec<Run>,
    reach: FaceReach,
    over: Option<Face>,
) -> Result<FaceReach, AllocError>
    requires { reach.run < length runs.now }
    ensures drawn { IfOk result (λ r. GoesOver over runs.now rest reach.run reach.place r.place out.old.items out.new.items) }
    ensures ahead { IfOk result (λ r. StayAhead runs.now rest reach.run reach.place r.run r.place) }
    ensures run { IfOk result (λ r. r.run ≡ reach.run + 1) }
    ensures place { IfOk result (λ r. (d : RunSeen) → r.place ≡ max (slice_index_or runs.now reach.run d).end reach.place) }
{
    let end = runs[reach.run].end.max(reach.place);
    push_run(out, reach.place, end, under(runs[reach.run].face, over))?;
    Ok(FaceReach {
        place: end,
        run: reach.run + 1,
    })
}

// Goes over runs up to before a place, with a face over them, if there is one.
fn go_over(
    runs: &[Run],
    rest: Face,
    out: &mut Vec<Run>,
    reach: FaceReach,
    to: usize,
    over: Option<Face>,
) -> Result<FaceReach, AllocError>
    requires { reach.place ≤ to }
    ensures drawn { OnOk result (GoesOver over runs.now rest reach.run reach.place to out.old.items out.new.items) }
    ensures place { IfOk result (λ r. r.place ≡ to) }
    ensures ahead { IfOk result (λ r. StayAhead runs.now rest reach.run reach.place r.run to) }
{
    let mut now = reach;
    while ends_within(runs, now.run, to) {
        now = go_over_run(runs, rest, out, now, over)?;
    }
    push_run(
        out,
        now.place,
        to,
        under(face_here(runs, rest, now.run), over),
    )?;
    Ok(FaceReach {
        place: to,
        run: now.run,
    })
}

// Lays one face over, behind all that was gone over.
fn lay_one(
    runs: &[Run],
    rest: Face,
    out: &mut Vec<Run>,
    reach: FaceReach,
    over: Over,
) -> Result<FaceReach, AllocError>
    requires begins { reach.place ≤ over.from }
    requires ends { over.from ≤ over.to }
    ensures drawn { OnOk result (LaysOne over runs.now rest reach.run reach.place out.old.items out.new.items) }
    ensures place { IfOk result (λ r. r.place ≡ over.to) }
    ensures ahead { IfOk result (λ r. StayAhead runs.now rest reach.run reach.place r.run over.to) }
{
    let begun = go_over(runs, rest, out, reach, over.from, None)?;
    go_over(runs, rest, out, begun, over.to, Some(over.face))
}

// Goes over the runs that are left.
fn finish(runs: &[Run], rest: Face, out: &mut Vec<Run>, reach: FaceReach) -> Result<(), AllocError>
    ensures { OnOk result (Finishes runs.now rest reach.run reach.place out.old.items out.new.items) }
{
    let mut now = reach;
    while now.run < runs.len() {
        now = go_over_run(runs, rest, out, now, None)?;
    }
    Ok(())
}

/// Lays faces over runs, in one pass over both: the places of each face are behind those of the one before it.
pub(crate) fn lay(
    runs: &[Run],
    rest: Face,
    out: &mut Vec<Run>,
    overs: &[Over],
) -> Result<(), AllocError>
    requires ascending { AreAscending 0 overs.now }
    requires none { out.old.items ≡ [] }
    ensures { OnOk result ((n : ℕ) → face_in out.new.items rest n ≡ over_all overs.now n (face_in runs.now rest n)) }
{
    let mut reach = FaceReach { place: 0, run: 0 };
    for over in overs {
        reach = lay_one(runs, rest, out, reach, *over)?;
    }
    finish(runs, rest, out, reach)?;
    Ok(())
}
