//! The faces of the places of a line as runs.

ghost use Rattle.std.specs.Prelude.{◌≡◌, ℕ, ◌≤◌, ◌<◌, true, false, length, slice_range, slice_index_or, OnOk};
ghost use Rattle.face_grounds.specs.declared.ground.Over.{Over as OverSeen};
ghost use Rattle.face_grounds.specs.Grounds.{everywhere, ground_at, over_all};
ghost use Rattle.face_grounds.specs.Laying.{AreAscending, LiesNowhere};

use crate::overlay::lay;
use kak_faces::Face;
use std::alloc::{AllocError, Global};
use std::marker::Model;

/// Places up to before one that have one face: those that no run before it has.
#[derive(Clone, Copy, Debug)]
pub struct Run {
    pub end: usize,
    pub face: Face,
}

/// A face that lies over the places from one to before another.
#[derive(Clone, Copy, Debug)]
pub struct Over {
    pub from: usize,
    pub to: usize,
    pub face: Face,
}

/// The faces of the places of a line, however long it is. Contracts see the runs and the face behind the last of them.
#[derive(Drop, Debug)]
pub struct Ground {
    runs: Vec<Run>,
    rest: Face,
    // where the runs are made anew
    spare: Vec<Run>,
}

impl Model for Ground {
    ghost use Rattle.face_grounds.specs.Grounds.{Seen};

    ghost Value = { Seen };

    ghost view = { λ g. record { runs = g.runs.items; rest = g.rest } };
}

impl Ground {
    /// One face everywhere. Takes no memory.
    pub fn new(alloc: Global, face: Face) -> Ground
        ensures { result ≡ everywhere face }
    {
        Ground {
            runs: Vec::new(alloc),
            rest: face,
            spare: Vec::new(alloc),
        }
    }

    /// One face everywhere, from now on. The memory is kept for the next faces that are laid.
    pub fn reset(&mut self, face: Face)
        ensures { self.new ≡ everywhere face }
    {
        self.runs.clear();
        self.rest = face;
    }

    /// The runs.
    pub fn runs(&self) -> &[Run]
        ensures { result.now ≡ self.now.runs }
    {
        self.runs.as_slice()
    }

    /// The face of all places behind the last run.
    pub fn rest(&self) -> Face
        ensures { result ≡ self.now.rest }
    {
        self.rest
    }

    /// The face of a place.
    pub fn face_at(&self, place: usize) -> Face
        ensures { result ≡ ground_at self.now place }
    {
        for run in self.runs.as_slice() {
            if place < run.end {
                return run.face;
            }
        }
        self.rest
    }

    /// Lays faces over, one behind the other, wherever they lie: in one pass for each row of them whose places ascend. An
    /// `Err` leaves some of them laid.
    pub fn lay_all(&mut self, overs: &[Over]) -> Result<(), AllocError>
        ensures { OnOk result ((n : ℕ) → ground_at self.new n ≡ over_all overs.now n (ground_at self.old n)) }
    {
        let mut at = 0;
        while at < overs.len() {
            let to = ascending_to(overs, at);
            self.lay_block(&overs[at..to])?;
            at = to.max(at + 1);
        }
        Ok(())
    }

    // Lays faces over, the places of each behind those of the one before it.
    fn lay_block(&mut self, overs: &[Over]) -> Result<(), AllocError>
        requires { AreAscending 0 overs.now }
        ensures { OnOk result ((n : ℕ) → ground_at self.new n ≡ over_all overs.now n (ground_at self.old n)) }
    {
        self.spare.clear();
        lay(self.runs.as_slice(), self.rest, &mut self.spare, overs)?;
        std::mem::swap(&mut self.runs, &mut self.spare);
        Ok(())
    }
}

// The number of the first face from one on that doesn't lie behind the one before it, or that ends before it begins; or
// how many there are.
fn ascending_to(overs: &[Over], at: usize) -> usize
    requires { at ≤ length overs.now }
    ensures from { at ≤ result }
    ensures inside { result ≤ length overs.now }
    ensures ascending { AreAscending 0 (slice_range overs.now at result) }
    ensures stuck { result ≡ at → at < length overs.now → (d : OverSeen) → LiesNowhere (slice_index_or overs.now at d) }
{
    let mut place = 0;
    for k in at..overs.len() {
        if !follows(place, overs[k]) {
            return k;
        }
        place = overs[k].to;
    }
    overs.len()
}

// Whether a face lies behind a place, and doesn't end before it begins.
fn follows(place: usize, over: Over) -> bool
    ensures yes { result ≡ true → (place ≤ over.from) × (over.from ≤ over.to) }
    ensures no { result ≡ false → place ≡ 0 → over.to < over.from }
{
    if over.from < place {
        return false;
    }
    over.from <= over.to
}
