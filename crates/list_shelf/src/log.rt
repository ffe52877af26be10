//! The log of the shifts of a text, which gives those from a stamp on as one slice.

ghost use Rattle.std.specs.Prelude.{◌≡◌, ◌<◌, ◌≤◌, OnOk, OnErr};
ghost use Rattle.change_list.specs.Logs.{stamp_of, fresh, pushed, trimmed};
ghost use Rattle.change_list.specs.declared.log.TheConstants.{MAX_STAMP};
ghost use Rattle.list_shelf.specs.Lagging.{since};

use std::alloc::{AllocError, Global};
use std::marker::Model;
use text_model::Shift;

/// The last shifts of a text, in order, of which those from any stamp on are one slice.
#[derive(Drop, Debug)]
pub struct SliceLog {
    first: u64,
    shifts: Vec<Shift>,
}

impl Model for SliceLog {
    ghost use Rattle.std.specs.Prelude.{◌+◌, ◌≤◌, length};
    ghost use Rattle.change_list.specs.Logs.{Logged};
    ghost use Rattle.change_list.specs.declared.log.TheConstants.{MAX_STAMP};

    ghost Value = { Logged };

    ghost view = { λ a. record { first = a.first; shifts = a.shifts.items } };

    ghost invariant = { λ a. a.first + length a.shifts.items ≤ MAX_STAMP };
}

impl SliceLog {
    /// A log that holds nothing and stands at stamp 0; takes no memory.
    pub fn new(alloc: Global) -> SliceLog
        ensures { result ≡ fresh }
    {
        SliceLog {
            first: 0,
            shifts: Vec::new(alloc),
        }
    }

    /// Adds a shift at the end. After an error the log is as it was.
    pub fn push(&mut self, shift: Shift) -> Result<(), AllocError>
        requires { stamp_of self.old < MAX_STAMP }
        ensures ok { OnOk result (self.new ≡ pushed self.old shift) }
        ensures err { OnErr result (self.new ≡ self.old) }
    {
        self.shifts.push(shift)?;
        Ok(())
    }

    /// Drops all shifts, and begins again at stamp 0.
    pub fn restart(&mut self)
        ensures { self.new ≡ fresh }
    {
        self.first = 0;
        self.shifts.clear();
    }

    /// Drops the shifts before a stamp. It costs what is dropped and what is left, and nothing where nothing is dropped.
    pub fn trim(&mut self, to: u64)
        requires first { self.old.first ≤ to }
        requires last { to ≤ stamp_of self.old }
        ensures { self.new ≡ trimmed self.old to }
    {
        let less = (to - self.first) as usize;
        self.first = to;
        drop(self.shifts.drain(..less));
    }

    /// The stamp of the first shift that is held.
    pub fn first(&self) -> u64
        ensures value { result ≡ self.now.first }
        ensures valid { stamp_of self.now ≤ MAX_STAMP }
    {
        self.first
    }

    /// The stamp behind the last shift: the first one and the number of shifts that are held.
    pub fn stamp(&self) -> u64
        ensures value { result ≡ stamp_of self.now }
        ensures valid { stamp_of self.now ≤ MAX_STAMP }
    {
        self.first + self.shifts.len() as u64
    }

    /// The shifts from a stamp on.
    pub fn since(&self, stamp: u64) -> &[Shift]
        requires first { self.now.first ≤ stamp }
        requires last { stamp ≤ stamp_of self.now }
        ensures { result.now ≡ since self.now stamp }
    {
        &self.shifts[(stamp - self.first) as usize..]
    }
}
