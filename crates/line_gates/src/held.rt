//! A gate that holds one line back.

ghost use Rattle.std.specs.Prelude.{◌≡◌};
ghost use Rattle.line_gates.specs.Awaiting.{is_met_by};

use crate::gate::Gate;
use std::alloc::{AllocError, Global};
use std::sync::atomic::{AtomicBool, Ordering};
use std::sync::{Arc, Wait};
use std::thread::Parker;
use std::time::Duration;

/// How long a turn is at most, in milliseconds.
const TURN_MILLIS: u64 = 1;

/// One line of one client: the client's number, and the number of its line, from 0.
#[derive(Clone, Copy, Debug, PartialEq, Eq)]
pub struct LineOf {
    pub who: u32,
    pub line: u64,
}

/// What has to be answered before the line that is held back may run.
#[derive(Clone, Copy, Debug, PartialEq, Eq)]
pub enum Awaited {
    /// This line.
    Line(LineOf),
    /// Any line of the client with this number.
    AnyOf(u32),
}

impl Awaited {
    /// Whether this is the line that is awaited, or one of those of which one is.
    pub fn is_met_by(self, line: LineOf) -> bool
        ensures { result ≡ is_met_by self line }
    {
        match self {
            Awaited::Line(awaited) => awaited == line,
            Awaited::AnyOf(client) => client == line.who,
        }
    }
}

// What the clones of a gate share.
#[derive(Drop)]
struct Shared {
    held: LineOf,
    awaited: Awaited,
    // how many turns the line is held back at most
    turns: u32,
    answered: AtomicBool,
    overdue: AtomicBool,
    parker: Parker,
}

impl Shared {
    // Waits until the awaited line was answered, or for all turns.
    fn wait<R: Wait>(&self, rt: &R) {
        for _ in 0..self.turns {
            if self.answered.load(Ordering::SeqCst) {
                return;
            }
            self.parker
                .park_timeout(rt, Duration::from_millis(TURN_MILLIS));
        }
        if !self.answered.load(Ordering::SeqCst) {
            self.overdue.store(true, Ordering::SeqCst);
        }
    }

    // Lets the line run that is held back.
    fn release(&self) {
        self.answered.store(true, Ordering::SeqCst);
        self.parker.unpark();
    }
}

/// Holds one line of one client back until a line of another one was answered, and for a number of turns at most, after
/// which it runs all the same. A clone is the same gate.
#[derive(Drop, Clone)]
pub struct HeldGate {
    shared: Arc<Shared>,
}

impl HeldGate {
    /// A gate that holds the line back until what is awaited was answered, for so many turns of a millisecond at most.
    /// An `Err` is want of memory.
    pub fn new(
        alloc: Global,
        held: LineOf,
        awaited: Awaited,
        turns: u32,
    ) -> Result<HeldGate, AllocError> {
        let shared = Shared {
            held,
            awaited,
            turns,
            answered: AtomicBool::new(false),
            overdue: AtomicBool::new(false),
            parker: Parker::new(),
        };
        Ok(HeldGate {
            shared: Arc::new(alloc, shared)?,
        })
    }

    /// Whether the line was held back for all turns and ran without what it awaited.
    pub fn was_overdue(&self) -> bool {
        self.shared.overdue.load(Ordering::SeqCst)
    }
}

impl Gate for HeldGate {
    fn hold<R: Wait>(&mut self, rt: &R, who: u32, line: u64) {
        if self.shared.held == (LineOf { who, line }) {
            self.shared.wait(rt);
        }
    }

    fn passed(&mut self, who: u32, line: u64) {
        if self.shared.awaited.is_met_by(LineOf { who, line }) {
            self.shared.release();
        }
    }
}
