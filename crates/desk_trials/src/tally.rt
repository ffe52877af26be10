//! A sum that is played on a desk.
ghost use Rattle.std.specs.Prelude.{◌≡◌, [], None};

use session_desk::Played;
use std::alloc::Global;
use std::marker::Model;

/// The most additions that a tally takes.
const MOST: usize = 1_000_000;

/// The highest amount that a tally takes.
const HIGHEST: u32 = 1_000;

/// An amount that was added, and who added it.
#[derive(Clone, Copy, Debug)]
pub struct Addition {
    pub who: u32,
    pub amount: u32,
}

/// Why a move was refused.
#[derive(Clone, Copy, PartialEq, Eq, Debug)]
pub enum Refusal {
    /// A move of 0, or any move at a million additions.
    Zero,
    /// A move above a thousand, and each move after one.
    Stuck,
    /// There was no memory for a move that would have been taken.
    NoMemory,
}

/// A sum, with all that was added to it. Contracts see the additions and the mark.
#[derive(Drop)]
pub struct Tally {
    additions: Vec<Addition>,
    sum: u64,
    mark: Option<u64>,
}

impl Model for Tally {
    ghost use Rattle.std.specs.Prelude.{◌≡◌, ◌≤◌, ◌*◌, length};
    ghost use Rattle.desk_trials.specs.Tally.{TallyView, sum_of};

    ghost Value = { TallyView };

    ghost view = { λ t. record { additions = t.additions.items; mark = t.mark } };

    ghost invariant = { λ t. (t.sum ≡ sum_of t.additions.items) × (t.sum ≤ 1000 * length t.additions.items) × (length t.additions.items ≤ 1000000) };
}

impl Tally {
    ghost use Rattle.std.specs.Prelude.{◌≡◌, [], None};
    ghost use Rattle.desk_trials.specs.Tally.{sum_of};

    /// A sum of 0.
    pub fn new(alloc: Global) -> Tally
        ensures additions { result.additions ≡ [] }
        ensures mark { result.mark ≡ None }
    {
        Tally {
            additions: Vec::new(alloc),
            sum: 0,
            mark: None,
        }
    }

    /// The sum of all amounts.
    pub fn sum(&self) -> u64
        ensures { result ≡ sum_of self.now.additions }
    {
        self.sum
    }
}

impl Played for Tally {
    ghost use Rattle.std.specs.Prelude.{◌≡◌};
    ghost use Rattle.desk_trials.specs.Tally.{IsTallyAnswer, who_of, sum_of};

    type Move = u32;

    type Reply = u64;

    type Fault = Refusal;

    type Glimpse = u64;

    type Entry = Addition;

    type Frame = ();

    ghost entries = { λ t. t.additions };

    ghost maker = { who_of };

    ghost marked = { λ t. t.mark };

    ghost frame = { λ t. tt };

    ghost answers = { λ f before mark who mv result after mark'. IsTallyAnswer before mark who mv result after mark' };

    ghost shows = { λ f additions mark who total. total ≡ sum_of additions };

    fn play(&mut self, _alloc: Global, who: u32, mv: &u32) -> Result<u64, Refusal> {
        if self.mark.is_some() {
            return Err(Refusal::Stuck);
        }
        if *mv == 0 || self.additions.len() >= MOST {
            return Err(Refusal::Zero);
        }
        if *mv > HIGHEST {
            self.mark = Some(self.additions.len() as u64);
            return Err(Refusal::Stuck);
        }
        if self.additions.push(Addition { who, amount: *mv }).is_err() {
            return Err(Refusal::NoMemory);
        }
        let before = self.sum;
        self.sum += *mv as u64;
        Ok(before)
    }

    fn count(&self) -> u64 {
        self.additions.len() as u64
    }

    fn mark(&self) -> Option<u64> {
        self.mark
    }

    fn glimpse(&self, _who: u32) -> u64 {
        self.sum
    }
}
