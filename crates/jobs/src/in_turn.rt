//! A spawner that runs jobs one after another.

ghost use Rattle.std.specs.Prelude.{◌≡◌, [], All, IfOk};
ghost use Rattle.jobs.specs.Meets.{Meet};
ghost use Rattle.jobs.specs.Plans.{is_start_planned, next_number, IsAsPlanned};
ghost use Rattle.jobs.specs.Starts.{Starts, StartIsCounted};

use crate::job::Job;
use crate::spawner::{Spawner, Started};
use std::alloc::{AllocError, Global};
use std::sync::Wait;

/// Which starts are to be handed back: the first start has the number 0.
#[derive(Drop, Debug)]
pub struct StartPlan {
    made: u64,
    back: Vec<u64>,
}

impl StartPlan {
    /// None is handed back.
    pub fn none(alloc: Global) -> StartPlan
        ensures made { result.made ≡ 0 }
        ensures back { result.back.items ≡ [] }
    {
        StartPlan {
            made: 0,
            back: Vec::new(alloc),
        }
    }

    /// The starts with these numbers are handed back.
    pub fn at(back: Vec<u64>) -> StartPlan
        ensures made { result.made ≡ 0 }
        ensures back { result.back ≡ back }
    {
        StartPlan { made: 0, back }
    }

    // Counts a start, and tells whether it is to be handed back.
    fn is_next(&mut self) -> bool
        ensures planned { result ≡ is_start_planned self.old.back.items self.old.made }
        ensures made { self.new.made ≡ next_number self.old.made }
        ensures back { self.new.back ≡ self.old.back }
    {
        let number = self.made;
        self.made = number.saturating_add(1);
        self.back.iter().any(|planned| *planned == number)
    }
}

// Runs all jobs, in order. They have ended where memory is wanting too.
fn run_all<R: Wait, J: Job>(
    rt: &R,
    alloc: Global,
    jobs: Vec<J>,
) -> Result<Vec<J::Gives>, AllocError>
    requires { All J.ready jobs.items }
    ensures { IfOk result (λ given. Meet J.gives jobs.items given.items) }
{
    let Ok(mut all) = Vec::with_capacity(alloc, jobs.len()) else {
        for job in jobs {
            job.run(rt);
        }
        return Err(AllocError);
    };
    for job in jobs {
        let Ok(()) = all.push(job.run(rt)) else {
            unreachable!()
        };
    }
    Ok(all)
}

/// A spawner that keeps the jobs, and runs them one after another where they are gathered. Some starts are planned to be
/// handed back.
#[derive(Drop)]
pub struct InTurn<J: Drop> {
    alloc: Global,
    jobs: Vec<J>,
    plan: StartPlan,
    faults: u64,
}

impl<J: Drop> InTurn<J> {
    /// No job is started.
    pub fn new(alloc: Global, plan: StartPlan) -> InTurn<J>
        ensures jobs { result.jobs.items ≡ [] }
        ensures plan { result.plan ≡ plan }
        ensures faults { result.faults ≡ 0 }
    {
        InTurn {
            alloc,
            jobs: Vec::new(alloc),
            plan,
            faults: 0,
        }
    }
}

impl<J: Job> Spawner<J> for InTurn<J> {
    ghost fit = { λ s. All J.ready s.jobs.items };

    ghost started = { λ s. s.jobs.items };

    ghost faults = { λ s. s.faults };

    fn start(&mut self, job: J) -> Started<J>
        requires ready { J.ready job }
        requires fit { All J.ready self.old.jobs.items }
        ensures fit { All J.ready self.new.jobs.items }
        ensures starts { Starts result job self.old.jobs.items self.new.jobs.items }
        ensures counted { StartIsCounted result self.old.faults self.new.faults }
        ensures planned { IsAsPlanned result (is_start_planned self.old.plan.back.items self.old.plan.made) }
        ensures made { self.new.plan.made ≡ next_number self.old.plan.made }
        ensures back { self.new.plan.back ≡ self.old.plan.back }
    {
        if self.plan.is_next() {
            self.faults = self.faults.saturating_add(1);
            return Started::Back(job);
        }
        if self.jobs.reserve(1).is_err() {
            return Started::NoMemory(job);
        }
        let Ok(()) = self.jobs.push(job) else {
            unreachable!()
        };
        Started::Runs
    }

    fn gather<R: Wait>(&mut self, rt: &R) -> Result<Vec<J::Gives>, AllocError> {
        let jobs = std::mem::replace(&mut self.jobs, Vec::new(self.alloc));
        run_all(rt, self.alloc, jobs)
    }
}
