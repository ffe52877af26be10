//! The promise of a job, as a thread carries it.

use crate::job::Job;
use crate::spent::Outcome;
use std::marker::Model;
use std::snapshot::Snapshot;
use std::thread::Promise;

/// The promise of a job. Contracts see the job.
#[derive(Drop)]
pub struct PromiseOf<J: Job> {
    job: Snapshot<J>,
}

impl<J: Job> Model for PromiseOf<J> {
    ghost Value = { J };

    ghost view = { λ p. p.job.value };
}

impl<J: Job> PromiseOf<J> {
    ghost use Rattle.std.specs.Prelude.{◌≡◌};

    /// That of this job.
    pub fn new(job: &J) -> PromiseOf<J>
        ensures { result ≡ job.now }
    {
        PromiseOf {
            job: Snapshot::of(job),
        }
    }
}

impl<J: Job> Promise<Outcome<J, J::Gives>> for PromiseOf<J> {
    ghost use Rattle.jobs.specs.Threads.{ComesBack};

    ghost kept_by = { λ p outcome. ComesBack J.ready J.gives p outcome };
}
