//! A spawner that runs each job in a thread of its own.

ghost use Rattle.std.specs.Prelude.{◌≡◌, Bool, map, IfOk, IsTrue};
ghost use Rattle.jobs.specs.Meets.{Meet};
ghost use Rattle.jobs.specs.Threads.{BeginsJob};

use crate::job::Job;
use crate::spawner::{Spawner, Started};
use std::alloc::{AllocError, Global};
use std::sync::Wait;
use std::thread::Threads;

/// What came of a job for which a thread was to be made.
#[derive(Drop)]
pub enum Begun<J, H> {
    /// The job is at work, and this waits for it.
    There(H),
    /// No thread could be made. The job is handed back and was not run.
    Back(J),
    /// Memory is wanting. The job is handed back and was not run.
    NoMemory(J),
}

/// A job that was begun and is to be waited for.
pub trait Handle<J: Job>: Drop {
    // The job.
    ghost job: { Self → J };

    // Whether its thread was let go.
    ghost let_go: { Self → Bool };

    /// Lets the thread go, and keeps the result, if the job has ended. Tells whether the thread is let go now.
    fn settle<R: Threads>(&mut self, rt: &R) -> bool
        ensures job { job self.new ≡ job self.old }
        ensures let_go { result ≡ let_go self.new }
        ensures stays { IsTrue (let_go self.old) → IsTrue (let_go self.new) };

    /// Waits for the result.
    fn end<R: Threads + Wait>(self, rt: &R) -> J::Gives
        ensures { J.gives (job self) result };
}

// Waits for all jobs, in order. They have ended where memory is wanting too.
fn gather_all<R: Threads + Wait, J: Job, H: Handle<J>>(
    rt: &R,
    alloc: Global,
    runs: Vec<H>,
) -> Result<Vec<J::Gives>, AllocError>
    ensures { IfOk result (λ given. Meet J.gives (map H.job runs.items) given.items) }
{
    let Ok(mut all) = Vec::with_capacity(alloc, runs.len()) else {
        for run in runs {
            run.end(rt);
        }
        return Err(AllocError);
    };
    for run in runs {
        let Ok(()) = all.push(run.end(rt)) else {
            unreachable!()
        };
    }
    Ok(all)
}

// Lets go the thread of the job at a place, if it has ended. Tells whether nothing is left to be let go there.
fn settle_one<R: Threads, J: Job, H: Handle<J>>(rt: &R, runs: &mut [H], place: usize) -> bool
    ensures { map H.job runs.new ≡ map H.job runs.old }
{
    if runs.len() <= place {
        return true;
    }
    runs[place].settle(rt)
}

// Lets go the threads of the jobs that have ended: these stand at some of the places, which then are the others.
fn settle<R: Threads, J: Job, H: Handle<J>>(rt: &R, runs: &mut [H], places: &mut Vec<usize>)
    ensures { map H.job runs.new ≡ map H.job runs.old }
{
    let mut next = 0;
    while next < places.len() {
        if settle_one(rt, runs, places[next]) {
            places.swap_remove(next);
        } else {
            next += 1;
        }
    }
}

/// A spawner that runs each job in a thread of its own, at the same time as all others. Where no thread can be made, the
/// job is handed back at once. A start lets go the threads of the jobs that have ended by then, and keeps their results.
#[derive(Drop)]
pub struct ThreadSpawner<R: Drop, H: Drop, F: Drop> {
    rt: R,
    alloc: Global,
    begin: F,
    runs: Vec<H>,
    // the places of the runs whose threads weren't let go yet
    unsettled: Vec<usize>,
    faults: u64,
}

impl<R: Drop, H: Drop, F: Drop> ThreadSpawner<R, H, F> {
    ghost use Rattle.std.specs.Prelude.{◌≡◌, []};

    /// No job is started. Jobs will be begun by `begin`, which is to call the function `begin` of this crate: only `main`
    /// and tests can say which handle the threads get.
    pub fn new(rt: R, alloc: Global, begin: F) -> ThreadSpawner<R, H, F>
        ensures begin { result.begin ≡ begin }
        ensures runs { result.runs.items ≡ [] }
        ensures faults { result.faults ≡ 0 }
    {
        ThreadSpawner {
            rt,
            alloc,
            begin,
            runs: Vec::new(alloc),
            unsettled: Vec::new(alloc),
            faults: 0,
        }
    }
}

impl<R: Threads + Wait + Drop, J: Job, H: Handle<J>, F: Fn(J) -> Begun<J, H> + Drop> Spawner<J>
    for ThreadSpawner<R, H, F> {
    ghost use Rattle.jobs.specs.declared.threads.Begun.{Begun};

    ghost fit = { λ s. ((j : J) → J.ready j → F.pre s.begin j) × ((j : J) (r : Begun J H) → F.post s.begin j r → BeginsJob H.job j r) };

    ghost started = { λ s. map H.job s.runs.items };

    ghost faults = { λ s. s.faults };

    fn start(&mut self, job: J) -> Started<J> {
        settle(&self.rt, &mut self.runs, &mut self.unsettled);
        if self.runs.reserve(1).is_err() {
            return Started::NoMemory(job);
        }
        if self.unsettled.reserve(1).is_err() {
            return Started::NoMemory(job);
        }
        match (self.begin)(job) {
            Begun::There(handle) => {
                let Ok(()) = self.unsettled.push(self.runs.len()) else {
                    unreachable!()
                };
                let Ok(()) = self.runs.push(handle) else {
                    unreachable!()
                };
                Started::Runs
            }
            Begun::Back(job) => {
                self.faults = self.faults.saturating_add(1);
                Started::Back(job)
            }
            Begun::NoMemory(job) => Started::NoMemory(job),
        }
    }

    fn gather<W: Wait>(&mut self, _rt: &W) -> Result<Vec<J::Gives>, AllocError> {
        let runs = std::mem::replace(&mut self.runs, Vec::new(self.alloc));
        self.unsettled.clear();
        gather_all(&self.rt, self.alloc, runs)
    }
}
