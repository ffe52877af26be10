//! A job that is run by a thread of its own.

ghost use Rattle.std.specs.Prelude.{◌≡◌};
ghost use Rattle.jobs.specs.Running.{KeepsPromise};
ghost use Rattle.jobs.specs.Threads.{ComesBack, BeginsJob};

use crate::job::Job;
use crate::promise_of::PromiseOf;
use crate::spent::{Outcome, Spent};
use crate::threads::{Begun, Handle};
use std::alloc::Global;
use std::marker::Model;
use std::snapshot::Snapshot;
use std::sync::Wait;
use std::thread::{Builder, Promise, PromisedHandle, Threads};

/// Where a result comes from that keeps a promise.
#[derive(Drop)]
pub enum Running<T: Drop, P: Promise<T>> {
    /// From a thread.
    There(PromisedHandle<T, P>),
    /// It is here already.
    Here(T),
}

// Waits for the result.
fn result_of<R: Threads, T: Drop, P: Promise<T>>(
    rt: &R,
    running: Running<T, P>,
    promise: &Snapshot<P>,
) -> T
    requires { KeepsPromise P.kept_by running promise.now.value }
    ensures { P.kept_by promise.now.value result }
{
    let _ = promise;
    match running {
        Running::There(handle) => handle.join(rt),
        Running::Here(given) => given,
    }
}

/// A job that was begun in a thread of its own. Contracts see the job, and whether the thread was let go.
#[derive(Drop)]
pub struct Thread<J: Job> {
    // taken out while the thread is let go
    run: Option<Running<Outcome<J, J::Gives>, PromiseOf<J>>>,
    promise: Snapshot<PromiseOf<J>>,
    spent: Spent,
}

impl<J: Job> Model for Thread<J> {
    ghost use Rattle.jobs.specs.Running.{IsOwed, is_let_go};
    ghost use Rattle.jobs.specs.Threads.{ComesBack, AtWork};

    ghost Value = { AtWork J };

    ghost view = { λ t. record { job = t.promise.value; let_go = is_let_go t.run } };

    ghost invariant = { λ t. IsOwed (ComesBack J.ready J.gives) t.run t.promise.value };
}

impl<J: Job> Handle<J> for Thread<J> {
    ghost job = { λ t. t.job };

    ghost let_go = { λ t. t.let_go };

    fn settle<R: Threads>(&mut self, rt: &R) -> bool {
        if matches!(self.run, Some(Running::There(_))) && !self.spent.is_set() {
            return false;
        }
        let Some(run) = self.run.take() else {
            unreachable!()
        };
        self.run = Some(Running::Here(result_of(rt, run, &self.promise)));
        true
    }

    fn end<R: Threads + Wait>(self, rt: &R) -> J::Gives {
        let Thread {
            run,
            promise,
            spent: _,
        } = self;
        let Some(run) = run else { unreachable!() };
        match result_of(rt, run, &promise) {
            Outcome::Ran(given) => given,
            Outcome::Recalled(job) => job.run(rt),
        }
    }
}

// Runs a job that wasn't recalled, which then is spent.
pub(crate) fn attempt<R: Wait, J: Job>(job: J, spent: Spent, rt: &R) -> Outcome<J, J::Gives>
    requires { J.ready job }
    ensures { ComesBack J.ready J.gives job result }
{
    if spent.is_set() {
        return Outcome::Recalled(job);
    }
    let given = job.run(rt);
    spent.set();
    Outcome::Ran(given)
}

// What came of a job that was recalled from its closure, since no thread could be made. Were it run for all that, its
// result would be kept.
fn recalled<J: Job>(
    outcome: Outcome<J, J::Gives>,
    promise: Snapshot<PromiseOf<J>>,
    spent: Spent,
) -> Begun<J, Thread<J>>
    requires { ComesBack J.ready J.gives promise.value outcome }
    ensures { BeginsJob (λ t. t.job) promise.value result }
{
    match outcome {
        Outcome::Recalled(job) => Begun::Back(job),
        ran => Begun::There(Thread {
            run: Some(Running::Here(ran)),
            promise,
            spent,
        }),
    }
}

/// Begins a job in a thread that is made so, as one of a larger stack. It is handed back where none can be made.
pub fn begin_by<R: Threads + Wait + Copy + Send + 'static, J: Job + Send + 'static>(
    maker: Builder,
    rt: R,
    alloc: Global,
    job: J,
) -> Begun<J, Thread<J>>
where
    J::Gives: Send + 'static,
    requires { J.ready job }
    ensures { BeginsJob (λ t. t.job) job result }
{
    let Ok(spent) = Spent::new(alloc) else {
        return Begun::NoMemory(job);
    };
    let Ok(theirs) = spent.share() else {
        return Begun::NoMemory(job);
    };
    let promise = PromiseOf::new(&job);
    let copy = Snapshot::of(&promise);
    let run = move || -> Outcome<J, J::Gives>
        requires { J.ready job }
        ensures { ComesBack J.ready J.gives job result }
    { attempt(job, theirs, &rt) };
    match maker.spawn_with(&rt, promise, run) {
        Ok(handle) => Begun::There(Thread {
            run: Some(Running::There(handle)),
            promise: copy,
            spent,
        }),
        Err(refused) => {
            spent.set();
            recalled((refused.value)(), copy, spent)
        }
    }
}

/// Begins a job in a thread of its own, which runs with `rt`. Where no thread can be made, the job is recalled from the
/// closure that was to run there, and handed back.
pub fn begin<R: Threads + Wait + Copy + Send + 'static, J: Job + Send + 'static>(
    rt: R,
    alloc: Global,
    job: J,
) -> Begun<J, Thread<J>>
where
    J::Gives: Send + 'static,
    requires { J.ready job }
    ensures { BeginsJob (λ t. t.job) job result }
{
    begin_by(Builder::new(), rt, alloc, job)
}
