//! Jobs in turn, and each in a thread of its own.

ghost use Rattle.std.specs.Prelude.{◌<◌};

use jobs::{
    Begun, InTurn, Job, Spawner, StartPlan, Started, Thread, ThreadSpawner, begin, begin_by,
};
use std::alloc::Global;
use std::sync::{Arc, Barrier, Wait};
use std::test::Fail;
use std::thread::Builder;

// Doubles a number, which is below 1,000.
#[derive(Drop)]
struct Doubling {
    number: u64,
}

impl Job for Doubling {
    ghost use Rattle.std.specs.Prelude.{◌≡◌, ◌<◌, ◌*◌};

    type Gives = u64;

    ghost ready = { λ j. j.number < 1000 };

    ghost gives = { λ j given. given ≡ 2 * j.number };

    fn run<R: Wait>(self, _rt: &R) -> u64 {
        2 * self.number
    }
}

// Doubles a number once another job has come as far, which takes two threads.
#[derive(Drop)]
struct Meeting {
    number: u64,
    place: Arc<Barrier, Global>,
}

impl Job for Meeting {
    ghost use Rattle.std.specs.Prelude.{◌≡◌, ◌<◌, ◌*◌};

    type Gives = u64;

    ghost ready = { λ j. j.number < 1000 };

    ghost gives = { λ j given. given ≡ 2 * j.number };

    fn run<R: Wait>(self, rt: &R) -> u64 {
        self.place.wait(rt);
        2 * self.number
    }
}

#[test]
fn jobs_in_turn_give_their_results_and_a_planned_start_is_handed_back(
    rt: HostRuntime,
) -> Result<(), Fail> {
    let alloc = rt.alloc();
    let plan = StartPlan::at(vec![in alloc; 1u64]?);
    let mut spawner = InTurn::new(alloc, plan);
    assert!(rt; matches!(&spawner.start(Doubling { number: 3 }), Started::Runs));
    let Started::Back(job) = spawner.start(Doubling { number: 4 }) else {
        return Err("the second start is handed back".into());
    };
    assert_eq!(rt; job.number, 4);
    assert!(rt; matches!(&spawner.start(Doubling { number: 5 }), Started::Runs));
    let given = spawner.gather(&rt)?;
    assert_eq!(rt; given.as_slice(), [6u64, 10].as_slice());
    assert_eq!(rt; spawner.gather(&rt)?.len(), 0);
    Ok(())
}

#[test]
fn jobs_in_threads_run_at_the_same_time_and_give_their_results_in_order(
    rt: HostRuntime,
) -> Result<(), Fail> {
    let alloc = rt.alloc();
    let place = Arc::new(alloc, Barrier::new(2))?;
    let mut spawner = ThreadSpawner::new(rt, alloc, move |job: Meeting| begin(rt, alloc, job));
    for number in 7..9 {
        let place = Arc::try_clone(&place)?;
        let started = spawner.start(Meeting { number, place });
        assert!(rt; matches!(&started, Started::Runs));
    }
    let given = spawner.gather(&rt)?;
    assert_eq!(rt; given.as_slice(), [14u64, 16].as_slice());
    Ok(())
}

#[test]
fn jobs_whose_threads_were_let_go_give_their_results_in_order_too(
    rt: HostRuntime,
) -> Result<(), Fail> {
    let alloc = rt.alloc();
    let mut spawner = ThreadSpawner::new(rt, alloc, move |job: Doubling| begin(rt, alloc, job));
    for number in 0..300u64 {
        assert!(rt; matches!(&spawner.start(Doubling { number }), Started::Runs));
    }
    let given = spawner.gather(&rt)?;
    assert_eq!(rt; given.len(), 300);
    for (number, given) in (0..300u64).zip(given) {
        assert_eq!(rt; given, number.saturating_mul(2));
    }
    Ok(())
}

#[test]
fn a_job_for_which_no_thread_can_be_made_is_handed_back(rt: HostRuntime) -> Result<(), Fail> {
    let alloc = rt.alloc();
    let mut spawner = ThreadSpawner::new(
        rt,
        alloc,
        move |job: Doubling| -> Begun<Doubling, Thread<Doubling>>
            requires { job.number < 1000 }
        { begin_by(Builder::new().stack_size(usize::MAX), rt, alloc, job) },
    );
    let Started::Back(job) = spawner.start(Doubling { number: 3 }) else {
        return Err("such a thread can't be made".into());
    };
    assert_eq!(rt; job.number, 3);
    assert_eq!(rt; spawner.gather(&rt)?.len(), 0);
    Ok(())
}
