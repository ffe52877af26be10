//! Calls that are planned to fail, and counted where they do.

ghost use Rattle.std.specs.Prelude.{◌≡◌, IsTrue, true, false};
ghost use Rattle.kak_ports.specs.Plans.{is_planned, after_call, faults_after};
ghost use Rattle.kak_ports.specs.Ports.{Rose};

use kak_ports::FailingCalls;

// Which calls fail, and how often one did.
#[derive(Drop, Debug)]
pub struct PlannedCalls {
    plan: FailingCalls,
    faults: u64,
}

impl PlannedCalls {
    // No call has failed yet.
    pub fn new(plan: FailingCalls) -> PlannedCalls
        ensures plan { result.plan ≡ plan }
        ensures faults { result.faults ≡ 0 }
    {
        PlannedCalls { plan, faults: 0 }
    }

    // Makes a call, and tells whether it is planned to fail. Where it is, a fault is counted.
    pub fn is_next_failing(&mut self) -> bool
        ensures planned { result ≡ is_planned self.old.plan }
        ensures plan { self.new.plan ≡ after_call self.old.plan }
        ensures faults { self.new.faults ≡ faults_after (is_planned self.old.plan) self.old.faults }
        ensures failing { IsTrue result → Rose self.old.faults self.new.faults }
        ensures passing { result ≡ false → self.new.faults ≡ self.old.faults }
    {
        if self.plan.is_next() {
            self.count_fault();
            return true;
        }
        false
    }

    // Counts a fault.
    pub fn count_fault(&mut self)
        ensures counted { self.new.faults ≡ faults_after true self.old.faults }
        ensures plan { self.new.plan ≡ self.old.plan }
    {
        self.faults = self.faults.saturating_add(1);
    }
}
