//! Who runs jobs.

ghost use Rattle.std.specs.Prelude.{◌≡◌, ℕ, List, [], IfOk};
ghost use Rattle.jobs.specs.Starts.{Starts, StartIsCounted};
ghost use Rattle.jobs.specs.Meets.{Meet};

use crate::job::Job;
use std::alloc::AllocError;
use std::sync::Wait;

/// What a `start` answers.
#[derive(Drop)]
pub enum Started<J> {
    /// The job was started: its result is among those of the next `gather`.
    Runs,
    /// Nobody could be made to run it, and the count of faults rose. The job is handed back and was not run.
    Back(J),
    /// Memory is wanting. The job is handed back and was not run.
    NoMemory(J),
}

/// Who runs jobs.
pub trait Spawner<J: Job> {
    // When it may be used.
    ghost fit: { Self → Type 0 };

    // The jobs that were started and not yet gathered, in order of start.
    ghost started: { Self → List J };

    // How often a job was handed back for a fault.
    ghost faults: { Self → ℕ };

    /// Starts a job. It may be run at once, at the same time as all others, or as late as in `gather`.
    fn start(&mut self, job: J) -> Started<J>
        requires ready { J.ready job }
        requires fit { fit self.old }
        ensures fit { fit self.new }
        ensures starts { Starts result job (started self.old) (started self.new) }
        ensures counted { StartIsCounted result (faults self.old) (faults self.new) };

    /// Waits until all started jobs have ended, and gives their results in order of start. Where memory is wanting they
    /// have ended too, and their results are dropped.
    fn gather<R: Wait>(&mut self, rt: &R) -> Result<Vec<J::Gives>, AllocError>
        requires { fit self.old }
        ensures fit { fit self.new }
        ensures meet { IfOk result (λ given. Meet J.gives (started self.old) given.items) }
        ensures none { started self.new ≡ [] }
        ensures faults { faults self.new ≡ faults self.old };
}
