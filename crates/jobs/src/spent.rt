//! A job on its way to a thread, which can be recalled as long as no thread has it.

use std::alloc::{AllocError, Global};
use std::sync::Arc;
use std::sync::atomic::{AtomicBool, Ordering};

/// What became of a job on its way to a thread.
#[derive(Drop)]
pub enum Outcome<J, G> {
    /// It was run, and gave this.
    Ran(G),
    /// It was recalled before it was run.
    Recalled(J),
}

/// Whether a job is spent: it was run, or recalled before it was run. Copies stand for the same job.
#[derive(Drop)]
pub(crate) struct Spent {
    spent: Arc<AtomicBool, Global>,
}

impl Spent {
    /// The job isn't spent yet.
    pub(crate) fn new(alloc: Global) -> Result<Spent, AllocError> {
        Ok(Spent {
            spent: Arc::new(alloc, AtomicBool::new(false))?,
        })
    }

    /// One more that stands for the same job.
    pub(crate) fn share(&self) -> Result<Spent, AllocError> {
        Ok(Spent {
            spent: Arc::try_clone(&self.spent)?,
        })
    }

    /// The job was run, or is recalled.
    pub(crate) fn set(&self) {
        self.spent.store(true, Ordering::SeqCst);
    }

    /// Whether the job is spent.
    pub(crate) fn is_set(&self) -> bool {
        self.spent.load(Ordering::SeqCst)
    }
}
