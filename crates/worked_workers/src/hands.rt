//! An operator with the job that it has begun and not performed.
ghost use Rattle.std.specs.Prelude.{◌≡◌, Some, false};
ghost use Rattle.sched_state.specs.declared.jobs.Job.{Job};

use instance_machine::Outcome;
use operators::{BeginFault, Operator};
use sched_state::Job;

/// An operator, and the job that it has begun and not performed, so that none is performed that was not begun.
#[derive(Drop)]
pub(crate) struct Hand<O: Operator> {
    operator: O,
    begun: Option<Job>,
    ghost is_begun: { (job : Job) → begun ≡ Some job
        → (O.taken operator ≡ Some job) × (O.performed operator ≡ false) },
}

impl<O: Operator> Hand<O> {
    /// An operator that has begun nothing.
    pub fn new(operator: O) -> Hand<O> {
        Hand {
            operator,
            begun: None,
        }
    }

    /// Begins the job.
    pub fn begin(&mut self, job: Job) -> Result<(), BeginFault> {
        self.operator.begin(&job)?;
        self.begun = Some(job);
        Ok(())
    }

    /// Performs the job that was begun, if one was.
    pub fn perform(&mut self) -> Option<Outcome> {
        let job = self.begun.take()?;
        Some(self.operator.perform(&job))
    }

    /// Gives up what is taken up.
    pub fn finish(&mut self) {
        self.begun = None;
        self.operator.finish();
    }

    /// What was performed.
    pub fn runs(&self) -> &[(u64, Outcome)] {
        self.operator.runs()
    }
}
