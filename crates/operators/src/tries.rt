//! What proofs remember of jobs and tries. Nothing of it has bytes.
ghost use Rattle.std.specs.Prelude.{◌≡◌};

use instance_machine::Outcome;
use sched_state::Job;
use std::marker::Model;
use std::snapshot::Snapshot;

/// A job as it was. Contracts see the job.
#[derive(Drop)]
pub(crate) struct Remembered {
    job: Snapshot<Job>,
}

impl Model for Remembered {
    ghost use Rattle.sched_state.specs.declared.jobs.Job.{Job};

    ghost Value = { Job };

    ghost view = { λ t. t.job.value };
}

impl Remembered {
    /// The job as it is.
    pub fn of(job: &Job) -> Remembered
        ensures { result ≡ job.now }
    {
        Remembered {
            job: Snapshot::of(job),
        }
    }
}

/// A try that was performed. Contracts see its job and its outcome.
#[derive(Drop)]
pub(crate) struct Performed {
    job: Snapshot<Job>,
    outcome: Snapshot<Outcome>,
}

impl Model for Performed {
    ghost use Rattle.instance_machine.specs.declared.tries.Outcome.{Outcome};
    ghost use Rattle.sched_state.specs.declared.jobs.Job.{Job};

    ghost Value = { Job × Outcome };

    ghost view = { λ p. (p.job.value, p.outcome.value) };
}

impl Performed {
    /// The job as it is, with the outcome.
    pub fn of(job: &Job, outcome: Outcome) -> Performed
        ensures { result ≡ (job.now, outcome) }
    {
        Performed {
            job: Snapshot::of(job),
            outcome: Snapshot::of(&outcome),
        }
    }
}
