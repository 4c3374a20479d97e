//! The operator of tasks that do nothing (Airflow 2, `EmptyOperator`).
ghost use Rattle.std.specs.Prelude.{◌≡◌, None, [], false};
ghost use Rattle.graph_file.specs.declared.operators.Operator.TheVariants as kinds;

use crate::{BeginFault, Operator, Progress};
use graph_file::Operator as Kind;
use instance_machine::Outcome;
use sched_state::Job;
use std::alloc::Global;

/// Succeeds at each job.
#[derive(Drop)]
pub struct Noop {
    progress: Progress,
}

impl Noop {
    /// An operator that has performed nothing. This takes no memory.
    pub fn new(alloc: Global) -> Noop
        ensures runs { ⟦<Noop as Operator>⟧.runs_of result ≡ [] }
        ensures refused { ⟦<Noop as Operator>⟧.refused_of result ≡ [] }
        ensures taken { (⟦<Noop as Operator>⟧.taken result ≡ None)
            × (⟦<Noop as Operator>⟧.performed result ≡ false) }
        ensures kind { ⟦<Noop as Operator>⟧.kind_of result ≡ kinds.Noop }
    {
        Noop {
            progress: Progress::new(alloc),
        }
    }
}

impl Operator for Noop {
    ghost kind_of = { λ _. kinds.Noop };

    ghost runs_of = { λ o. o.progress.runs };

    ghost refused_of = { λ o. o.progress.refused };

    ghost taken = { λ o. o.progress.taken };

    ghost performed = { λ o. o.progress.performed };

    fn kind(&self) -> Kind {
        Kind::Noop
    }

    fn runs(&self) -> &[(u64, Outcome)] {
        self.progress.runs()
    }

    fn begin(&mut self, job: &Job) -> Result<(), BeginFault> {
        self.progress.begin(job)
    }

    fn perform(&mut self, job: &Job) -> Outcome {
        let outcome = Outcome::Success;
        self.progress.add_outcome(job, outcome);
        outcome
    }

    fn finish(&mut self) {
        self.progress.give_up();
    }
}
