//! The operator of tasks whose tries end with statuses that are written down.
ghost use Rattle.std.specs.Prelude.{◌≡◌, None, [], false};
ghost use Rattle.graph_file.specs.declared.operators.Operator.TheVariants as kinds;
ghost use Rattle.graph_file.specs.Operators.{status_of};
ghost use Rattle.operators.specs.Outcomes.{exit_outcome, text_of_try};

use crate::commands::outcome_of_status;
use crate::{BeginFault, Operator, Progress};
use graph_file::{Argument, Operator as Kind, read_status};
use instance_machine::Outcome;
use sched_state::Job;
use std::alloc::Global;

/// Ends each try with the status that its arguments have for it.
#[derive(Drop)]
pub struct Exit {
    progress: Progress,
}

impl Exit {
    /// An operator that has performed nothing. This takes no memory.
    pub fn new(alloc: Global) -> Exit
        ensures runs { ⟦<Exit as Operator>⟧.runs_of result ≡ [] }
        ensures refused { ⟦<Exit as Operator>⟧.refused_of result ≡ [] }
        ensures taken { (⟦<Exit as Operator>⟧.taken result ≡ None)
            × (⟦<Exit as Operator>⟧.performed result ≡ false) }
        ensures kind { ⟦<Exit as Operator>⟧.kind_of result ≡ kinds.Exit }
    {
        Exit {
            progress: Progress::new(alloc),
        }
    }
}

impl Operator for Exit {
    ghost kind_of = { λ _. kinds.Exit };

    ghost runs_of = { λ o. o.progress.runs };

    ghost refused_of = { λ o. o.progress.refused };

    ghost taken = { λ o. o.progress.taken };

    ghost performed = { λ o. o.progress.performed };

    fn kind(&self) -> Kind {
        Kind::Exit
    }

    fn runs(&self) -> &[(u64, Outcome)] {
        self.progress.runs()
    }

    fn begin(&mut self, job: &Job) -> Result<(), BeginFault> {
        self.progress.begin(job)
    }

    fn perform(&mut self, job: &Job) -> Outcome {
        let outcome = outcome_of_try(job.action.argv(), job.try_number);
        self.progress.add_outcome(job, outcome);
        outcome
    }

    fn finish(&mut self) {
        self.progress.give_up();
    }
}

// What the status for the try with this number says. A text that is none is a failure, which no job of this kind has.
fn outcome_of_try(argv: &[Argument], try_number: usize) -> Outcome
    ensures { result ≡ exit_outcome argv.now try_number }
{
    match status_of_try(argv, try_number) {
        Some(status) => outcome_of_status(status),
        None => Outcome::Failed,
    }
}

// The status for the try with this number.
fn status_of_try(argv: &[Argument], try_number: usize) -> Option<u8>
    ensures { result ≡ status_of (text_of_try argv.now try_number) }
{
    if argv.is_empty() {
        return None;
    }
    let at = try_number.saturating_sub(1).min(argv.len() - 1);
    read_status(argv[at].as_str())
}
