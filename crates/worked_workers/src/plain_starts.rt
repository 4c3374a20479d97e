//! An operator that starts `true` and does no more: the cost of a start alone.
ghost use Rattle.std.specs.Prelude.{◌≡◌, false};
ghost use Rattle.graph_file.specs.declared.operators.Operator.TheVariants as kinds;
ghost use Rattle.operators.specs.Outcomes.{is_lost};

use graph_file::Operator as Kind;
use instance_machine::Outcome;
use operators::{BeginFault, Operator, Progress, outcome_of_code};
use sched_state::Job;
use std::alloc::Global;
use std::io;
use std::process::{Command, Processes, Stdio};

/// Starts `true` for each job, without a folder.
#[derive(Drop)]
pub(crate) struct Plain<R: Processes> {
    progress: Progress,
    rt: R,
    alloc: Global,
}

impl<R: Processes + Drop> Plain<R> {
    /// An operator that has performed nothing.
    pub fn new(rt: R, alloc: Global) -> Plain<R> {
        Plain {
            progress: Progress::new(alloc),
            rt,
            alloc,
        }
    }
}

impl<R: Processes + Drop> Operator for Plain<R> {
    ghost kind_of = { λ _. kinds.Command };

    ghost runs_of = { λ o. o.progress.runs };

    ghost refused_of = { λ o. o.progress.refused };

    ghost taken = { λ o. o.progress.taken };

    ghost performed = { λ o. o.progress.performed };

    fn kind(&self) -> Kind {
        Kind::Command
    }

    fn runs(&self) -> &[(u64, Outcome)] {
        self.progress.runs()
    }

    fn begin(&mut self, job: &Job) -> Result<(), BeginFault> {
        self.progress.begin(job)
    }

    fn perform(&mut self, job: &Job) -> Outcome {
        let outcome = start(&self.rt, self.alloc);
        self.progress.add_outcome(job, outcome);
        outcome
    }

    fn finish(&mut self) {
        self.progress.give_up();
    }
}

// Starts the program, and waits for it.
fn start<R: Processes>(rt: &R, alloc: Global) -> Outcome
    ensures { is_lost result ≡ false }
{
    match code_of(rt, alloc) {
        Ok(code) => outcome_of_code(code),
        Err(_) => Outcome::Failed,
    }
}

fn code_of<R: Processes>(rt: &R, alloc: Global) -> io::Result<Option<i32>> {
    let mut command = Command::new(alloc, "true")?;
    command.stdin(Stdio::null());
    command.stdout(Stdio::null());
    command.stderr(Stdio::null());
    let status = command.status(rt)?;
    Ok(status.code())
}
