//! An operator of whichever kind, so that a worker may have one of each.
ghost use Rattle.std.specs.Prelude.{◌≡◌, All, IfOk, length};
ghost use Rattle.graph_file.specs.declared.operators.Operator.TheVariants as kinds;
ghost use Rattle.script_runner.specs.TaskOperators.{IsFresh, kind_of, runs_of, refused_by, taken_by};
ghost use Rattle.script_runner.specs.Teams.{IsWhole};

use graph_file::Operator as Kind;
use instance_machine::Outcome;
use operators::{BeginFault, Exit, Noop, Operator, Program};
use sched_state::Job;
use std::alloc::{AllocError, Global};
use std::fs::File;
use std::process::Processes;
use std::rt::Files;
use workers::OpenGate;

/// An operator of one of the three kinds, of which `command` is this one.
#[derive(Drop)]
pub enum TaskOperator<P: Operator> {
    /// `noop`
    Noop(Noop),
    /// `exit`
    Exit(Exit),
    /// `command`
    Command(P),
}

impl<P: Operator> Operator for TaskOperator<P> {
    ghost use Rattle.script_runner.specs.TaskOperators as spec;

    ghost kind_of = { spec.kind_of P.kind_of };

    ghost runs_of = { spec.runs_of P.runs_of };

    ghost refused_of = { spec.refused_by P.refused_of };

    ghost taken = { spec.taken_by P.taken };

    ghost performed = { spec.performed_by P.performed };

    fn kind(&self) -> Kind {
        match self {
            TaskOperator::Noop(operator) => operator.kind(),
            TaskOperator::Exit(operator) => operator.kind(),
            TaskOperator::Command(operator) => operator.kind(),
        }
    }

    fn runs(&self) -> &[(u64, Outcome)] {
        match self {
            TaskOperator::Noop(operator) => operator.runs(),
            TaskOperator::Exit(operator) => operator.runs(),
            TaskOperator::Command(operator) => operator.runs(),
        }
    }

    fn begin(&mut self, job: &Job) -> Result<(), BeginFault> {
        match self {
            TaskOperator::Noop(operator) => operator.begin(job),
            TaskOperator::Exit(operator) => operator.begin(job),
            TaskOperator::Command(operator) => operator.begin(job),
        }
    }

    fn perform(&mut self, job: &Job) -> Outcome {
        match self {
            TaskOperator::Noop(operator) => operator.perform(job),
            TaskOperator::Exit(operator) => operator.perform(job),
            TaskOperator::Command(operator) => operator.perform(job),
        }
    }

    fn finish(&mut self) {
        match self {
            TaskOperator::Noop(operator) => operator.finish(),
            TaskOperator::Exit(operator) => operator.finish(),
            TaskOperator::Command(operator) => operator.finish(),
        }
    }
}

/// So many lists of the three operators, one list for each worker, beside gates that are open. The tries of `command` have their folders under
/// `scratch`, and their logs under `logs`, where there is one.
pub fn operators_for<R: Files<File = File> + Processes + Copy + Drop>(
    rt: R,
    alloc: Global,
    workers: u32,
    scratch: &str,
    logs: Option<&str>,
) -> Result<Vec<(Vec<TaskOperator<Program<R>>>, OpenGate)>, AllocError>
    ensures workers { IfOk result (λ team. length team.items ≡ workers) }
    ensures whole { IfOk result (λ team. All (λ w. IsWhole (kind_of (λ _. kinds.Command)) w.0.items) team.items) }
    ensures fresh { IfOk result (λ team. All (λ w. All (IsFresh
        (runs_of ⟦<Program<R> as Operator>⟧.runs_of) (refused_by ⟦<Program<R> as Operator>⟧.refused_of) (taken_by ⟦<Program<R> as Operator>⟧.taken))
        w.0.items) team.items) }
{
    let mut team = Vec::new(alloc);
    for _worker in 0..workers {
        team.push((three_operators(rt, alloc, scratch, logs)?, OpenGate))?;
    }
    Ok(team)
}

// One operator of each kind.
fn three_operators<R: Files<File = File> + Processes + Copy + Drop>(
    rt: R,
    alloc: Global,
    scratch: &str,
    logs: Option<&str>,
) -> Result<Vec<TaskOperator<Program<R>>>, AllocError>
    ensures whole { IfOk result (λ operators. IsWhole (kind_of (λ _. kinds.Command)) operators.items) }
    ensures fresh { IfOk result (λ operators. All (IsFresh
        (runs_of ⟦<Program<R> as Operator>⟧.runs_of) (refused_by ⟦<Program<R> as Operator>⟧.refused_of) (taken_by ⟦<Program<R> as Operator>⟧.taken))
        operators.items) }
{
    let base = String::from_str(alloc, scratch)?;
    let logs = logs.map(|base| String::from_str(alloc, base)).transpose()?;
    let noop = Noop::new(alloc);
    let exit = Exit::new(alloc);
    let command = Program::new(rt, alloc, base, logs);
    let mut operators = Vec::new(alloc);
    operators.push(TaskOperator::Noop(noop))?;
    operators.push(TaskOperator::Exit(exit))?;
    operators.push(TaskOperator::Command(command))?;
    Ok(operators)
}
