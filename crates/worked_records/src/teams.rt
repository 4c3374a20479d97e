//! Workers with an operator of each kind, and what they wait for before each try.
ghost use Rattle.std.specs.Prelude.{◌≡◌, All, IfOk, length};
ghost use Rattle.graph_file.specs.declared.operators.Operator.TheVariants as kinds;
ghost use Rattle.script_runner.specs.TaskOperators.{kind_of};
ghost use Rattle.script_runner.specs.Teams.{IsWhole};

use crate::parties::Party;
use instance_machine::Outcome;
use operators::{Exit, Noop, Program};
use sched_state::Job;
use script_runner::TaskOperator;
use std::alloc::AllocError;
use std::sync::Wait;
use workers::Gate;

// Where a try of `command` would have its folder; no script here has one.
const SCRATCH: &str = "tries";

/// What a worker waits for before each try.
#[derive(Drop)]
pub(crate) enum Waiting {
    /// For nothing.
    Nothing,
    /// For the other party.
    Meeting(Party),
}

impl Gate for Waiting {
    fn before<R: Wait>(&mut self, _rt: &R, _job: &Job) {
        if let Waiting::Meeting(party) = self {
            party.meet();
        }
    }

    fn after<R: Wait>(&mut self, _rt: &R, _job: &Job, _outcome: Outcome) {}
}

/// The operators of a worker, and its gate.
pub(crate) type Worker = (Vec<TaskOperator<Program<HostRuntime>>>, Waiting);

/// A worker that waits for this before each try.
pub(crate) fn worker(host: &HostRuntime, waiting: Waiting) -> Result<Worker, AllocError>
    ensures { IfOk result (λ w. IsWhole (kind_of (λ _. kinds.Command)) w.0.items) }
{
    let alloc = host.alloc();
    let program = Program::new(*host, alloc, String::from_str(alloc, SCRATCH)?, None);
    let mut operators = Vec::new(alloc);
    operators.push(TaskOperator::Noop(Noop::new(alloc)))?;
    operators.push(TaskOperator::Command(program))?;
    operators.push(TaskOperator::Exit(Exit::new(alloc)))?;
    Ok((operators, waiting))
}

/// One worker that waits for nothing.
pub(crate) fn one_worker(host: &HostRuntime) -> Result<Vec<Worker>, AllocError>
    ensures count { IfOk result (λ team. length team.items ≡ 1) }
    ensures whole { IfOk result (λ team. All (λ w. IsWhole (kind_of (λ _. kinds.Command)) w.0.items) team.items) }
{
    let mut team = Vec::new(host.alloc());
    team.push(worker(host, Waiting::Nothing)?)?;
    Ok(team)
}
