//! One try after another, by threads that have an operator each.
ghost use Rattle.std.specs.Prelude.{◌≡◌, [], ◌∷◌, ◌++◌, None, MatchResult};
ghost use Rattle.operators.specs.Outcomes.{CanEnd};

use crate::jobs::job_of;
use graph_file::Action;
use instance_machine::Outcome;
use operators::{BeginFault, Operator};
use sched_state::Job;
use std::alloc::{AllocError, Global};
use std::thread;
use std::thread::Threads;

/// An operator, and the jobs that it is to perform.
#[derive(Drop)]
pub(crate) struct Turn<O: Operator> {
    pub operator: O,
    pub jobs: Vec<Job>,
}

/// So many jobs with this action. No other thread has their serials.
pub(crate) fn jobs_of(
    alloc: Global,
    action: &Action,
    thread: u64,
    count: u64,
) -> Result<Vec<Job>, AllocError> {
    let mut jobs = Vec::new(alloc);
    for turn in 0..count {
        let serial = thread.wrapping_mul(1_000_000).wrapping_add(turn);
        jobs.push(job_of(alloc, serial, 1, action)?)?;
    }
    Ok(jobs)
}

/// Has a thread for each of these perform its jobs, and says how many succeeded.
pub(crate) fn perform_all<O: Operator + Send, R: Threads + Sync>(
    rt: &R,
    turns: Vec<Turn<O>>,
) -> Result<u64, AllocError> {
    let counts = thread::map_vec(rt, turns, &|turn: Turn<O>| perform_each(turn))?;
    Ok(total(&counts))
}

fn total(counts: &[u64]) -> u64 {
    let mut total: u64 = 0;
    for count in counts {
        total = total.saturating_add(*count);
    }
    total
}

// Performs the jobs, and says how many succeeded.
fn perform_each<O: Operator>(turn: Turn<O>) -> u64 {
    let Turn { mut operator, jobs } = turn;
    count_succeeded(&mut operator, jobs.as_slice())
}

fn count_succeeded<O: Operator>(operator: &mut O, jobs: &[Job]) -> u64 {
    let mut succeeded: u64 = 0;
    for job in jobs {
        if perform_once(operator, job) == Ok(Outcome::Success) {
            succeeded = succeeded.saturating_add(1);
        }
    }
    succeeded
}

// Begins the job, performs it and gives it up. On `Err` it was not begun, and nothing changes.
fn perform_once<O: Operator>(operator: &mut O, job: &Job) -> Result<Outcome, BeginFault>
    ensures kind { O.kind_of operator.new ≡ O.kind_of operator.old }
    ensures runs { MatchResult result
        (λ outcome. O.runs_of operator.new ≡ O.runs_of operator.old ++ (job.now, outcome) ∷ [])
        (λ _. O.runs_of operator.new ≡ O.runs_of operator.old) }
    ensures taken { MatchResult result
        (λ _. (O.taken operator.old ≡ None) × (O.taken operator.new ≡ None))
        (λ _. O.taken operator.new ≡ O.taken operator.old) }
    ensures outcome { MatchResult result
        (λ outcome. CanEnd (O.kind_of operator.old) job.now outcome)
        (λ _. O.performed operator.new ≡ O.performed operator.old) }
{
    match operator.begin(job) {
        Ok(()) => {
            let outcome = operator.perform(job);
            operator.finish();
            Ok(outcome)
        }
        Err(fault) => Err(fault),
    }
}
