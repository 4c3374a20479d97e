//! Jobs.
ghost use Rattle.std.specs.Prelude.{◌≡◌, ◌+◌, ◌<◌, ℕ, IfOk, vec_len, slice_index_or};

use cron_timetable::Interval;
use graph_file::{Action, Bounded, Name, Operator, Sequence};
use moment_core::Moment;
use sched_state::{Job, RunKind};
use std::alloc::{AllocError, Global};

/// A first try of a task that does nothing, with this serial.
pub(crate) fn numbered_job(alloc: Global, serial: u64) -> Result<Job, AllocError>
    ensures { IfOk result (λ job. job.serial ≡ serial) }
{
    let action = Action::new(Operator::Noop, Sequence::new(Vec::new(alloc)), None);
    job_of(alloc, serial, 1, &action)
}

/// So many jobs, with the serials from 1.
pub(crate) fn numbered_jobs(alloc: Global, count: u64) -> Result<Vec<Job>, AllocError>
    ensures count { IfOk result (λ v. vec_len v ≡ count) }
    ensures serials { IfOk result (λ v. (k : ℕ) (d : _) → k < count → (slice_index_or v.items k d).serial ≡ k + 1) }
{
    let mut jobs = Vec::new(alloc);
    for before in 0..count {
        jobs.push(numbered_job(alloc, before + 1)?)?;
    }
    Ok(jobs)
}

/// A job with this serial: the try with this number of a task with this action.
pub(crate) fn job_of(
    alloc: Global,
    serial: u64,
    try_number: usize,
    action: &Action,
) -> Result<Job, AllocError>
    ensures serial { IfOk result (λ job. job.serial ≡ serial) }
    ensures number { IfOk result (λ job. job.try_number ≡ try_number) }
    ensures action { IfOk result (λ job. job.action ≡ action.now) }
{
    let action = action.copy(alloc)?;
    job_with(alloc, serial, try_number, action)
}

fn job_with(
    alloc: Global,
    serial: u64,
    try_number: usize,
    action: Action,
) -> Result<Job, AllocError>
    ensures serial { IfOk result (λ job. job.serial ≡ serial) }
    ensures number { IfOk result (λ job. job.try_number ≡ try_number) }
    ensures action { IfOk result (λ job. job.action ≡ action) }
{
    let names = read_names(alloc)?;
    Ok(Job {
        serial,
        graph: names.graph,
        logical: Moment::at(0),
        interval: Interval::empty_at(Moment::at(0)),
        kind: RunKind::Manual,
        task: names.task,
        try_number,
        action,
        pool: names.pool,
        slots: Bounded::new(1),
    })
}

// The names of each job.
#[derive(Drop)]
struct Names {
    graph: Name,
    task: Name,
    pool: Name,
}

fn read_names(alloc: Global) -> Result<Names, AllocError> {
    let graph = name(alloc, "page")?;
    let task = name(alloc, "line")?;
    let pool = name(alloc, "default_pool")?;
    Ok(Names { graph, task, pool })
}

// The name of a text that is one.
fn name(alloc: Global, text: &str) -> Result<Name, AllocError> {
    match Name::read(alloc, text) {
        Ok(name) => Ok(name),
        Err(_) => Err(AllocError),
    }
}
