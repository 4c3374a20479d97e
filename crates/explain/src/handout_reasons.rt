//! Reasons why a task instance is not handed out.
ghost use Rattle.std.specs.Prelude.{◌≡◌, find, IfOk};
ghost use Rattle.std.specs.Option.{option_copied};
ghost use Rattle.sched_state.specs.Lists.{same};
ghost use Rattle.sched_core.specs.Views.{pool_rows};
ghost use Rattle.explain.specs.Reasons as spec;

use crate::reasons::Reason;
use crate::subjects::Subject;
use graph_file::Name;
use sched_core::{PoolRow, Schedule};
use sched_state::LAST_SERIAL;
use std::alloc::{AllocError, Global};
use trigger_rules::State;

pub(crate) fn retry_later(schedule: &Schedule, subject: &Subject<'_>) -> Option<Reason>
    ensures { result ≡ spec.retry_later schedule.now.content subject.now }
{
    let instance = subject.instance;
    let moment = instance.retry_at(subject.task)?;
    if schedule.now().secs() < moment {
        Some(Reason::RetryAt(moment))
    } else {
        None
    }
}

// Whether the instance could be handed out: it is scheduled, or up for retry with its delay passed.
fn is_ready(schedule: &Schedule, subject: &Subject<'_>) -> bool
    ensures { result ≡ spec.is_ready_subject schedule.now.content subject.now }
{
    let instance = subject.instance;
    if matches!(subject.state(), State::Scheduled) {
        return true;
    }
    match instance.retry_at(subject.task) {
        Some(moment) => moment <= schedule.now().secs(),
        None => false,
    }
}

// Whether the row is that of the pool with this name.
fn is_of(row: &PoolRow<'_>, name: &Name) -> bool
    ensures { result ≡ same row.now.name name.now }
{
    *row.name == *name
}

// The row of a pool.
fn pool_of<'a>(schedule: &'a Schedule, name: &Name) -> Option<PoolRow<'a>>
    ensures { result ≡ find (λ p. same p.name name.now) (pool_rows schedule.now.content) }
{
    for row in schedule.pools() {
        if is_of(&row, name) {
            return Some(row);
        }
    }
    None
}

pub(crate) fn pool_full(
    alloc: Global,
    schedule: &Schedule,
    subject: &Subject<'_>,
) -> Result<Option<Reason>, AllocError>
    ensures { IfOk result (λ reason. reason ≡ spec.pool_full schedule.now.content subject.now) }
{
    if !is_ready(schedule, subject) {
        return Ok(None);
    }
    let task = subject.task;
    let needs = task.pool_slots.get();
    match pool_of(schedule, &task.pool) {
        Some(row) if row.open_slots < i64::from(needs) => Ok(Some(Reason::Pool {
            pool: row.name.copy(alloc)?,
            needs,
            free: row.open_slots,
        })),
        _ => Ok(None),
    }
}

pub(crate) fn graph_full(schedule: &Schedule, subject: &Subject<'_>) -> Option<Reason>
    ensures { result ≡ spec.graph_full schedule.now.content subject.now }
{
    let run = subject.run;
    let graph = subject.graph;
    let active = schedule.active_tries(&run.graph);
    let limit = graph.max_active_tasks.get();
    if is_ready(schedule, subject) && u64::from(limit) <= active {
        Some(Reason::GraphFull { active, limit })
    } else {
        None
    }
}

pub(crate) fn lanes_full(schedule: &Schedule, subject: &Subject<'_>) -> Option<Reason>
    ensures { result ≡ spec.lanes_full schedule.now.content subject.now }
{
    let in_flight = schedule.in_flight();
    let is_spent = schedule.next_serial() > LAST_SERIAL;
    if is_ready(schedule, subject) && (schedule.lanes() as usize <= in_flight || is_spent) {
        Some(Reason::Lanes(in_flight))
    } else {
        None
    }
}
