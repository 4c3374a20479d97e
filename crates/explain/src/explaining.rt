//! All reasons of a task instance.
ghost use Rattle.std.specs.Prelude.{◌≡◌, ◌++◌, Ok, IfOk, IfErr, OnOk};
ghost use Rattle.explain.specs.Reasons.{given, reasons, explained, IsUnexplained};
ghost use Rattle.explain.specs.Subjects.{IsSubjectOf};

use crate::graph_reasons::{
    add_upstreams, finished, handed_out, past, paused, run_finished, run_queued,
};
use crate::handout_reasons::{graph_full, lanes_full, pool_full, retry_later};
use crate::reasons::{ExplainFault, Reason};
use crate::subjects::{Subject, subject_of};
use graph_file::Name;
use moment_core::Moment;
use sched_core::Schedule;
use std::alloc::{AllocError, Global};

/// Why the instance of a task in the run of a graph with this logical date is where it is: every reason that holds, in the order of `Reason`,
/// and no other.
pub fn explain(
    alloc: Global,
    schedule: &Schedule,
    graph: &Name,
    logical: Moment,
    task: &Name,
) -> Result<Vec<Reason>, ExplainFault>
    ensures reasons { IfOk result (λ given. explained schedule.now.content graph.now logical task.now
        ≡ Ok given.items) }
    ensures fault { IfErr result
        (IsUnexplained schedule.now.content graph.now logical task.now) }
{
    let subject = subject_of(schedule, graph, logical, task)?;
    match reasons_of(alloc, schedule, &subject) {
        Ok(reasons) => Ok(reasons),
        Err(_) => Err(ExplainFault::Memory),
    }
}

fn reasons_of(
    alloc: Global,
    schedule: &Schedule,
    subject: &Subject<'_>,
) -> Result<Vec<Reason>, AllocError>
    requires { IsSubjectOf schedule.now.content subject.now }
    ensures { IfOk result (λ given. given.items ≡ reasons schedule.now.content subject.now) }
{
    let mut reasons = Vec::new(alloc);
    add(&mut reasons, finished(subject))?;
    add(&mut reasons, handed_out(subject))?;
    add(&mut reasons, run_queued(schedule, subject))?;
    add(&mut reasons, paused(subject))?;
    add(&mut reasons, run_finished(subject))?;
    add_upstreams(alloc, schedule, subject, &mut reasons)?;
    add(&mut reasons, past(schedule, subject))?;
    add(&mut reasons, retry_later(schedule, subject))?;
    add(&mut reasons, pool_full(alloc, schedule, subject)?)?;
    add(&mut reasons, graph_full(schedule, subject))?;
    add(&mut reasons, lanes_full(schedule, subject))?;
    Ok(reasons)
}

// Adds a reason, if there is one.
fn add(reasons: &mut Vec<Reason>, reason: Option<Reason>) -> Result<(), AllocError>
    ensures { OnOk result (reasons.new.items ≡ reasons.old.items ++ given reason) }
{
    if let Some(reason) = reason {
        reasons.push(reason)?;
    }
    Ok(())
}
