//! Reasons of an instance's state, its run and its graph.
ghost use Rattle.std.specs.Prelude.{◌≡◌, ◌++◌, ◌<◌, length, OnOk};
ghost use Rattle.sched_settling.specs.States.{state_in};
ghost use Rattle.explain.specs.Inside.{upstream_if, past_by};
ghost use Rattle.explain.specs.Reasons as spec;
ghost use Rattle.explain.specs.Subjects.{IsSubjectOf, state_of_subject};

use crate::reasons::Reason;
use crate::subjects::Subject;
use instance_machine::past_gate;
use sched_core::Schedule;
use sched_settling::{state_in, upstream_counts};
use sched_state::{Run, RunPhase};
use std::alloc::{AllocError, Global};
use trigger_rules::{State, Verdict, verdict_of};

// Whether the instance is neither handed out nor finished.
fn is_waiting(state: State) -> bool
    ensures { result ≡ spec.is_waiting state }
{
    matches!(state, State::None | State::Scheduled | State::UpForRetry)
}

pub(crate) fn finished(subject: &Subject<'_>) -> Option<Reason>
    ensures { result ≡ spec.finished subject.now }
{
    let state = subject.state();
    if state.is_finished() {
        Some(Reason::Finished(state))
    } else {
        None
    }
}

pub(crate) fn handed_out(subject: &Subject<'_>) -> Option<Reason>
    ensures { result ≡ spec.handed_out subject.now }
{
    if !matches!(subject.state(), State::Queued | State::Running) {
        return None;
    }
    let instance = subject.instance;
    match instance.tries().last() {
        Some(last) => Some(Reason::HandedOut(last.serial)),
        None => None,
    }
}

pub(crate) fn run_queued(schedule: &Schedule, subject: &Subject<'_>) -> Option<Reason>
    ensures { result ≡ spec.run_queued schedule.now.content subject.now }
{
    let run = subject.run;
    if !is_waiting(subject.state()) || !matches!(run.phase, RunPhase::Queued) {
        return None;
    }
    let graph = subject.graph;
    Some(Reason::RunQueued {
        active: schedule.active_runs(&run.graph),
        limit: graph.dag.spec().max_active_runs.get(),
    })
}

pub(crate) fn paused(subject: &Subject<'_>) -> Option<Reason>
    ensures { result ≡ spec.paused subject.now }
{
    let graph = subject.graph;
    if is_waiting(subject.state()) && graph.paused {
        Some(Reason::Paused)
    } else {
        None
    }
}

pub(crate) fn run_finished(subject: &Subject<'_>) -> Option<Reason>
    ensures { result ≡ spec.run_finished subject.now }
{
    let run = subject.run;
    match run.phase {
        RunPhase::Success | RunPhase::Failed => Some(Reason::RunFinished(run.phase)),
        RunPhase::Queued | RunPhase::Running => None,
    }
}

// Whether the instance has no verdict.
fn is_undecided(subject: &Subject<'_>) -> bool
    ensures { result ≡ spec.is_undecided (state_of_subject subject.now) }
{
    matches!(subject.state(), State::None)
}

// Whether the instance has no verdict, and its rule waits.
fn rule_waits(schedule: &Schedule, subject: &Subject<'_>) -> bool
    requires { IsSubjectOf schedule.now.content subject.now }
    ensures { result ≡ spec.rule_waits schedule.now.content subject.now }
{
    if !is_undecided(subject) {
        return false;
    }
    let graph = subject.graph;
    let counts = upstream_counts(&graph.dag, subject.run, subject.place);
    let task = subject.task;
    matches!(verdict_of(task.trigger_rule, &counts), Verdict::Wait)
}

// Adds the upstreams that are not finished, where the rule waits.
pub(crate) fn add_upstreams(
    alloc: Global,
    schedule: &Schedule,
    subject: &Subject<'_>,
    reasons: &mut Vec<Reason>,
) -> Result<(), AllocError>
    requires { IsSubjectOf schedule.now.content subject.now }
    ensures { OnOk result (reasons.new.items
        ≡ reasons.old.items ++ spec.upstreams schedule.now.content subject.now) }
{
    if !rule_waits(schedule, subject) {
        return Ok(());
    }
    let graph = subject.graph;
    let _count = graph.dag.len();
    for upstream in graph.dag.upstreams(subject.place) {
        add_upstream(alloc, subject, *upstream, reasons)?;
    }
    Ok(())
}

// Adds an upstream, if it is not finished.
fn add_upstream(
    alloc: Global,
    subject: &Subject<'_>,
    upstream: usize,
    reasons: &mut Vec<Reason>,
) -> Result<(), AllocError>
    requires { upstream < length subject.now.graph.dag.tasks }
    ensures { OnOk result (reasons.new.items
        ≡ reasons.old.items ++ upstream_if subject.now upstream) }
{
    let graph = subject.graph;
    let state = state_in(&graph.dag, subject.run, upstream);
    if !state.is_finished() {
        let task = graph.dag.task(upstream).task_id.copy(alloc)?;
        reasons.push(Reason::Upstream { task, state })?;
    }
    Ok(())
}

// The state in the run before, where it holds the task back.
fn past_in(subject: &Subject<'_>, before: &Run) -> Option<Reason>
    ensures { result ≡ past_by (state_in subject.now.graph.dag before.now subject.now.place) before.now }
{
    let graph = subject.graph;
    let state = state_in(&graph.dag, before, subject.place);
    if past_gate(Some(state)) {
        None
    } else {
        Some(Reason::Past {
            logical: before.logical,
            state,
        })
    }
}

pub(crate) fn past(schedule: &Schedule, subject: &Subject<'_>) -> Option<Reason>
    requires { IsSubjectOf schedule.now.content subject.now }
    ensures { result ≡ spec.past schedule.now.content subject.now }
{
    let task = subject.task;
    if !is_undecided(subject) || !task.depends_on_past {
        return None;
    }
    past_in(subject, schedule.previous_run(subject.run)?)
}
