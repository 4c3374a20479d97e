//! Decisions: what the rule of a task makes of its upstreams' states, and one sweep that makes all decisions.
ghost use Rattle.std.specs.Prelude.{◌≡◌, ◌≢◌, ◌+◌, ◌<◌, ◌≤◌, ◌&&◌, false, true, length, map, nat_lt, slice_get, IfOk, OnOk, Some};
ghost use Rattle.std.specs.Option.{option_copied};
ghost use Rattle.dag_check.specs.Graphs.{ups, task_of};
ghost use Rattle.trigger_rules.specs.Counts.{counts_of};
ghost use Rattle.trigger_rules.specs.declared.verdicts.Verdict.TheVariants.{Wait};
ghost use Rattle.sched_model.specs.Schedule.{dag_named, run_before};
ghost use Rattle.sched_model.specs.States.{past_is_open, previous};
ghost use Rattle.sched_model.specs.Lists.{rises};
ghost use Rattle.sched_model.specs.Settle.{decided_verdict};
ghost use Rattle.sched_laws.specs.Sweep.{decide_at, sweep_places, sweep};
ghost use Rattle.sched_laws.specs.Stages.{IsOrdered, CoversEnds};
ghost use Rattle.dag_check.specs.Orders.{is_in};
ghost use Rattle.sched_settling.specs.Marks.{IsCovered, are_within, dag_at, with_next, before_at};
ghost use Rattle.sched_draft.specs.Parts.{instances_at};
ghost use Rattle.sched_settling.specs.States.{state_in, IsDecision};

use crate::states::state_in;
use dag_check::Graph;
use instance_machine::past_gate;
use sched_draft::Draft;
use sched_state::{Run, RunPhase};
use std::alloc::{AllocError, Global};
use std::collections::VecDeque;
use trigger_rules::{Counts, Verdict, verdict_of};

/// How many upstreams of a place are in which state.
pub fn upstream_counts(dag: &Graph, run: &Run, place: usize) -> Counts
    requires { place < length dag.now.tasks }
    ensures { result ≡ counts_of (map (state_in dag.now run.now) (ups dag.now place)) }
{
    let _spec = dag.spec();
    let _count = dag.len();
    let mut counts = Counts::new();
    for upstream in dag.upstreams(place) {
        counts.add(state_in(dag, run, *upstream));
    }
    counts
}

// The run before that at a position, in its graph.
fn previous<'a>(draft: &'a Draft<'_>, position: usize, run: &Run) -> Option<&'a Run>
    requires { position ≤ length draft.now.content.runs }
    ensures { option_copied result ≡ before_at draft.now.content.runs position run.now }
{
    if position == 0 {
        return None;
    }
    let other = draft.run(position - 1);
    if other.graph == run.graph {
        Some(other)
    } else {
        None
    }
}

// Whether the past does not hold the task at a place of the run at a position back.
fn past_is_open(draft: &Draft<'_>, position: usize, run: &Run, dag: &Graph, place: usize) -> bool
    requires within { position < length draft.now.content.runs }
    requires graph { dag_named draft.now.content run.now.graph ≡ dag.now }
    requires place { place < length dag.now.tasks }
    requires previous { previous draft.now.content run.now ≡ before_at draft.now.content.runs position run.now }
    ensures { result ≡ past_is_open draft.now.content run.now (task_of dag.now place) place }
{
    if !dag.task(place).depends_on_past {
        return true;
    }
    match previous(draft, position, run) {
        Some(other) => past_gate(Some(state_in(dag, other, place))),
        None => past_gate(None),
    }
}

// The verdict that the task at a place would be given.
fn verdict_for(
    draft: &Draft<'_>,
    position: usize,
    run: &Run,
    dag: &Graph,
    place: usize,
) -> Option<Verdict>
    requires within { position < length draft.now.content.runs }
    requires graph { dag_named draft.now.content run.now.graph ≡ dag.now }
    requires place { place < length dag.now.tasks }
    requires previous { previous draft.now.content run.now ≡ before_at draft.now.content.runs position run.now }
    ensures verdict { result ≡ decided_verdict draft.now.content run.now place (task_of dag.now place) }
    ensures decided { result ≢ Some Wait }
{
    let counts = upstream_counts(dag, run, place);
    match verdict_of(dag.task(place).trigger_rule, &counts) {
        Verdict::Wait => None,
        Verdict::Run => {
            if past_is_open(draft, position, run, dag, place) {
                Some(Verdict::Run)
            } else {
                None
            }
        }
        Verdict::Skip => Some(Verdict::Skip),
        Verdict::UpstreamFailed => Some(Verdict::UpstreamFailed),
    }
}

// What the instance at a place of the run would be decided to.
fn decision(
    draft: &Draft<'_>,
    position: usize,
    run: &Run,
    dag: &Graph,
    place: usize,
) -> Option<Verdict>
    requires within { position < length draft.now.content.runs }
    requires graph { dag_named draft.now.content run.now.graph ≡ dag.now }
    requires previous { previous draft.now.content run.now ≡ before_at draft.now.content.runs position run.now }
    ensures { IsDecision draft.now.content run.now place result }
{
    if !matches!(run.phase, RunPhase::Running) {
        return None;
    }
    let instance = run.instances.as_slice().get(place)?;
    if instance.verdict().is_some() || dag.len() <= place {
        return None;
    }
    verdict_for(draft, position, run, dag, place)
}

// The instance at a place of a run is decided, where it can be, and whether it was.
fn decide_at(
    alloc: Global,
    draft: &mut Draft<'_>,
    position: usize,
    dag: &Graph,
    place: usize,
) -> Result<bool, AllocError>
    requires within { position < length draft.old.content.runs }
    requires ordered { rises run_before draft.old.content.runs ≡ true }
    requires dag { dag_at position draft.old.content ≡ Some dag.now }
    ensures base { OnOk result (draft.new.base ≡ draft.old.base) }
    ensures decided { OnOk result (draft.new.content ≡ decide_at position place draft.old.content) }
    ensures same { IfOk result (λ changed. changed ≡ false → draft.new.content ≡ draft.old.content) }
{
    match decision(draft, position, draft.run(position), dag, place) {
        Some(verdict) => {
            draft.own(alloc, position)?;
            draft.decide(position, place, verdict);
            Ok(true)
        }
        None => Ok(false),
    }
}

// The instances of a run are decided from the first to the last, each where it can be, and whether one was.
fn decide_run<'a>(alloc: Global, draft: &mut Draft<'a>, position: usize) -> Result<bool, AllocError>
    requires within { position < length draft.old.content.runs }
    requires ordered { rises run_before draft.old.content.runs ≡ true }
    ensures base { OnOk result (draft.new.base ≡ draft.old.base) }
    ensures decided { OnOk result
        (draft.new.content ≡ sweep_places (instances_at position draft.old.content) position 0 draft.old.content) }
    ensures same { IfOk result (λ changed. changed ≡ false → draft.new.content ≡ draft.old.content) }
{
    match draft.dag(&draft.run(position).graph) {
        Some(dag) => decide_places(alloc, draft, position, dag),
        None => Ok(false),
    }
}

// The same, over the graph of the run.
fn decide_places(
    alloc: Global,
    draft: &mut Draft<'_>,
    position: usize,
    dag: &Graph,
) -> Result<bool, AllocError>
    requires within { position < length draft.old.content.runs }
    requires ordered { rises run_before draft.old.content.runs ≡ true }
    requires dag { dag_at position draft.old.content ≡ Some dag.now }
    ensures base { OnOk result (draft.new.base ≡ draft.old.base) }
    ensures decided { OnOk result
        (draft.new.content ≡ sweep_places (instances_at position draft.old.content) position 0 draft.old.content) }
    ensures same { IfOk result (λ changed. changed ≡ false → draft.new.content ≡ draft.old.content) }
{
    let mut changed = false;
    for place in 0..draft.run(position).instances.len() {
        if decide_at(alloc, draft, position, dag, place)? {
            changed = true;
        }
    }
    Ok(changed)
}

// What follows the position is marked before the marked ones, where it is the position of one of so many runs.
pub(crate) fn mark_next(
    marks: &mut VecDeque<usize>,
    count: usize,
    position: usize,
) -> Result<(), AllocError>
    requires { position < count }
    ensures { OnOk result (marks.new.items ≡ with_next count (position + 1) marks.old.items) }
{
    let next = position + 1;
    if count <= next {
        return Ok(());
    }
    match marks.front() {
        Some(first) if *first == next => Ok(()),
        _ => Ok(marks.push_front(next)?),
    }
}

// All instances are decided that can be, those of the marked runs and of runs that follow one in which something was decided; and
// which runs were looked at.
pub(crate) fn decide_marked(
    alloc: Global,
    draft: &mut Draft<'_>,
    marks: VecDeque<usize>,
) -> Result<Vec<usize>, AllocError>
    requires ordered { IsOrdered draft.old.content }
    requires covered { IsCovered marks.items draft.old.content }
    ensures base { OnOk result (draft.new.base ≡ draft.old.base) }
    ensures swept { OnOk result (draft.new.content ≡ sweep draft.old.content) }
    ensures within { IfOk result (λ seen. are_within (length draft.new.content.runs) seen.items ≡ true) }
    ensures endings { IfOk result (λ seen. CoversEnds (is_in seen.items) draft.new.content) }
{
    let mut marks = marks;
    let mut seen = Vec::new(alloc);
    while let Some(position) = marks.pop_front() {
        seen.push(position)?;
        if decide_run(alloc, draft, position)? {
            mark_next(&mut marks, draft.run_count(), position)?;
        }
    }
    Ok(seen)
}
