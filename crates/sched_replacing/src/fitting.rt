//! Giving the runs of a graph the instances of its new tasks.
ghost use Rattle.std.specs.Prelude.{◌≡◌, ◌<◌, length, map, true, IfOk, OnOk};
ghost use Rattle.std.specs.List.{zip};
ghost use Rattle.sched_model.specs.Lists.{at, rises};
ghost use Rattle.sched_model.specs.Replacing.{fitted, refitted};
ghost use Rattle.sched_model.specs.Schedule.{Schedule, dag_named, run_before};
ghost use Rattle.sched_replacing.specs.Fitting.{instance_from, sources_of, with_fitted_from};

use crate::keeping::{kept_as, newcomer};
use dag_check::Graph;
use graph_file::{Sequence, TaskSpec};
use instance_machine::Instance;
use sched_clearing::span_of_all;
use sched_draft::Draft;
use sched_state::Run;
use std::alloc::{AllocError, Global};

// For each new task, by place, the place of the old one with its id.
fn sources_of(alloc: Global, old: &Graph, new: &Graph) -> Result<Vec<Option<usize>>, AllocError>
    ensures { IfOk result (λ sources. sources.items ≡ sources_of old.now.tasks new.now.tasks) }
{
    let mut sources = Vec::new(alloc);
    for place in 0..new.len() {
        sources.push(old.place(&new.task(place).task_id))?;
    }
    Ok(sources)
}

// The instance that a new task gets of those of a run, where the old task with its id stands at this place.
fn instance_from(
    alloc: Global,
    run: &Run,
    old: &Graph,
    source: Option<usize>,
    new: &TaskSpec,
) -> Result<Instance, AllocError>
    ensures { IfOk result (λ i. i ≡ instance_from run.now old.now.tasks source new.now) }
{
    let instances = run.instances.as_slice();
    match source {
        Some(place) if place < old.len().min(instances.len()) => {
            kept_as(alloc, old.task(place), new, &instances[place])
        }
        _ => Ok(newcomer(alloc, run.phase)),
    }
}

// The instances that the new tasks get of those of a run, by place.
fn instances_from(
    alloc: Global,
    run: &Run,
    old: &Graph,
    sources: &[Option<usize>],
    new: &Graph,
) -> Result<Sequence<Instance>, AllocError>
    requires { sources.now ≡ sources_of old.now.tasks new.now.tasks }
    ensures { IfOk result (λ is. is
        ≡ map (fitted run.now.phase (zip old.now.tasks run.now.instances)) new.now.tasks) }
{
    let mut instances = Vec::with_capacity(alloc, sources.len())?;
    for place in 0..sources.len() {
        let task = new.task(place);
        let instance = instance_from(alloc, run, old, sources[place], task)?;
        instances.push(instance)?;
    }
    Ok(Sequence::new(instances))
}

// The run at a position, of the graph, gets the instances of the new tasks.
fn refit_run(
    alloc: Global,
    draft: &mut Draft<'_>,
    position: usize,
    old: &Graph,
    sources: &[Option<usize>],
    new: &Graph,
) -> Result<(), AllocError>
    requires within { position < length draft.old.content.runs }
    requires sources { sources.now ≡ sources_of old.now.tasks new.now.tasks }
    ensures base { OnOk result (draft.new.base ≡ draft.old.base) }
    ensures draft { OnOk result (draft.new.content ≡ record draft.old.content
        { runs = at (with_fitted_from old.now new.now) position draft.old.content.runs }) }
{
    let instances = instances_from(alloc, draft.run(position), old, sources, new)?;
    draft.own(alloc, position)?;
    draft.set_instances(position, instances);
    Ok(())
}

/// Each run of the graph gets one instance for each task of the new graph, by place: that of the old task with its id, where there is one
/// (Airflow 2, "DAGs": a DAG's file may change while it has runs). The runs stand in the order of their keys.
///
/// It copies each run of the graph: in time, and in memory, of their tries and of their tasks, and once of the old tasks for each new one. It
/// is said by each schedule whose graph is the old one, as by that which stands under the draft.
pub fn refit(
    alloc: Global,
    draft: &mut Draft<'_>,
    old: &Graph,
    new: &Graph,
) -> Result<(), AllocError>
    requires { rises run_before draft.old.content.runs ≡ true }
    ensures base { OnOk result (draft.new.base ≡ draft.old.base) }
    ensures model { (a : Schedule) → dag_named a new.now.spec.dag_id ≡ old.now
        → OnOk result (draft.new.content ≡ record draft.old.content
        { runs = map (refitted a new.now) draft.old.content.runs }) }
{
    let sources = sources_of(alloc, old, new)?;
    let span = span_of_all(draft, &new.spec().dag_id);
    for position in span.start..span.end {
        refit_run(alloc, draft, position, old, &sources, new)?;
    }
    Ok(())
}
