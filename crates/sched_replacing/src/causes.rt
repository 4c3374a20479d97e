//! What in the runs of a graph stands against another text for it.
ghost use Rattle.std.specs.Prelude.{◌≡◌, ◌&&◌, length, max, map, nat_lt, true, IfOk};
ghost use Rattle.std.specs.Option.{option_copied};
ghost use Rattle.sched_model.specs.Causes as model;
ghost use Rattle.sched_model.specs.Causes.{takes_another_number, takes_another_pool};
ghost use Rattle.sched_model.specs.Lists.{rises};
ghost use Rattle.sched_model.specs.Schedule.{Schedule, dag_named, run_before};
ghost use Rattle.sched_replacing.specs.Marking.{first_tried};

use dag_check::Graph;
use graph_file::{Name, TaskSpec};
use instance_machine::Instance;
use moment_core::Moment;
use sched_clearing::{least_in_flight, named_by_places, span_of_all};
use sched_draft::Draft;
use sched_state::Run;
use std::alloc::{AllocError, Global};

// Whether the new task with the id of this one takes another number of slots.
fn takes_another_number(new: &Graph, task: &TaskSpec) -> bool
    ensures { result ≡ takes_another_number new.now task.now }
{
    match new.place(&task.task_id) {
        Some(place) => new.task(place).pool_slots.get() != task.pool_slots.get(),
        None => false,
    }
}

// Whether it takes slots of another pool.
fn takes_another_pool(new: &Graph, task: &TaskSpec) -> bool
    ensures { result ≡ takes_another_pool new.now task.now }
{
    match new.place(&task.task_id) {
        Some(place) => new.task(place).pool != task.pool,
        None => false,
    }
}

// Which of the old tasks would take slots of another pool, by place.
fn moved_places(alloc: Global, old: &Graph, new: &Graph) -> Result<Vec<bool>, AllocError>
    ensures { IfOk result (λ marks. marks.items ≡ map (takes_another_pool new.now) old.now.tasks) }
{
    let mut marks = Vec::new(alloc);
    for place in 0..old.len() {
        marks.push(takes_another_pool(new, old.task(place)))?;
    }
    Ok(marks)
}

// Which of the old tasks would take another number of slots, by place.
fn resized_places(alloc: Global, old: &Graph, new: &Graph) -> Result<Vec<bool>, AllocError>
    ensures { IfOk result (λ marks. marks.items ≡ map (takes_another_number new.now) old.now.tasks) }
{
    let mut marks = Vec::new(alloc);
    for place in 0..old.len() {
        marks.push(takes_another_number(new, old.task(place)))?;
    }
    Ok(marks)
}

/// The least serial of the tries without an end of the graph's runs whose tasks would take slots of another pool: a text waits until there is
/// none. The runs stand in the order of their keys.
///
/// It goes through the runs of the graph, and once through the new tasks for each old one.
pub fn least_moved(
    alloc: Global,
    draft: &Draft<'_>,
    old: &Graph,
    new: &Graph,
) -> Result<Option<u64>, AllocError>
    requires order { rises run_before draft.now.content.runs ≡ true }
    requires old { dag_named draft.now.content new.now.spec.dag_id ≡ old.now }
    ensures { IfOk result (λ serial. serial ≡ model.least_moved draft.now.content new.now) }
{
    let marks = moved_places(alloc, old, new)?;
    let selection = named_by_places(&new.spec().dag_id, marks);
    Ok(least_in_flight(draft, &selection))
}

/// The first task of the old graph, by place, that the new one lacks. The clause speaks of each schedule whose graph is the old one.
pub fn lost_task<'g>(old: &'g Graph, new: &Graph) -> Option<&'g Name>
    ensures { (a : Schedule) → dag_named a new.now.spec.dag_id ≡ old.entry.now
        → option_copied result ≡ model.lost_task a new.now }
{
    for place in 0..old.len() {
        let id = &old.task(place).task_id;
        if new.place(id).is_none() {
            return Some(id);
        }
    }
    None
}

// Whether the instance has a try, and its place a mark.
fn has_marked_try(instance: &Instance, marked: bool) -> bool
    ensures { result ≡ (nat_lt 0 (length instance.now.tries) && marked) }
{
    !instance.tries().is_empty() && marked
}

// The first marked place of a run whose instance has a try.
fn first_tried(marks: &[bool], run: &Run) -> Option<usize>
    ensures { result ≡ first_tried marks.now run.now.instances }
{
    let instances = run.instances.as_slice();
    for place in 0..marks.len().min(instances.len()) {
        if has_marked_try(&instances[place], marks[place]) {
            return Some(place);
        }
    }
    None
}

/// The first task, by runs and places, that has a try and would take another number of slots: each try takes the slots of its task (Airflow 2,
/// "Pools": pool slots). The runs stand in the order of their keys.
pub fn resized_task<'g>(
    alloc: Global,
    draft: &Draft<'_>,
    old: &'g Graph,
    new: &Graph,
) -> Result<Option<&'g Name>, AllocError>
    requires order { rises run_before draft.now.content.runs ≡ true }
    requires old { dag_named draft.now.content new.now.spec.dag_id ≡ old.now }
    ensures { IfOk result (λ id. option_copied id ≡ model.resized_task draft.now.content new.now) }
{
    let marks = resized_places(alloc, old, new)?;
    let span = span_of_all(draft, &new.spec().dag_id);
    for position in span.start..span.end {
        if let Some(place) = first_tried(&marks, draft.run(position)) {
            return Ok(Some(&old.task(place).task_id));
        }
    }
    Ok(None)
}

/// The moment up to which the graph's runs reach: the greatest end of their data intervals, and the first of all moments where there are none.
/// The runs stand in the order of their keys.
pub fn reached(draft: &Draft<'_>, graph: &Name) -> Moment
    requires { rises run_before draft.now.content.runs ≡ true }
    ensures { result ≡ model.reached draft.now.content graph.now }
{
    let mut reached = Moment::at(0);
    let span = span_of_all(draft, graph);
    for position in span.start..span.end {
        reached = later(reached, draft.run(position).interval.end);
    }
    reached
}

// The later of two moments.
fn later(one: Moment, other: Moment) -> Moment
    ensures { result ≡ max one other }
{
    if one < other { other } else { one }
}
