//! Runs made of their rows, with the task instances of each.
ghost use Rattle.std.specs.Prelude.{◌≡◌, true, map, IfOk};
ghost use Rattle.std.specs.List.{list_all};
ghost use Rattle.sched_model.specs.Schedule.{dag_among};
ghost use Rattle.record_rules.specs.Keys.{IsByKey};
ghost use Rattle.record_rules.specs.Reading.{reads, graphs_of, instance_in, run_of};
ghost use Rattle.record_rules.specs.Faults.{is_run_row_right, has_all_instances};
ghost use Rattle.record_restoring.specs.Dealing.{tries_among};
ghost use Rattle.record_restoring.specs.Rules.{Passes};
ghost use Rattle.record_restoring.specs.Tasks.{IsTaskOf, has_row_of};

use crate::buckets::Bucket;
use crate::finding::{graph_named, instance_at};
use crate::making::read_instance;
use crate::run_columns::columns_of;
use dag_check::Graph;
use graph_file::{Sequence, TaskSpec};
use instance_machine::Instance;
use record_rows::{Rows, RunRow};
use sched_state::{Limits, LoadedGraph, Run};
use std::alloc::{AllocError, Global};

// The runs of rows, which are right.
pub(crate) fn read_runs(
    alloc: Global,
    limits: Limits,
    rows: &Rows,
    buckets: &[Bucket<'_>],
    graphs: &[LoadedGraph],
    runs: &[RunRow],
) -> Result<Vec<Run>, AllocError>
    requires keyed { IsByKey rows.now }
    requires rules { Passes limits rows.now }
    requires dealt { buckets.now ≡ map (tries_among rows.now.attempts) rows.now.instances }
    requires graphs { graphs.now ≡ graphs_of (reads limits) rows.now }
    requires right { list_all (is_run_row_right graphs.now) runs.now ≡ true }
    requires whole { list_all (has_all_instances graphs.now rows.now) runs.now ≡ true }
    ensures { IfOk result (λ made. made.items ≡ map (run_of rows.now graphs.now) runs.now) }
{
    let mut made = Vec::new(alloc);
    for row in runs {
        made.push(read_run(alloc, limits, rows, buckets, graphs, row)?)?;
    }
    Ok(made)
}

fn read_run(
    alloc: Global,
    limits: Limits,
    rows: &Rows,
    buckets: &[Bucket<'_>],
    graphs: &[LoadedGraph],
    row: &RunRow,
) -> Result<Run, AllocError>
    requires keyed { IsByKey rows.now }
    requires rules { Passes limits rows.now }
    requires dealt { buckets.now ≡ map (tries_among rows.now.attempts) rows.now.instances }
    requires graphs { graphs.now ≡ graphs_of (reads limits) rows.now }
    requires right { is_run_row_right graphs.now row.now ≡ true }
    requires whole { has_all_instances graphs.now rows.now row.now ≡ true }
    ensures { IfOk result (λ run. run ≡ run_of rows.now graphs.now row.now) }
{
    let Some(graph) = graph_named(graphs, row.dag_id.as_str()) else {
        unreachable!();
    };
    let Some(columns) = columns_of(row) else {
        unreachable!();
    };
    let instances = read_instances(alloc, limits, rows, buckets, &graph.dag, row)?;
    Ok(Run {
        graph: graph.dag.spec().dag_id.copy(alloc)?,
        logical: columns.logical,
        interval: columns.interval,
        kind: columns.kind,
        phase: columns.phase,
        instances: Sequence::new(instances),
    })
}

// The task instances of the run of a row, by place.
fn read_instances(
    alloc: Global,
    limits: Limits,
    rows: &Rows,
    buckets: &[Bucket<'_>],
    graph: &Graph,
    row: &RunRow,
) -> Result<Vec<Instance>, AllocError>
    requires keyed { IsByKey rows.now }
    requires rules { Passes limits rows.now }
    requires dealt { buckets.now ≡ map (tries_among rows.now.attempts) rows.now.instances }
    requires graph { dag_among (graphs_of (reads limits) rows.now) row.now.dag_id ≡ graph.now }
    requires whole { list_all (has_row_of rows.now row.now.dag_id row.now.logical) graph.now.tasks
        ≡ true }
    ensures { IfOk result (λ instances. instances.items
        ≡ map (instance_in rows.now row.now.dag_id row.now.logical) graph.now.tasks) }
{
    let mut instances = Vec::new(alloc);
    for place in 0..graph.len() {
        let task = graph.task(place);
        instances.push(read_one(alloc, limits, rows, buckets, task, row)?)?;
    }
    Ok(instances)
}

// The instance of a task in the run of a row.
fn read_one(
    alloc: Global,
    limits: Limits,
    rows: &Rows,
    buckets: &[Bucket<'_>],
    task: &TaskSpec,
    row: &RunRow,
) -> Result<Instance, AllocError>
    requires keyed { IsByKey rows.now }
    requires rules { Passes limits rows.now }
    requires dealt { buckets.now ≡ map (tries_among rows.now.attempts) rows.now.instances }
    requires task { IsTaskOf limits rows.now row.now.dag_id task.now }
    requires there { has_row_of rows.now row.now.dag_id row.now.logical task.now ≡ true }
    ensures { IfOk result (λ instance. instance
        ≡ instance_in rows.now row.now.dag_id row.now.logical task.now) }
{
    let task_id = task.task_id.as_str();
    match instance_at(&rows.instances, row.dag_id.as_str(), row.logical, task_id) {
        Some(place) => read_instance(alloc, &rows.instances[place], &buckets[place], task),
        None => unreachable!(),
    }
}
