//! The rule of `instance`.
ghost use Rattle.std.specs.Prelude.{◌≡◌, ◌&&◌, true, length, map};
ghost use Rattle.std.specs.List.{list_all, list_any};
ghost use Rattle.graph_file.specs.declared.task_specs.TaskSpec.{TaskSpec as Task};
ghost use Rattle.sched_state.specs.Lists.{same};
ghost use Rattle.sched_model.specs.Lists.{rises};
ghost use Rattle.sched_model.specs.Schedule.{graph_before, dag_among};
ghost use Rattle.record_rules.specs.Keys.{IsByKey, run_row_before, instance_row_before};
ghost use Rattle.record_rules.specs.Numbers.{is_between as spec_between};
ghost use Rattle.record_rules.specs.Reading.{is_of, tries_in};
ghost use Rattle.record_rules.specs.Faults as spec;
ghost use Rattle.record_restoring.specs.Dealing.{tries_among};

use crate::buckets::Bucket;
use crate::earlier::earlier;
use crate::finding::{graph_named, has_instance, has_run};
use dag_check::Graph;
use record_rows::{InstanceRow, Rows, RunRow};
use record_rules::verdict_of;
use sched_state::LoadedGraph;

// The first row of `instance` at fault. `buckets` are the tries of each row.
pub(crate) fn instance_fault(
    graphs: &[LoadedGraph],
    rows: &Rows,
    buckets: &[Bucket<'_>],
) -> Option<usize>
    requires order { rises graph_before graphs.now ≡ true }
    requires keyed { IsByKey rows.now }
    requires dealt { buckets.now ≡ map (tries_among rows.now.attempts) rows.now.instances }
    ensures { result ≡ spec.instance_fault graphs.now rows.now }
{
    let missing = if have_all(graphs, rows, &rows.runs) {
        None
    } else {
        Some(rows.instances.len())
    };
    earlier(first_bad(graphs, rows, &rows.instances, buckets), missing)
}

// The first row that is not right by itself.
fn first_bad(
    graphs: &[LoadedGraph],
    rows: &Rows,
    instances: &[InstanceRow],
    buckets: &[Bucket<'_>],
) -> Option<usize>
    requires order { rises graph_before graphs.now ≡ true }
    requires runs { rises run_row_before rows.now.runs ≡ true }
    requires dealt { buckets.now ≡ map (tries_among rows.now.attempts) instances.now }
    ensures { result ≡ spec.first_bad (spec.is_instance_row_right graphs.now rows.now)
        instances.now }
{
    for (position, row) in instances.iter().enumerate() {
        if !is_right(graphs, rows, row, buckets[position].len()) {
            return Some(position);
        }
    }
    None
}

// Whether a row with so many tries is right.
fn is_right(graphs: &[LoadedGraph], rows: &Rows, row: &InstanceRow, tries: usize) -> bool
    requires order { rises graph_before graphs.now ≡ true }
    requires runs { rises run_row_before rows.now.runs ≡ true }
    requires tries { tries
        ≡ length (tries_in rows.now row.now.dag_id row.now.logical row.now.task_id) }
    ensures { result ≡ spec.is_instance_row_right graphs.now rows.now row.now }
{
    is_known(graphs, rows, row) && is_state_right(row, tries)
}

// Whether the run and the task are there.
fn is_known(graphs: &[LoadedGraph], rows: &Rows, row: &InstanceRow) -> bool
    requires order { rises graph_before graphs.now ≡ true }
    requires runs { rises run_row_before rows.now.runs ≡ true }
    ensures { result ≡ (spec.has_run_row rows.now row.now.dag_id row.now.logical
        && spec.has_task (dag_among graphs.now row.now.dag_id).tasks row.now.task_id) }
{
    has_run(&rows.runs, row.dag_id.as_str(), row.logical)
        && has_task(graphs, row.dag_id.as_str(), row.task_id.as_str())
}

// Whether the verdict is a code, and no more tries are left behind than there are.
fn is_state_right(row: &InstanceRow, tries: usize) -> bool
    ensures { result ≡ (spec_between 0 3 row.now.verdict && spec_between 0 tries row.now.since) }
{
    verdict_of(row.verdict).is_some() && is_up_to(tries, row.since)
}

// Whether the number is at least 0 and at most the count.
fn is_up_to(count: usize, number: i64) -> bool
    ensures { result ≡ spec_between 0 count number }
{
    0 <= number && number as u64 <= count as u64
}

// Whether the graph with this id has a task with this one.
fn has_task(graphs: &[LoadedGraph], dag_id: &str, task_id: &str) -> bool
    requires { rises graph_before graphs.now ≡ true }
    ensures { result ≡ spec.has_task (dag_among graphs.now dag_id.now).tasks task_id.now }
{
    match graph_named(graphs, dag_id) {
        Some(graph) => has_task_in(&graph.dag, task_id),
        None => false,
    }
}

fn has_task_in(graph: &Graph, task_id: &str) -> bool
    ensures { result ≡ spec.has_task graph.now.tasks task_id.now }
{
    for place in 0..graph.len() {
        if graph.task(place).task_id.as_str() == task_id {
            return true;
        }
    }
    false
}

// Whether there is a row of each task of each run.
fn have_all(graphs: &[LoadedGraph], rows: &Rows, runs: &[RunRow]) -> bool
    requires order { rises graph_before graphs.now ≡ true }
    requires instances { rises instance_row_before rows.now.instances ≡ true }
    ensures { result ≡ list_all (spec.has_all_instances graphs.now rows.now) runs.now }
{
    for run in runs {
        if !has_all(graphs, rows, run) {
            return false;
        }
    }
    true
}

// Whether there is a row of each task of the run.
fn has_all(graphs: &[LoadedGraph], rows: &Rows, run: &RunRow) -> bool
    requires order { rises graph_before graphs.now ≡ true }
    requires instances { rises instance_row_before rows.now.instances ≡ true }
    ensures { result ≡ spec.has_all_instances graphs.now rows.now run.now }
{
    match graph_named(graphs, run.dag_id.as_str()) {
        Some(graph) => has_each(
            &graph.dag,
            &rows.instances,
            run.dag_id.as_str(),
            run.logical,
        ),
        None => true,
    }
}

// Whether there is a row of each task of the graph in the run of this date.
fn has_each(graph: &Graph, rows: &[InstanceRow], dag_id: &str, logical: i64) -> bool
    requires { rises instance_row_before rows.now ≡ true }
    ensures { result ≡ list_all (λ (t : Task). list_any (is_of dag_id.now logical t.task_id)
        rows.now) graph.now.tasks }
{
    for place in 0..graph.len() {
        let task_id = graph.task(place).task_id.as_str();
        if !has_instance(rows, dag_id, logical, task_id) {
            return false;
        }
    }
    true
}
