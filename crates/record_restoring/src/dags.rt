//! The rule of `dag`, and the graphs that its rows say.
ghost use Rattle.std.specs.Prelude.{◌≡◌, ◌&&◌, ◌≤◌, IfOk, IfErr, None, Some, true, [], ◌∷◌, ◌++◌, OnOk, IfSome, is_some, length, nat_le, sum_by};
ghost use Rattle.std.specs.List.{list_all, list_any};
ghost use Rattle.graph_file.specs.TaskLists.{upstream_limit};
ghost use Rattle.graph_file.specs.declared.task_specs.TaskSpec.{TaskSpec as Task};
ghost use Rattle.record_rows.specs.Rows.{PoolRow as Row};
ghost use Rattle.record_rows.specs.declared.tables.Table.TheVariants as table;
ghost use Rattle.sched_state.specs.Lists.{same};
ghost use Rattle.sched_model.specs.Lists.{rises};
ghost use Rattle.record_rules.specs.Keys.{dag_limit_row_before};
ghost use Rattle.record_rules.specs.Numbers.{is_between as spec_between};
ghost use Rattle.record_rules.specs.Reading.{reads, graph_if, graphs_of};
ghost use Rattle.record_rules.specs.Reading as reading;
ghost use Rattle.record_rules.specs.Faults as spec;
ghost use Rattle.record_restoring.specs.Results.{IsFault, is_memory};

use crate::columns::is_between;
use crate::earlier::{earlier, past_limit};
use crate::faults::RestoreFault;
use crate::finding::limit_named;
use crate::numbers::{USUAL_BOUND, bound_of};
use crate::pools::has_pool;
use dag_check::{DagFault, Graph, check};
use graph_file::{Bounded, GraphFault, GraphSpec, TaskSpec, read_graph};
use record_rows::{DagRow, PoolRow, Rows, Table};
use record_rules::flag_of;
use sched_state::{GraphText, Limits, LoadedGraph};
use std::alloc::{AllocError, Global};

// The graphs that the rows of `dag` say, or the first row at fault.
pub(crate) fn read_graphs(
    alloc: Global,
    limits: Limits,
    rows: &Rows,
    dags: &[DagRow],
) -> Result<Vec<LoadedGraph>, RestoreFault>
    requires dags { dags.now ≡ rows.now.dags }
    requires limits { rises dag_limit_row_before rows.now.dag_limits ≡ true }
    ensures right { IfOk result (λ _. spec.dag_fault (reads limits) limits rows.now ≡ None) }
    ensures graphs { IfOk result (λ graphs. graphs.items ≡ graphs_of (reads limits) rows.now) }
    ensures fault { IfErr result (IsFault (spec.in_table table.Dag
        (spec.dag_fault (reads limits) limits rows.now))) }
{
    let limit = past_limit(limits.graphs(), dags.len());
    let mut graphs = Vec::new(alloc);
    for (position, row) in dags.iter().enumerate() {
        match read_row(alloc, limits, rows, row)? {
            Some(graph) => push(&mut graphs, graph)?,
            None => return Err(at_fault(earlier(Some(position), limit))),
        }
    }
    match limit {
        None => Ok(graphs),
        Some(_) => Err(at_fault(limit)),
    }
}

// The fault of a row of `dag`.
fn at_fault(row: Option<usize>) -> RestoreFault
    ensures { IsFault (spec.in_table table.Dag row) result }
{
    match row {
        Some(row) => RestoreFault::Inconsistent(Table::Dag, row),
        None => RestoreFault::Memory,
    }
}

// Adds a graph.
fn push(graphs: &mut Vec<LoadedGraph>, graph: LoadedGraph) -> Result<(), AllocError>
    ensures { OnOk result (graphs.new.items ≡ graphs.old.items ++ graph ∷ []) }
{
    graphs.push(graph)?;
    Ok(())
}

// The graph of a row, where it is right.
fn read_row(
    alloc: Global,
    limits: Limits,
    rows: &Rows,
    row: &DagRow,
) -> Result<Option<LoadedGraph>, AllocError>
    requires { rises dag_limit_row_before rows.now.dag_limits ≡ true }
    ensures right { IfOk result (λ graph. is_some graph
        ≡ spec.is_dag_row_right (reads limits) rows.now row.now) }
    ensures graph { IfOk result (λ graph. IfSome graph (λ g.
        graph_if (reading.bound_in rows.now row.now.dag_id) row.now (reads limits row.now.body)
        ≡ g ∷ [])) }
{
    let Some(dag) = read_body(alloc, limits, row.body.as_str())? else {
        return Ok(None);
    };
    if !is_right(rows, row, &dag) {
        return Ok(None);
    }
    Ok(Some(LoadedGraph {
        text: GraphText::new(alloc, row.body.as_str())?,
        dag,
        paused: flag_of(row.paused),
        max_active_tasks: bound_in(rows, row.dag_id.as_str()),
    }))
}

// The bound of the graph with this id; where it has no row, the usual one.
fn bound_in(rows: &Rows, dag_id: &str) -> Bounded<1, 1_000_000>
    requires { rises dag_limit_row_before rows.now.dag_limits ≡ true }
    ensures { result ≡ reading.bound_in rows.now dag_id.now }
{
    match limit_named(&rows.dag_limits, dag_id) {
        Some(row) => bound_of(row.max_active_tasks),
        None => Bounded::new(USUAL_BOUND),
    }
}

// Whether the graph of the row's body is the row's, its pools are there, and the pause is a code.
fn is_right(rows: &Rows, row: &DagRow, dag: &Graph) -> bool
    ensures { result ≡ (spec.is_body_right rows.now row.now.dag_id (Some dag.now)
        && spec_between 0 1 row.now.paused) }
{
    is_graph_right(rows, row, dag) && is_between(0, 1, row.paused)
}

// Whether the graph of the row's body is the row's, and its pools are there.
fn is_graph_right(rows: &Rows, row: &DagRow, dag: &Graph) -> bool
    ensures { result ≡ spec.is_body_right rows.now row.now.dag_id (Some dag.now) }
{
    dag.spec().dag_id.as_str() == row.dag_id.as_str() && are_pools_there(&rows.pools, dag)
}

// Whether there is a row of the pool of each task.
fn are_pools_there(pools: &[PoolRow], graph: &Graph) -> bool
    ensures { result ≡ list_all (λ (t : Task). list_any (λ (p : Row). same p.name t.pool) pools.now)
        graph.now.tasks }
{
    for place in 0..graph.len() {
        if !has_pool(pools, graph.task(place).pool.as_str()) {
            return false;
        }
    }
    true
}

// The graph that a text says within the limits, if it says one.
fn read_body(alloc: Global, limits: Limits, text: &str) -> Result<Option<Graph>, AllocError>
    ensures { IfOk result (λ graph. graph ≡ reads limits text.now) }
{
    let spec = match read_graph(alloc, text) {
        Ok(spec) => spec,
        Err(GraphFault::Memory) => return Err(AllocError),
        Err(_) => return Ok(None),
    };
    let is_within = is_within(limits, &spec);
    match check(alloc, spec) {
        Ok(graph) => { if is_within { Ok(Some(graph)) } else { Ok(None) } }
        Err((_, fault)) => {
            if is_memory(&fault) {
                Err(AllocError)
            } else {
                Ok(None)
            }
        }
    }
}

fn is_memory(fault: &DagFault) -> bool
    ensures { result ≡ is_memory fault.now }
{
    matches!(fault, DagFault::Memory)
}

/// Whether the file has no more tasks and upstream names than the limits allow.
pub fn is_within(limits: Limits, spec: &GraphSpec) -> bool
    ensures { result ≡ (nat_le (length spec.now.tasks) limits.tasks
        && nat_le (sum_by (λ (t : Task). length t.upstream) spec.now.tasks) limits.edges) }
{
    let tasks = spec.tasks.as_slice();
    tasks.len() <= limits.tasks() as usize && edge_count(tasks) <= limits.edges() as usize
}

// How many upstream names the tasks have in all.
fn edge_count(tasks: &[TaskSpec]) -> usize
    requires { sum_by (λ (t : Task). length t.upstream) tasks.now ≤ upstream_limit }
    ensures { result ≡ sum_by (λ (t : Task). length t.upstream) tasks.now }
{
    tasks
        .iter()
        .map(|task| task.upstream.as_slice().len())
        .sum()
}
