//! The rule of `dag_limit`.
ghost use Rattle.std.specs.Prelude.{◌≡◌, ◌&&◌, ◌||◌, true, pos};
ghost use Rattle.std.specs.List.{list_all, list_any};
ghost use Rattle.std.specs.Ordering.{int_eq};
ghost use Rattle.record_rows.specs.Rows.{DagRow as Row, DagLimitRow as Limit};
ghost use Rattle.sched_state.specs.Lists.{same};
ghost use Rattle.sched_model.specs.Lists.{rises};
ghost use Rattle.sched_model.specs.Schedule.{graph_before, usual_bound, old_bound};
ghost use Rattle.record_rules.specs.Keys.{dag_limit_row_before};
ghost use Rattle.record_rules.specs.Numbers.{is_between as spec_between};
ghost use Rattle.record_rules.specs.Faults as spec;

use crate::columns::is_between;
use crate::earlier::earlier;
use crate::finding::{graph_named, limit_named};
use crate::numbers::{OLD_BOUND, USUAL_BOUND};
use dag_check::Graph;
use record_rows::{DagLimitRow, DagRow, Rows};
use sched_state::LoadedGraph;

// The first row of `dag_limit` at fault.
pub(crate) fn limit_fault(graphs: &[LoadedGraph], rows: &Rows) -> Option<usize>
    requires order { rises graph_before graphs.now ≡ true }
    requires limits { rises dag_limit_row_before rows.now.dag_limits ≡ true }
    ensures { result ≡ spec.limit_fault graphs.now rows.now }
{
    let missing = if have_all(rows, &rows.dags) {
        None
    } else {
        Some(rows.dag_limits.len())
    };
    earlier(first_bad(graphs, &rows.dag_limits), missing)
}

// The first row that is not right by itself.
fn first_bad(graphs: &[LoadedGraph], rows: &[DagLimitRow]) -> Option<usize>
    requires { rises graph_before graphs.now ≡ true }
    ensures { result ≡ spec.first_bad (spec.is_limit_row_right graphs.now) rows.now }
{
    for (position, row) in rows.iter().enumerate() {
        if !is_right(graphs, row) {
            return Some(position);
        }
    }
    None
}

fn is_right(graphs: &[LoadedGraph], row: &DagLimitRow) -> bool
    requires { rises graph_before graphs.now ≡ true }
    ensures { result ≡ spec.is_limit_row_right graphs.now row.now }
{
    match graph_named(graphs, row.dag_id.as_str()) {
        Some(graph) => is_limit_of(&graph.dag, row.max_active_tasks),
        None => false,
    }
}

// Whether the number is in its range, and the one that the graph's text says, or one of two where that says none.
fn is_limit_of(graph: &Graph, number: i64) -> bool
    ensures { result ≡ (spec_between 1 1000000 number
        && spec.says_column graph.now.spec.max_active_tasks number) }
{
    is_between(1, 1_000_000, number) && is_said(graph, number)
}

fn is_said(graph: &Graph, number: i64) -> bool
    ensures { result ≡ spec.says_column graph.now.spec.max_active_tasks number }
{
    match graph.spec().max_active_tasks {
        Some(said) => number == i64::from(said.get()),
        None => number == i64::from(USUAL_BOUND) || number == i64::from(OLD_BOUND),
    }
}

// Whether there is a row of each graph.
fn have_all(rows: &Rows, dags: &[DagRow]) -> bool
    requires { rises dag_limit_row_before rows.now.dag_limits ≡ true }
    ensures { result ≡ list_all (spec.has_limit_row rows.now) dags.now }
{
    for dag in dags {
        if !has_one(rows, dag) {
            return false;
        }
    }
    true
}

fn has_one(rows: &Rows, dag: &DagRow) -> bool
    requires { rises dag_limit_row_before rows.now.dag_limits ≡ true }
    ensures { result ≡ spec.has_limit_row rows.now dag.now }
{
    match limit_named(&rows.dag_limits, dag.dag_id.as_str()) {
        Some(_) => true,
        None => false,
    }
}
