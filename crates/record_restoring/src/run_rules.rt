//! The rule of `run`.
ghost use Rattle.std.specs.Prelude.{◌≡◌, true};
ghost use Rattle.sched_model.specs.Lists.{rises};
ghost use Rattle.sched_model.specs.Schedule.{graph_before};
ghost use Rattle.record_rules.specs.Faults as spec;

use crate::earlier::{earlier, past_limit};
use crate::finding::graph_named;
use crate::run_columns::columns_of;
use record_rows::{Rows, RunRow};
use sched_state::{Limits, LoadedGraph};

// The first row of `run` at fault.
pub(crate) fn run_fault(graphs: &[LoadedGraph], limits: Limits, rows: &Rows) -> Option<usize>
    requires { rises graph_before graphs.now ≡ true }
    ensures { result ≡ spec.run_fault graphs.now limits rows.now }
{
    let limit = past_limit(limits.runs(), rows.runs.len());
    earlier(first_bad(graphs, &rows.runs), limit)
}

// The first row whose graph is not there, or whose columns are none.
fn first_bad(graphs: &[LoadedGraph], rows: &[RunRow]) -> Option<usize>
    requires { rises graph_before graphs.now ≡ true }
    ensures { result ≡ spec.first_bad (spec.is_run_row_right graphs.now) rows.now }
{
    for (position, row) in rows.iter().enumerate() {
        if !is_right(graphs, row) {
            return Some(position);
        }
    }
    None
}

fn is_right(graphs: &[LoadedGraph], row: &RunRow) -> bool
    requires { rises graph_before graphs.now ≡ true }
    ensures { result ≡ spec.is_run_row_right graphs.now row.now }
{
    graph_named(graphs, row.dag_id.as_str()).is_some() && columns_of(row).is_some()
}
