//! Which intervals of a graph want a run.
//!
//! Easy to get wrong: a run is due at the end of its interval, and its logical date is the start.
ghost use Rattle.std.specs.Prelude.{◌≡◌, IfOk, option_to_list};
ghost use Rattle.run_planner.specs.Due.{wanted_intervals, without_runs, IsFirst};

use crate::RunIndex;
use crate::catchup::all_due;
use crate::without_catchup::latest_due;
use cron_timetable::Interval;
use dag_check::Graph;
use graph_file::GraphSpec;
use moment_core::Moment;
use std::alloc::{AllocError, Global};

/// Intervals that want a run.
#[derive(Debug, Drop)]
pub struct Planned {
    /// The first of them, the oldest first.
    pub intervals: Vec<Interval>,
    /// Whether there are others.
    pub more: bool,
}

/// The first `limit` intervals of a graph that want a run at `now`: they start from its `start_date` on and not past its
/// `end_date`, have ended, and their start is the logical date of no run. With `catchup` each such interval counts, without it
/// only the latest that is due.
///
/// `Trigger` has the empty interval at each tick, `Once` the one at `start_date`, and `Never` none. The only error is want of memory.
/// With an index whose [cursor was moved](RunIndex::move_cursor) for the graph, the walk begins past the starts that have a run.
///
/// The rules are those of Airflow 2's page 'DAG Runs'.
pub fn due(
    alloc: Global,
    graph: &Graph,
    now: Moment,
    index: &RunIndex,
    limit: usize,
) -> Result<Planned, AllocError>
    ensures { IfOk result (λ p. IsFirst (wanted_intervals graph.now.spec now index.now.dates) limit
        p.intervals.items p.more) }
{
    due_of(alloc, graph.spec(), now, index, limit)
}

// The same by what the graph's file says.
fn due_of(
    alloc: Global,
    graph: &GraphSpec,
    now: Moment,
    index: &RunIndex,
    limit: usize,
) -> Result<Planned, AllocError>
    ensures { IfOk result (λ p. IsFirst (wanted_intervals graph.now now index.now.dates) limit
        p.intervals.items p.more) }
{
    if graph.catchup {
        all_due(alloc, graph, now, index, limit)
    } else {
        plan_one(alloc, latest_due(graph, now), index, limit)
    }
}

// An interval alone, or none, unless it has a run.
fn plan_one(
    alloc: Global,
    interval: Option<Interval>,
    index: &RunIndex,
    limit: usize,
) -> Result<Planned, AllocError>
    ensures { let all = without_runs index.now.dates (option_to_list interval) in
        IfOk result (λ p. IsFirst all limit p.intervals.items p.more) }
{
    let mut intervals = Vec::new(alloc);
    let mut more = false;
    if let Some(interval) = interval {
        if !index.has(interval.start) {
            if limit > 0 {
                intervals.push(interval)?;
            } else {
                more = true;
            }
        }
    }
    Ok(Planned { intervals, more })
}
