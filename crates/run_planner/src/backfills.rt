//! Backfills: the runs of a span of past days.
//!
//! Easy to get wrong: the span is bounded by the words of the backfill, and not by the graph's start and end dates.
ghost use Rattle.std.specs.Prelude.{◌≡◌, ℕ, IfOk};
ghost use Rattle.run_planner.specs.Spans.{span_intervals, IsBackfill};
ghost use Rattle.run_planner.specs.Walks.{due_from};

use crate::{Backfill, RunIndex};
use cron_timetable::Timetable;
use dag_check::Graph;
use graph_file::GraphSpec;
use moment_core::Moment;
use std::alloc::{AllocError, Global};

/// The intervals of a graph that start from `from` on and not past `to`, and have ended at `now`: the first `limit` of those
/// without a run, and the dates of those that have one. The graph's start and end dates bound nothing.
///
/// `@once` has its empty interval at the start date, and `None` has none. The only error is want of memory. The cost follows the
/// number of intervals in the span.
///
/// The rule is that of Airflow 2's page 'DAG Runs', on backfill.
pub fn backfill(
    alloc: Global,
    graph: &Graph,
    from: Moment,
    to: Moment,
    now: Moment,
    index: &RunIndex,
    limit: usize,
) -> Result<Backfill, AllocError>
    ensures { IfOk result (IsBackfill index.now.dates (span_intervals graph.now.spec from to now)
        limit) }
{
    let mut found = Backfill {
        fresh: Vec::new(alloc),
        present: Vec::new(alloc),
        more: false,
    };
    let spec = graph.spec();
    found.walk(
        &spec.schedule,
        span_start(spec, from),
        to,
        now,
        index,
        limit,
    )?;
    Ok(found)
}

// From where on the intervals of a span start, if any do: the one of `@once` is at the start date.
fn span_start(spec: &GraphSpec, from: Moment) -> Option<Moment>
    ensures { (to t : ℕ) → due_from spec.now.schedule result (Some to) t
        ≡ span_intervals spec.now from to t }
{
    match spec.schedule {
        Timetable::Once => {
            if from.secs() <= spec.start_date.secs() {
                Some(spec.start_date)
            } else {
                None
            }
        }
        _ => Some(from),
    }
}
