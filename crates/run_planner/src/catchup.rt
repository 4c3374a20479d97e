//! Planning with catchup: every due interval that has no run, the oldest first.
//!
//! Easy to get wrong: an interval that has a run takes no place in the limit.
ghost use Rattle.std.specs.Prelude.{IfOk};
ghost use Rattle.run_planner.specs.Due.{due_intervals, without_runs, IsFirst};

use crate::walking::{Step, first_due};
use crate::{Planned, RunIndex};
use graph_file::GraphSpec;
use moment_core::Moment;
use std::alloc::{AllocError, Global};

// The first `limit` of the due intervals within a graph's dates that have no run. The walk begins past the starts that the index
// knows to have one.
pub(crate) fn all_due(
    alloc: Global,
    graph: &GraphSpec,
    now: Moment,
    index: &RunIndex,
    limit: usize,
) -> Result<Planned, AllocError>
    ensures { let all = due_intervals graph.now.schedule graph.now.start_date
        graph.now.end_date now in IfOk result
        (λ p. IsFirst (without_runs index.now.dates all) limit p.intervals.items p.more) }
{
    let mut intervals = Vec::new(alloc);
    let mut from = Some(index.cursor_for(graph));
    'walk: loop {
        match first_due(&graph.schedule, from, &graph.end_date, now) {
            None => return Ok(Planned {
                intervals,
                more: false,
            }),
            Some(Step { interval, next }) => {
                if !index.has(interval.start) {
                    if intervals.len() >= limit {
                        return Ok(Planned {
                            intervals,
                            more: true,
                        });
                    }
                    intervals.push(interval)?;
                }
                from = next;
            }
        }
    }
}
