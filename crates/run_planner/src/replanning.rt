//! What another text of a graph would make beside the runs that are there.
//!
//! Easy to get wrong: an interval that is wanted by both texts, which the graph owes still, is not made anew by the new one.
ghost use Rattle.std.specs.Prelude.{◌≡◌, ℕ, length, not, nat_lt, IfOk};
ghost use Rattle.std.specs.List.{list_any};
ghost use Rattle.cron_timetable.specs.declared.timetables.Interval.{Interval};
ghost use Rattle.run_planner.specs.Anew.{wanted_anew};
ghost use Rattle.run_planner.specs.Due.{wanted_intervals};
ghost use Rattle.run_planner.specs.Index.{has_date};
ghost use Rattle.run_planner.specs.Spans.{starts};

use crate::planning::due;
use crate::run_index::RunIndex;
use cron_timetable::Interval;
use dag_check::Graph;
use moment_core::Moment;
use std::alloc::{AllocError, Global};

/// Whether there is an interval for which the new text of a graph wants a run at `now`, and the old one does not; an [index](RunIndex) has
/// the logical dates of the graph's runs. The only error is want of memory. The cost, in memory too, follows the number of intervals that the
/// old text wants, and in time also that of those of the new one that have a run.
pub fn makes_anew(
    alloc: Global,
    old: &Graph,
    new: &Graph,
    now: Moment,
    index: &RunIndex,
) -> Result<bool, AllocError>
    ensures { IfOk result (λ anew. anew
        ≡ nat_lt 0 (length (wanted_anew old.now.spec new.now.spec now index.now.dates))) }
{
    let owed = all_wanted(alloc, old, now, index)?;
    let known = index_of(alloc, &owed)?;
    let wanted = due(alloc, new, now, index, owed.len() + 1)?.intervals;
    Ok(lacks_some(&known, &wanted))
}

// All intervals that a graph wants, the oldest first.
fn all_wanted(
    alloc: Global,
    graph: &Graph,
    now: Moment,
    index: &RunIndex,
) -> Result<Vec<Interval>, AllocError>
    ensures { IfOk result (λ is. is.items ≡ wanted_intervals graph.now.spec now index.now.dates) }
{
    let planned = due(alloc, graph, now, index, usize::MAX)?;
    if planned.more {
        return Err(AllocError);
    }
    Ok(planned.intervals)
}

// The starts of intervals, as an index.
fn index_of(alloc: Global, intervals: &[Interval]) -> Result<RunIndex, AllocError>
    ensures { IfOk result (λ x. (d : ℕ) → has_date x.dates d
        ≡ has_date (starts intervals.now) d) }
{
    let mut index = RunIndex::new(alloc);
    index.reserve(intervals.len())?;
    for interval in intervals {
        index.add(interval.start);
    }
    Ok(index)
}

// Whether the start of one of the intervals is not in the index.
fn lacks_some(index: &RunIndex, intervals: &[Interval]) -> bool
    ensures { result ≡ list_any (λ (i : Interval). not (has_date index.now.dates i.start)) intervals.now }
{
    intervals.iter().any(|interval| !index.has(interval.start))
}
