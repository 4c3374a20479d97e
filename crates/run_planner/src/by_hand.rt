//! Runs by hand.
ghost use Rattle.std.specs.Prelude.{◌≡◌};
ghost use Rattle.run_planner.specs.ByHand.{by_hand};

use crate::RunIndex;
use cron_timetable::Interval;
use dag_check::Graph;
use moment_core::Moment;

/// Why there is no run by hand. Where both hold the first is answered.
#[derive(Clone, Copy, Debug, PartialEq, Eq)]
pub enum PlanFault {
    /// A run has this logical date.
    RunExists,
    /// No interval between two ticks of a cron schedule has ended. Of the other timetables it never comes.
    NoInterval,
}

/// The data interval of a run by hand at `now`, which is its logical date: of a cron schedule the latest interval that has ended,
/// whatever the graph's start and end dates, and of a trigger timetable, `@once` and `None` the empty one at `now`.
///
/// This takes no memory. The rule is that of Airflow 2's page 'DAG Runs', on external triggers.
pub fn manual(graph: &Graph, now: Moment, index: &RunIndex) -> Result<Interval, PlanFault>
    ensures { result ≡ by_hand graph.now.spec now index.now.dates }
{
    if index.has_at(now.secs()) {
        return Err(PlanFault::RunExists);
    }
    graph
        .spec()
        .schedule
        .manual_interval(now)
        .ok_or(PlanFault::NoInterval)
}
