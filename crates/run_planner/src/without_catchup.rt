//! Planning without catchup: the latest due interval alone.
//!
//! The search goes back from the present, so its cost does not grow with the age of the graph.
//!
//! Easy to get wrong: past the graph's last date the latest due interval is the one that starts at or before that date.
ghost use Rattle.std.specs.Prelude.{◌≡◌, ◌↔◌, ◌⊎◌, ℕ, ◌+◌, ◌≤◌, true, MatchOption, option_to_list};
ghost use Rattle.moment_core.specs.Moments.{seconds_end};
ghost use Rattle.cron_timetable.specs.Ticks.{NoneBetween};
ghost use Rattle.run_planner.specs.Due.{due_intervals, last_alone, is_up_to};
ghost use Rattle.run_planner.specs.Latest.{IsLatestDue, LatestDue};

use crate::walking::is_up_to;
use cron_timetable::{Cron, Interval, Timetable};
use graph_file::GraphSpec;
use moment_core::Moment;

// The latest due interval within a graph's dates. Before the graph's start there is nothing to search for.
pub(crate) fn latest_due(graph: &GraphSpec, now: Moment) -> Option<Interval>
    ensures { let all = due_intervals graph.now.schedule graph.now.start_date
        graph.now.end_date now in option_to_list result ≡ last_alone all }
{
    if now.secs() < graph.start_date.secs() {
        return None;
    }
    match &graph.schedule {
        Timetable::Cron(cron) => latest_interval(cron, graph, now),
        Timetable::Trigger(cron) => latest_tick(cron, graph, now),
        Timetable::Once => once_due(graph, now),
        Timetable::Never => None,
    }
}

// The latest due interval of a cron expression.
fn latest_interval(cron: &Cron, graph: &GraphSpec, now: Moment) -> Option<Interval>
    ensures { LatestDue (Timetable.Cron cron.now) graph.now.start_date graph.now.end_date now
        result }
{
    let latest = latest_up_to(cron, &graph.end_date, now)?;
    if graph.start_date.secs() <= latest.start.secs() {
        Some(latest)
    } else {
        None
    }
}

// The latest interval that has ended at `now` and starts not past `last`.
fn latest_up_to(cron: &Cron, last: &Option<Moment>, now: Moment) -> Option<Interval>
    ensures { LatestDue (Timetable.Cron cron.now) 0 last.now now result }
{
    let ended = Timetable::Cron(*cron).manual_interval(now)?;
    match last {
        Some(last) if last.secs() < ended.start.secs() => last_started(cron, *last),
        _ => Some(ended),
    }
}

// The latest interval that starts not past `last`, whenever it ends; there may be none where a tick is missing on a side of `last`.
fn last_started(cron: &Cron, last: Moment) -> Option<Interval>
    ensures { MatchOption result
        (NoneBetween cron.now 0 (last + 1) ⊎ NoneBetween cron.now (last + 1) seconds_end)
        (IsLatestDue (Timetable.Cron cron.now) 0 (Some last) seconds_end) }
{
    let start = cron.last_at_or_before(last)?;
    let end = cron.next_after(start)?;
    Some(Interval { start, end })
}

// The latest due interval of a trigger timetable: at the greatest tick that is past neither `now` nor the last date.
fn latest_tick(cron: &Cron, graph: &GraphSpec, now: Moment) -> Option<Interval>
    ensures { LatestDue (Timetable.Trigger cron.now) graph.now.start_date graph.now.end_date now
        result }
{
    let tick = cron.last_at_or_before(latest_start(&graph.end_date, now))?;
    if graph.start_date.secs() <= tick.secs() {
        Some(Interval::empty_at(tick))
    } else {
        None
    }
}

// The latest moment that is past neither `now` nor the last date.
fn latest_start(last: &Option<Moment>, now: Moment) -> Moment
    ensures { (m : ℕ) → ((m ≤ now) × (is_up_to last.now m ≡ true)) ↔ (m ≤ result) }
{
    match last {
        Some(last) if last.secs() < now.secs() => *last,
        _ => now,
    }
}

// The one interval of `Once`, where it is due.
#[tactic(auto, unfolding(crate::specs::Due::due_intervals))]
fn once_due(graph: &GraphSpec, now: Moment) -> Option<Interval>
    ensures { option_to_list result ≡ due_intervals Timetable.Once graph.now.start_date
        graph.now.end_date now }
{
    let start = graph.start_date;
    if is_up_to(&graph.end_date, start) && start.secs() <= now.secs() {
        Some(Interval::empty_at(start))
    } else {
        None
    }
}
