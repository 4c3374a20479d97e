//! Which runs a timetable or a user names for one graph: those that are due and have no run yet, one by hand, those of a span of past
//! days.
//!
//! [`due`] plans: it lists the intervals of a graph that have ended and have no run, the oldest first and no more than a limit.
//! [`manual`] gives the interval of a run by hand, [`backfill`] the intervals of a span, with and without a run. A [`RunIndex`] is the
//! set of the logical dates of a graph's runs; where its [cursor was moved](RunIndex::move_cursor) for the graph, `due` passes over the starts
//! that have a run. [`makes_anew`] tells whether another text of a graph would make runs of the past.
//!
//! ```text
//! let mut index = RunIndex::new(rt.alloc());
//! let planned = due(rt.alloc(), &graph, now, &index, 10)?;   // "@daily" from 2024-02-28 on, at 2024-03-01
//! planned.intervals   // 2024-02-28 to 2024-02-29, and 2024-02-29 to 2024-03-01
//! planned.more        // false
//! ```
#![tactic(auto)]

mod backfills;
mod by_hand;
mod catchup;
mod laws;
mod planning;
mod replanning;
mod run_index;
mod spans;
mod walking;
mod without_catchup;

pub use backfills::backfill;
pub use by_hand::{PlanFault, manual};
pub use laws::{
    a_run_by_hand_has_the_last_interval, a_span_holds_its_intervals, due_intervals_are_intervals,
    due_intervals_rise, no_later_tick_makes_a_run_anew,
};
pub use planning::{Planned, due};
pub use replanning::makes_anew;
pub use run_index::RunIndex;
pub use spans::Backfill;
