//! Timetables, and the data intervals of their runs.
//!
//! Easy to get wrong: an interval's start is a tick, and its run is due at its end, the tick after. A trigger timetable's intervals
//! are empty, so what goes on from an interval's end finds the same one again: the next starts a second later or more.
ghost use Rattle.std.specs.Prelude.{◌≡◌};
ghost use Rattle.cron_timetable.specs.Intervals.{empty_at, IntervalFrom, ManualInterval};

use crate::Cron;
use moment_core::Moment;

/// When a graph's runs come.
#[derive(Clone, Copy, Debug, PartialEq, Eq)]
pub enum Timetable {
    /// One run for each two neighbouring ticks.
    Cron(Cron),
    /// One run at each tick, Airflow's cron trigger timetable. Its interval is empty.
    Trigger(Cron),
    /// One run, Airflow's `@once`.
    Once,
    /// Only runs by hand, Airflow's `None`.
    Never,
}

/// The data interval of a run: from `start`, included, to `end`, excluded. It may be empty.
#[derive(Clone, Copy, Debug, PartialEq, Eq)]
pub struct Interval {
    pub start: Moment,
    pub end: Moment,
}

impl Interval {
    /// The empty interval at a moment.
    pub fn empty_at(moment: Moment) -> Interval
        ensures { result ≡ empty_at moment }
    {
        Interval {
            start: moment,
            end: moment,
        }
    }
}

impl Timetable {
    /// The first interval whose start is at or after `from`; both ends have to be moments.
    ///
    /// For `Trigger` it is the empty interval at the first tick at or after `from`, for `Once` the empty one at `from`, and for `Never`
    /// there is none.
    pub fn interval_from(&self, from: Moment) -> Option<Interval>
        ensures { IntervalFrom self.now from result }
    {
        match self {
            Timetable::Cron(cron) => {
                let start = cron.next_at_or_after(from)?;
                let end = cron.next_after(start)?;
                Some(Interval { start, end })
            }
            Timetable::Trigger(cron) => {
                let tick = cron.next_at_or_after(from)?;
                Some(Interval::empty_at(tick))
            }
            Timetable::Once => Some(Interval::empty_at(from)),
            Timetable::Never => None,
        }
    }

    /// The interval of a run by hand at `now`: the last one whose end is at or before `now`.
    ///
    /// For `Trigger`, `Once` and `Never` it is the empty interval at `now`.
    pub fn manual_interval(&self, now: Moment) -> Option<Interval>
        ensures { ManualInterval self.now now result }
    {
        match self {
            Timetable::Cron(cron) => {
                let end = cron.last_at_or_before(now)?;
                let start = cron.last_before(end)?;
                Some(Interval { start, end })
            }
            Timetable::Trigger(_) | Timetable::Once | Timetable::Never => {
                Some(Interval::empty_at(now))
            }
        }
    }
}
