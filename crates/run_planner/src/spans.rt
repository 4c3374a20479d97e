//! What is found in a span of past days, interval by interval.
ghost use Rattle.std.specs.Prelude.{◌++◌, ◌∷◌, [], List, Some, IsOk};
ghost use Rattle.cron_timetable.specs.declared.timetables.Interval.{Interval as IntervalRecord};
ghost use Rattle.run_planner.specs.Spans.{IsBackfill};
ghost use Rattle.run_planner.specs.Walks.{due_from};

use crate::RunIndex;
use crate::walking::{Step, first_due};
use cron_timetable::{Interval, Timetable};
use moment_core::Moment;
use std::alloc::{AllocError, Global};

/// What a backfill finds in its span.
#[derive(Debug, Drop)]
pub struct Backfill {
    /// The first intervals without a run, the oldest first.
    pub fresh: Vec<Interval>,
    /// The logical dates of all intervals that have a run, the oldest first.
    pub present: Vec<Moment>,
    /// Whether there are other intervals without a run.
    pub more: bool,
}

impl Backfill {
    // Counts one more interval: present where it has a run, and else fresh.
    pub(crate) fn count(
        &mut self,
        interval: Interval,
        index: &RunIndex,
        limit: usize,
    ) -> Result<(), AllocError>
        ensures { IsOk result → (is : List IntervalRecord)
            → IsBackfill index.now.dates is limit self.old
            → IsBackfill index.now.dates (is ++ interval ∷ []) limit self.new }
    {
        if index.has(interval.start) {
            self.present.push(interval.start)?;
        } else if self.fresh.len() < limit {
            self.fresh.push(interval)?;
        } else {
            self.more = true;
        }
        Ok(())
    }

    // Counts the intervals of a timetable in the span that start from a moment on, the oldest first.
    pub(crate) fn walk(
        &mut self,
        timetable: &Timetable,
        from: Option<Moment>,
        to: Moment,
        now: Moment,
        index: &RunIndex,
        limit: usize,
    ) -> Result<(), AllocError>
        requires { IsBackfill index.now.dates [] limit self.old }
        ensures { IsOk result → IsBackfill index.now.dates
            (due_from timetable.now from (Some to) now) limit self.new }
    {
        let last = Some(to);
        let mut start = from;
        'walk: loop {
            match first_due(timetable, start, &last, now) {
                None => return Ok(()),
                Some(Step { interval, next }) => {
                    self.count(interval, index, limit)?;
                    start = next;
                }
            }
        }
    }
}
