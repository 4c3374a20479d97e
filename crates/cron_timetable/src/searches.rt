//! The searches for the tick next to a moment.
//!
//! They jump field by field: each turn passes over the months, the days, the hours or the minutes that no field names, up to the
//! next one that is named. So a search for a leap day eight years ahead takes some twenty turns.
ghost use Rattle.std.specs.Prelude.{◌≡◌, ◌+◌, ◌-◌, ◌%◌, ◌≤◌, ◌<◌, true};
ghost use Rattle.moment_core.specs.Moments.{seconds_end};
ghost use Rattle.cron_timetable.specs.Fields.{fires};
ghost use Rattle.cron_timetable.specs.Ticks.{NoneBetween, IsNextTick, IsLastTick};

use crate::Cron;
use moment_core::{END, Moment};

impl Cron {
    /// The least tick at or after `from`, or `None` where there is none before 2200.
    pub fn next_at_or_after(&self, from: Moment) -> Option<Moment>
        ensures { IsNextTick self.now from result }
    {
        let (tick, _turns) = self.search(from);
        tick
    }

    /// The least tick after `from`, or `None` where there is none before 2200.
    pub fn next_after(&self, from: Moment) -> Option<Moment>
        ensures { IsNextTick self.now (from + 1) result }
    {
        let after = from.checked_plus(1)?;
        self.next_at_or_after(after)
    }

    /// The greatest tick at or before `from`, or `None` where there is none since 1970.
    pub fn last_at_or_before(&self, from: Moment) -> Option<Moment>
        ensures { IsLastTick self.now (from + 1) result }
    {
        if self.fires(from) {
            Some(from)
        } else {
            self.last_before(from)
        }
    }

    /// The greatest tick before `from`, or `None` where there is none since 1970.
    pub fn last_before(&self, from: Moment) -> Option<Moment>
        ensures { IsLastTick self.now from result }
    {
        let (tick, _turns) = self.search_back(from);
        tick
    }

    // The least tick at or after `from`, and the number of turns of the search.
    pub(crate) fn search(&self, from: Moment) -> (Option<Moment>, u64)
        ensures { IsNextTick self.now from result.0 }
    {
        let mut secs = from.secs().div_ceil(60) * 60;
        let mut turns = 0;
        while secs < END {
            turns += 1;
            let next = self.jump(secs);
            if next == secs {
                return (Some(Moment::at(secs)), turns);
            }
            secs = next;
        }
        (None, turns)
    }

    // The greatest tick before `from`, and the number of turns of the search.
    pub(crate) fn search_back(&self, from: Moment) -> (Option<Moment>, u64)
        ensures { IsLastTick self.now from result.0 }
    {
        let mut end = from.secs().div_ceil(60) * 60;
        let mut turns = 0;
        while end > 0 {
            turns += 1;
            let before = self.jump_back(end);
            if before == end {
                return (Some(Moment::at(end - 60)), turns);
            }
            end = before;
        }
        (None, turns)
    }

    // The second before which nothing fires from `secs` on, at most a year later; `secs` itself where it fires.
    fn jump(&self, secs: u64) -> u64
        requires in_range { secs < seconds_end }
        requires whole { secs % 60 ≡ 0 }
        ensures ahead { secs ≤ result }
        ensures whole { result % 60 ≡ 0 }
        ensures none { NoneBetween self.now secs result }
        ensures stays { result ≡ secs → fires self.now secs ≡ true }
    {
        let day = (secs / 86_400) as u32;
        let next_day = self.jump_days(day);
        if next_day > day {
            return u64::from(next_day) * 86_400;
        }
        let hour = (secs % 86_400 / 3_600) as u32;
        let next_hour = self.hours.least_from(hour).min(24);
        if next_hour > hour {
            return secs / 86_400 * 86_400 + u64::from(next_hour) * 3_600;
        }
        let minute = (secs % 3_600 / 60) as u32;
        let next_minute = self.minutes.least_from(minute).min(60);
        secs / 3_600 * 3_600 + u64::from(next_minute) * 60
    }

    // The second from which on nothing fires before `end`, at most a year earlier; `end` itself where the minute before it fires.
    fn jump_back(&self, end: u64) -> u64
        requires some { 0 < end }
        requires in_range { end ≤ seconds_end }
        requires whole { end % 60 ≡ 0 }
        ensures behind { result ≤ end }
        ensures whole { result % 60 ≡ 0 }
        ensures none { NoneBetween self.now result end }
        ensures stays { result ≡ end → fires self.now (end - 60) ≡ true }
    {
        let secs = end - 60;
        let day = (secs / 86_400) as u32;
        let end_day = self.jump_days_back(day);
        if end_day <= day {
            return u64::from(end_day) * 86_400;
        }
        let hour = (secs % 86_400 / 3_600) as u32;
        let end_hour = self.hours.past_greatest_to(hour);
        if end_hour <= hour {
            return secs / 86_400 * 86_400 + u64::from(end_hour) * 3_600;
        }
        let minute = (secs % 3_600 / 60) as u32;
        let end_minute = self.minutes.past_greatest_to(minute);
        secs / 3_600 * 3_600 + u64::from(end_minute) * 60
    }
}
