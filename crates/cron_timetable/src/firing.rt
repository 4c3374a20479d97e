//! The moments at which an expression fires.
//!
//! Easy to get wrong: where both day fields are restricted, one of them is enough. A day field is restricted by its set and not
//! by its spelling: `*/2` restricts it, and `0-6` in the day of the week does not.
ghost use Rattle.std.specs.Prelude.{◌≡◌, ◌<◌, ◌&&◌};
ghost use Rattle.moment_core.specs.Moments.{seconds_end, days_end};
ghost use Rattle.moment_core.specs.Calendar.{minute_of, hour_of};
ghost use Rattle.cron_timetable.specs.Sets.{has};
ghost use Rattle.cron_timetable.specs.Fields.{every_day, every_weekday, is_restricted, day_fires, date_fires, fires};

use crate::expressions::Cron;
use moment_core::{Moment, date_at};

// The days 1 to 31 of a month, and 0 to 6 of a week.
const EVERY_DAY: u64 = 0xffff_fffe;

const EVERY_WEEKDAY: u64 = 0x7f;

impl Cron {
    /// Whether the moment is a tick: the first second of a minute that the fields name.
    ///
    /// By crontab(5) the day has to be in both day fields, or in one of them where both are restricted.
    #[tactic(auto, unfolding(crate::specs::Fields::fires))]
    pub fn fires(&self, moment: Moment) -> bool
        ensures { result ≡ fires self.now moment }
    {
        let secs = moment.secs();
        secs % 60 == 0
            && self.minute_fires(secs)
            && self.hour_fires(secs)
            && self.date_fires((secs / 86_400) as u32)
    }

    // Whether the minute of the hour is in its field.
    pub(crate) fn minute_fires(&self, secs: u64) -> bool
        requires { secs < seconds_end }
        ensures { result ≡ has self.now.minutes (minute_of secs) }
    {
        self.minutes.has((secs % 3_600 / 60) as u32)
    }

    // Whether the hour is in its field.
    pub(crate) fn hour_fires(&self, secs: u64) -> bool
        requires { secs < seconds_end }
        ensures { result ≡ has self.now.hours (hour_of secs) }
    {
        self.hours.has((secs % 86_400 / 3_600) as u32)
    }

    // Whether the month and the day are in their fields.
    #[tactic(auto, unfolding(crate::specs::Fields::date_fires))]
    pub(crate) fn date_fires(&self, epoch_day: u32) -> bool
        requires { epoch_day < days_end }
        ensures { result ≡ date_fires self.now epoch_day }
    {
        self.months.has(u32::from(date_at(epoch_day).month)) && self.day_fires(epoch_day)
    }

    // Whether the day is in its fields.
    #[tactic(auto, unfolding(crate::specs::Fields::day_fires))]
    fn day_fires(&self, epoch_day: u32) -> bool
        requires { epoch_day < days_end }
        ensures { result ≡ day_fires self.now epoch_day }
    {
        let in_days = self.days.has(u32::from(date_at(epoch_day).day));
        let in_weekdays = self.weekdays.has((epoch_day + 4) % 7);
        if self.restricts_both() {
            in_days || in_weekdays
        } else {
            in_days && in_weekdays
        }
    }

    // Whether both day fields are restricted.
    #[tactic(auto, using(crate::proofs::SetLemmas::whole_sets))]
    pub(crate) fn restricts_both(&self) -> bool
        ensures { result ≡ (is_restricted every_day self.now.days
            && is_restricted every_weekday self.now.weekdays) }
    {
        self.days.is_restricted(EVERY_DAY) && self.weekdays.is_restricted(EVERY_WEEKDAY)
    }
}
