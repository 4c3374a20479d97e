//! Jumps over the days that an expression leaves out: over whole months, or to a day that the month or the week names.
//!
//! Easy to get wrong: where one of the day fields is enough the nearer day of the two counts, else the farther one.
ghost use Rattle.std.specs.Prelude.{◌≡◌, ℕ, ◌+◌, ◌-◌, ◌%◌, ◌≤◌, ◌<◌, true, false};
ghost use Rattle.moment_core.specs.Moments.{days_end};
ghost use Rattle.moment_core.specs.Calendar.{date_of};
ghost use Rattle.cron_timetable.specs.Sets.{has};
ghost use Rattle.cron_timetable.specs.Fields.{day_fires, date_fires};

use crate::Cron;
use moment_core::{END, date_at, month_end, month_start};

// The last day of the range.
const LAST_DAY: u32 = ((END - 1) / 86_400) as u32;

// The days of the longest months. Up to twelve months are shorter than as many of these by a week at most.
const LONGEST_MONTH: u32 = 31;

impl Cron {
    // The day before which no day from `epoch_day` on has the month and the day, at most a year later; `epoch_day` itself where it has.
    pub(crate) fn jump_days(&self, epoch_day: u32) -> u32
        requires { epoch_day < days_end }
        ensures ahead { epoch_day ≤ result }
        ensures none { (k : ℕ) → epoch_day ≤ k → k < result → date_fires self.now k ≡ false }
        ensures stays { result ≡ epoch_day → date_fires self.now epoch_day ≡ true }
    {
        let months = self.months_ahead(epoch_day);
        if months == 0 {
            return (epoch_day + self.days_ahead(epoch_day)).min(month_end(epoch_day) + 1);
        }
        // A day of the last of these months.
        let within = month_start(epoch_day) + LONGEST_MONTH * (months - 1);
        month_end(within.max(epoch_day).min(LAST_DAY)) + 1
    }

    // The day from which on no day up to `epoch_day` has the month and the day, at most a year earlier; the day after it where it has.
    pub(crate) fn jump_days_back(&self, epoch_day: u32) -> u32
        requires { epoch_day < days_end }
        ensures behind { result ≤ epoch_day + 1 }
        ensures none { (k : ℕ) → result ≤ k → k ≤ epoch_day → date_fires self.now k ≡ false }
        ensures stays { result ≡ epoch_day + 1 → date_fires self.now epoch_day ≡ true }
    {
        let months = self.months_back(epoch_day);
        if months == 0 {
            let first = month_start(epoch_day);
            return (epoch_day + 1)
                .saturating_sub(self.days_back(epoch_day))
                .max(first);
        }
        // A day of the first of these months.
        let within = month_end(epoch_day).saturating_sub(LONGEST_MONTH * (months - 1));
        month_start(within.min(epoch_day))
    }

    // How many months from that of `epoch_day` on are not in the field, at most twelve.
    fn months_ahead(&self, epoch_day: u32) -> u32
        requires { epoch_day < days_end }
        ensures few { result ≤ 12 }
        ensures none { (i : ℕ) → i < result → has self.now.months
            (((date_of epoch_day).month + 11 + i) % 12 + 1) ≡ false }
        ensures stays { result ≡ 0 → has self.now.months (date_of epoch_day).month ≡ true }
    {
        let month = u32::from(date_at(epoch_day).month);
        let this_year = self.months.least_from(month);
        if this_year <= 12 {
            return this_year - month;
        }
        (12 - month + self.months.least_from(1)).min(12)
    }

    // How many months up to that of `epoch_day` are not in the field, at most twelve.
    fn months_back(&self, epoch_day: u32) -> u32
        requires { epoch_day < days_end }
        ensures few { result ≤ 12 }
        ensures none { (i : ℕ) → i < result → has self.now.months
            (((date_of epoch_day).month + 11 - i) % 12 + 1) ≡ false }
        ensures stays { result ≡ 0 → has self.now.months (date_of epoch_day).month ≡ true }
    {
        let month = u32::from(date_at(epoch_day).month);
        let this_year = self.months.past_greatest_to(month);
        if this_year > 1 {
            return month + 1 - this_year;
        }
        (month + 13 - self.months.past_greatest_to(12)).min(12)
    }

    // How many days from `epoch_day` on are not in the day fields, within its month and its week.
    fn days_ahead(&self, epoch_day: u32) -> u32
        requires { epoch_day < days_end }
        ensures few { result < 128 }
        ensures none { (k : ℕ) → epoch_day ≤ k → k < epoch_day + result
            → (date_of k).day ≡ (date_of epoch_day).day + (k - epoch_day)
            → day_fires self.now k ≡ false }
        ensures stays { result ≡ 0 → day_fires self.now epoch_day ≡ true }
    {
        let day = u32::from(date_at(epoch_day).day);
        let weekday = (epoch_day + 4) % 7;
        let to_day = self.days.least_from(day) - day;
        let to_weekday = self.weekdays.least_from(weekday).min(7) - weekday;
        if self.restricts_both() {
            to_day.min(to_weekday)
        } else {
            to_day.max(to_weekday)
        }
    }

    // How many days up to `epoch_day` are not in the day fields, within its month and its week.
    fn days_back(&self, epoch_day: u32) -> u32
        requires { epoch_day < days_end }
        ensures none { (k : ℕ) → k ≤ epoch_day → epoch_day < k + result
            → (date_of epoch_day).day ≡ (date_of k).day + (epoch_day - k)
            → day_fires self.now k ≡ false }
        ensures stays { result ≡ 0 → day_fires self.now epoch_day ≡ true }
    {
        let day = u32::from(date_at(epoch_day).day);
        let weekday = (epoch_day + 4) % 7;
        let since_day = day + 1 - self.days.past_greatest_to(day);
        let since_weekday = weekday + 1 - self.weekdays.past_greatest_to(weekday);
        if self.restricts_both() {
            since_day.min(since_weekday)
        } else {
            since_day.max(since_weekday)
        }
    }
}
