//! Days and their dates: the fields of a moment, and the ends of its month.
//!
//! A day is its number, counted from 1970-01-01, which is 0. The numbers of moments end below 84,006.
ghost use Rattle.std.specs.Prelude.{◌≡◌, ◌+◌, ◌<◌, ◌≤◌, pos};
ghost use Rattle.moment_core.specs.Moments.{days_end};
ghost use Rattle.moment_core.specs.Calendar.{date_of, civil_of, IsMonthStart, IsMonthEnd};

use crate::Moment;
use jiff_core::civil::{Date as JiffDate, days_in_month};

/// A date of the Gregorian calendar: month 1 to 12, day of the month from 1.
#[derive(Clone, Copy, Debug, PartialEq, Eq)]
pub struct Date {
    pub year: u16,
    pub month: u8,
    pub day: u8,
}

/// The fields of a moment that cron expressions speak of, in UTC.
#[derive(Clone, Copy, Debug, PartialEq, Eq)]
pub struct Civil {
    /// 0 to 59.
    pub minute: u8,
    /// 0 to 23.
    pub hour: u8,
    /// The day of the month, from 1.
    pub day: u8,
    /// 1 to 12.
    pub month: u8,
    /// 0 to 6, Sunday 0.
    pub weekday: u8,
    /// The days since 1970-01-01.
    pub epoch_day: u32,
}

/// The date of a day.
pub fn date_at(epoch_day: u32) -> Date
    requires { epoch_day < days_end }
    ensures date { result ≡ date_of epoch_day }
    ensures year { (1970 ≤ result.year) × (result.year ≤ 9999) }
    ensures month { (1 ≤ result.month) × (result.month ≤ 12) }
    ensures day { (1 ≤ result.day) × (result.day ≤ 31) }
{
    let date = jiff_date(epoch_day);
    Date {
        year: date.year as u16,
        month: date.month,
        day: date.day,
    }
}

/// The first day of the month of a day.
pub fn month_start(epoch_day: u32) -> u32
    requires { epoch_day < days_end }
    ensures { IsMonthStart epoch_day result }
{
    epoch_day - (u32::from(date_at(epoch_day).day) - 1)
}

/// The last day of the month of a day.
pub fn month_end(epoch_day: u32) -> u32
    requires { epoch_day < days_end }
    ensures last { IsMonthEnd epoch_day result }
    ensures near { result ≤ epoch_day + 30 }
{
    let date = jiff_date(epoch_day);
    epoch_day + u32::from(days_in_month(date.year, date.month) - date.day)
}

impl Moment {
    /// The minute, the hour, the date and the day of the week of a moment, in UTC.
    pub fn civil(self) -> Civil
        ensures { result ≡ civil_of self }
    {
        let secs = self.secs();
        let epoch_day = (secs / 86_400) as u32;
        let date = date_at(epoch_day);
        Civil {
            minute: (secs % 3_600 / 60) as u8,
            hour: (secs % 86_400 / 3_600) as u8,
            day: date.day,
            month: date.month,
            weekday: ((epoch_day + 4) % 7) as u8,
            epoch_day,
        }
    }
}

// The date of a day, as `jiff` has it.
fn jiff_date(epoch_day: u32) -> JiffDate
    requires { epoch_day < days_end }
    ensures year { result.year ≡ pos (date_of epoch_day).year }
    ensures month { result.month ≡ (date_of epoch_day).month }
    ensures day { result.day ≡ (date_of epoch_day).day }
    ensures late { (1970 ≤ (date_of epoch_day).year) × ((date_of epoch_day).year ≤ 9999) }
    ensures months { (1 ≤ (date_of epoch_day).month) × ((date_of epoch_day).month ≤ 12) }
    ensures days { (1 ≤ (date_of epoch_day).day) × ((date_of epoch_day).day ≤ 31) }
{
    JiffDate::from_unix_epoch_day(epoch_day as i64).unwrap()
}
