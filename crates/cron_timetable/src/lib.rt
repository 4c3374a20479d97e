//! Cron expressions as Airflow 2 writes schedules: when they fire, and the data intervals between their ticks, in UTC.
//!
//! [`Cron::read`] reads a text such as `*/15 9-17 * * MON-FRI`; [`Cron::fires`] says whether a moment is a tick, and the four
//! searches find the tick next to a moment on either side. A [`Timetable`] is a cron expression, with a run for each time between two
//! ticks or at each tick, one date or none at all, and gives the [`Interval`] of a run. A tick is a whole minute from 1970 to before
//! 2200. No call allocates.
//!
//! ```text
//! let cron = Cron::read("0 0 29 2 *")?;
//! let from = Moment::read("2096-03-01")?;
//! cron.next_at_or_after(from)      // 2104-02-29T00:00:00+00:00
//! ```
#![tactic(auto)]

mod day_jumps;
mod elements;
mod expressions;
mod faults;
mod field_sets;
mod fields;
mod firing;
mod laws;
mod pieces;
mod reading;
#[cfg(test)]
mod search_tests;
mod searches;
mod timetables;

pub use expressions::Cron;
pub use faults::CronFault;
pub use laws::{
    a_search_has_one_answer, a_set_holds_what_passes, a_text_has_one_reading,
    a_timetable_has_one_interval,
};
pub use timetables::{Interval, Timetable};
