//! Moments: whole seconds in UTC from 1970 to before 2200, with their dates and their texts.
//!
//! Every time in dagsched is a [`Moment`]. A moment is made by [`Moment::from_secs`], by reading a text, or by
//! [`Moment::at`] where the caller knows the range; it prints as `2024-01-01T00:00:00+00:00`, and that text reads back
//! as the same moment. Dates are those of the Gregorian calendar, as the crate `jiff` counts them. No call allocates.
//!
//! ```text
//! let moment = Moment::read("2024-02-29T12:30:00Z")?;
//! moment.secs()              // 1709209800
//! moment.civil().weekday     // 4, a Thursday
//! ```
#![tactic(auto)]

mod calendar;
mod laws;
mod moments;
mod printing;
mod reading;

pub use calendar::{Civil, Date, date_at, month_end, month_start};
pub use laws::{
    date_of_a_number, number_of_a_date, printed_is_read_back, weekdays_follow_the_calendar,
};
pub use moments::{END, Moment};
pub use reading::MomentFault;
