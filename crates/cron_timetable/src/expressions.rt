//! Cron expressions.
ghost use Rattle.std.specs.Prelude.{◌≡◌};

use crate::field_sets::FieldSet;
use std::marker::Model;

/// A cron expression: the numbers that each of its five fields names.
///
/// Contracts see it as a record of five sets, `Fields`. Two expressions are equal where their sets are, whatever their spelling.
#[derive(Clone, Copy, Debug, PartialEq, Eq)]
pub struct Cron {
    pub(crate) minutes: FieldSet,
    pub(crate) hours: FieldSet,
    pub(crate) days: FieldSet,
    pub(crate) months: FieldSet,
    pub(crate) weekdays: FieldSet,
}

impl Model for Cron {
    ghost use Rattle.cron_timetable.specs.Fields.{Fields};

    ghost Value = { Fields };

    ghost view = { λ c. record {
      minutes = c.minutes;
      hours = c.hours;
      days = c.days;
      months = c.months;
      weekdays = c.weekdays;
    } };

    ghost inverse = { λ f. record {
      minutes = f.minutes;
      hours = f.hours;
      days = f.days;
      months = f.months;
      weekdays = f.weekdays;
    } };
}

impl Cron {
    // The expression with these sets.
    pub(crate) fn of_sets(
        minutes: FieldSet,
        hours: FieldSet,
        days: FieldSet,
        months: FieldSet,
        weekdays: FieldSet,
    ) -> Cron
        ensures { result ≡ record {
          minutes = minutes;
          hours = hours;
          days = days;
          months = months;
          weekdays = weekdays;
        } }
    {
        Cron {
            minutes,
            hours,
            days,
            months,
            weekdays,
        }
    }
}
