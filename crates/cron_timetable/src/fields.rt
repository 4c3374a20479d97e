//! The five fields of a cron expression: their ranges and the names of their values.
ghost use Rattle.std.specs.Prelude.{◌≡◌, ◌<◌, map, position};
ghost use Rattle.std.specs.Str.{str_eq_ignore_ascii_case};
ghost use Rattle.cron_timetable.specs.Elements as spec;
ghost use Rattle.cron_timetable.specs.Elements.{least_value, greatest_value, names_of};

/// A field of a cron expression.
#[derive(Clone, Copy, PartialEq, Eq)]
pub(crate) enum Field {
    Minute,
    Hour,
    DayOfMonth,
    Month,
    DayOfWeek,
}

impl Field {
    // The least value.
    pub(crate) fn least(self) -> u32
        ensures value { result ≡ least_value self }
        ensures small { result < 2 }
    {
        match self {
            Field::Minute | Field::Hour | Field::DayOfWeek => 0,
            Field::DayOfMonth | Field::Month => 1,
        }
    }

    // The greatest value that a text may write.
    pub(crate) fn greatest_written(self) -> u32
        ensures value { result ≡ spec.greatest_written self }
        ensures small { result < 64 }
    {
        match self {
            Field::Minute => 59,
            Field::Hour => 23,
            Field::DayOfMonth => 31,
            Field::Month => 12,
            Field::DayOfWeek => 7,
        }
    }

    // The greatest value in a set.
    pub(crate) fn greatest(self) -> u32
        ensures value { result ≡ greatest_value self }
        ensures small { result < 64 }
    {
        match self {
            Field::DayOfWeek => 6,
            _ => self.greatest_written(),
        }
    }

    // Whether this is the day of the week, in which Sunday is 0 and 7.
    pub(crate) fn is_day_of_week(self) -> bool
        ensures { result ≡ spec.is_day_of_week self }
    {
        matches!(self, Field::DayOfWeek)
    }

    // The names of the values, from the least one on.
    fn names(self) -> &'static [&'static [u8]]
        ensures { map (λ name. name.now) result.now ≡ names_of self }
    {
        match self {
            Field::Month => &[
                b"JAN", b"FEB", b"MAR", b"APR", b"MAY", b"JUN", b"JUL", b"AUG", b"SEP", b"OCT",
                b"NOV", b"DEC",
            ],
            Field::DayOfWeek => &[b"SUN", b"MON", b"TUE", b"WED", b"THU", b"FRI", b"SAT"],
            _ => &[],
        }
    }

    // The value that a name stands for.
    #[tactic(auto, unfolding(crate::specs::Elements::value_named))]
    pub(crate) fn value_named(self, name: &[u8]) -> Option<u32>
        ensures { result ≡ spec.value_named self name.now }
    {
        let place = place_of(self.names(), name)?;
        Some(self.least() + place as u32)
    }
}

// The place of a name in a list, in any case.
fn place_of(names: &[&[u8]], name: &[u8]) -> Option<usize>
    ensures { result ≡ position (λ n. str_eq_ignore_ascii_case n name.now)
        (map (λ n. n.now) names.now) }
{
    names.iter().position(|n| n.eq_ignore_ascii_case(name))
}
