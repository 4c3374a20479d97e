//! Laws of the definitions: each is the contract of an empty function, so that the gate proves it.
ghost use Rattle.std.specs.Prelude.{◌≡◌, ℕ, ◌+◌, ◌%◌, ◌<◌, ◌≤◌, ℤ, pos, Ok};
ghost use Rattle.jiff_core.specs.Calendar.{days_from_civil, weekday_number, IsCivilDate};
ghost use Rattle.moment_core.specs.Moments.{seconds_end};
ghost use Rattle.moment_core.specs.Calendar.{date_of, weekday_of};
ghost use Rattle.moment_core.specs.Printing.{text_of};
ghost use Rattle.moment_core.specs.Reading.{read_of};

/// The date of a day is a date of the calendar, and it has that day's number as `jiff` counts it, up to 9999-12-31.
pub fn number_of_a_date()
    ensures date { (n : ℕ) → n ≤ 2932896 → IsCivilDate (pos (date_of n).year) (date_of n).month
        (date_of n).day }
    ensures number { (n : ℕ) → n ≤ 2932896 →
        days_from_civil (pos (date_of n).year) (date_of n).month (date_of n).day ≡ pos n }
{}

/// A date of the calendar that has a day's number as `jiff` counts it is the date of that day.
pub fn date_of_a_number()
    ensures { (year : ℤ) (month day n : ℕ) → IsCivilDate year month day
        → days_from_civil year month day ≡ pos n
        → (year ≡ pos (date_of n).year) × (month ≡ (date_of n).month) × (day ≡ (date_of n).day) }
{}

/// The day of the week is that of `jiff`, which counts from Monday 0.
pub fn weekdays_follow_the_calendar()
    ensures { (n : ℕ) → weekday_of n ≡ (weekday_number (pos n) + 1) % 7 }
{}

/// What a moment prints is read back as that moment.
pub fn printed_is_read_back()
    ensures { (m : ℕ) → m < seconds_end → read_of (text_of m) ≡ Ok m }
{}
