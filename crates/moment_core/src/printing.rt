//! Printing a moment.
ghost use Rattle.std.specs.Prelude.{◌≡◌, ◌<◌};
ghost use Rattle.std.specs.Fmt.{WritesOnOk};
ghost use Rattle.moment_core.specs.Printing.{date_text, clock_text, two_digits_of};

use crate::calendar::Date;
use crate::{Moment, date_at};
use std::fmt;

/// Prints `YYYY-MM-DDTHH:MM:SS+00:00`, the form in which Airflow 2 writes a logical date into a run id.
impl fmt::Display for Moment {
    ghost use Rattle.std.specs.Prelude.{Some};
    ghost use Rattle.moment_core.specs.Printing.{text_of};

    ghost output = { λ m. Some (text_of m) };

    fn fmt<W: fmt::Write>(&self, f: &mut fmt::Formatter<W>) -> fmt::Result {
        let secs = self.secs();
        write_date(f, date_at((secs / 86_400) as u32))?;
        f.write_str("T")?;
        write_clock(f, (secs % 86_400) as u32)?;
        f.write_str("+00:00")
    }
}

// Writes `YYYY-MM-DD`.
fn write_date<W: fmt::Write>(f: &mut fmt::Formatter<W>, date: Date) -> fmt::Result
    requires year { date.year < 10000 }
    requires month { date.month < 100 }
    requires day { date.day < 100 }
    ensures { WritesOnOk W.write_str_gives f.old result (date_text date) f.new }
{
    write_two(f, u32::from(date.year / 100))?;
    write_two(f, u32::from(date.year % 100))?;
    f.write_str("-")?;
    write_two(f, u32::from(date.month))?;
    f.write_str("-")?;
    write_two(f, u32::from(date.day))
}

// Writes `HH:MM:SS` of a second of the day.
fn write_clock<W: fmt::Write>(f: &mut fmt::Formatter<W>, second: u32) -> fmt::Result
    requires { second < 86400 }
    ensures { WritesOnOk W.write_str_gives f.old result (clock_text second) f.new }
{
    write_two(f, second / 3_600)?;
    f.write_str(":")?;
    write_two(f, second % 3_600 / 60)?;
    f.write_str(":")?;
    write_two(f, second % 60)
}

// Writes two digits.
fn write_two<W: fmt::Write>(f: &mut fmt::Formatter<W>, number: u32) -> fmt::Result
    requires { number < 100 }
    ensures { WritesOnOk W.write_str_gives f.old result (two_digits_of number) f.new }
{
    f.write_char(char::from(b'0' + (number / 10) as u8))?;
    f.write_char(char::from(b'0' + (number % 10) as u8))
}
