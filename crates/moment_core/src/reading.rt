//! Reading a moment from a text.
ghost use Rattle.std.specs.Prelude.{◌≡◌, ◌+◌, ◌<◌, ◌≤◌, length, IsTrue};
ghost use Rattle.moment_core.specs.Reading as spec;
ghost use Rattle.moment_core.specs.Reading.{fits_form, read_of, two_at};

use crate::{END, Moment};
use jiff_core::civil::Date;
use thiserror::Error;

/// Why a text is no moment. Where several hold, the first in this order is answered.
#[derive(Clone, Copy, Debug, PartialEq, Eq, Error)]
pub enum MomentFault {
    /// The text has neither form of a moment.
    #[error("the text has not the form of a moment")]
    Shape,
    /// The calendar has no such day, or the clock no such time.
    #[error("no such date or time")]
    NoSuchDate,
    /// The moment lies before 1970 or from 2200 on.
    #[error("the moment lies out of range")]
    OutOfRange,
}

impl Moment {
    /// The moment of `YYYY-MM-DD` (its first second), or of `YYYY-MM-DDTHH:MM:SS` with `Z` or `+00:00` after it.
    ///
    /// Hours go from 00 to 23, minutes and seconds from 00 to 59. Blanks are not ignored.
    pub fn read(text: &str) -> Result<Moment, MomentFault>
        ensures { result ≡ read_of text.now }
    {
        Moment::read_bytes(text.as_bytes())
    }

    /// The moment that these bytes write, as [`Moment::read`] reads it; what is no text is `Shape`.
    pub fn read_bytes(bytes: &[u8]) -> Result<Moment, MomentFault>
        ensures { result ≡ read_of bytes.now }
    {
        if is_timed(bytes) {
            return moment_at(
                two_digits(bytes, 0) * 100 + two_digits(bytes, 2),
                two_digits(bytes, 5),
                two_digits(bytes, 8),
                two_digits(bytes, 11),
                two_digits(bytes, 14),
                two_digits(bytes, 17),
            );
        }
        if has_form(b"dddd-dd-dd", bytes) {
            return moment_at(
                two_digits(bytes, 0) * 100 + two_digits(bytes, 2),
                two_digits(bytes, 5),
                two_digits(bytes, 8),
                0,
                0,
                0,
            );
        }
        Err(MomentFault::Shape)
    }
}

// Whether the byte is what the form has at its place.
fn byte_fits(form: u8, byte: u8) -> bool
    ensures { result ≡ spec.byte_fits form byte }
{
    if form == b'd' {
        byte.is_ascii_digit()
    } else {
        byte == form
    }
}

// Whether the text has the form, in which a `d` stands for a digit.
fn has_form(form: &[u8], text: &[u8]) -> bool
    ensures fits { result ≡ fits_form form.now text.now }
    ensures long { IsTrue result → length text.now ≡ length form.now }
{
    if form.len() != text.len() {
        return false;
    }
    for (i, f) in form.iter().enumerate() {
        if !byte_fits(*f, text[i]) {
            return false;
        }
    }
    true
}

// Whether the text has a date and a time.
fn is_timed(text: &[u8]) -> bool
    ensures timed { result ≡ spec.is_timed text.now }
    ensures long { IsTrue result → 20 ≤ length text.now }
{
    has_form(b"dddd-dd-ddTdd:dd:ddZ", text) || has_form(b"dddd-dd-ddTdd:dd:dd+00:00", text)
}

// The number of the two digits at `at`.
fn two_digits(text: &[u8], at: usize) -> u32
    requires room { at + 1 < length text.now }
    requires small { at < 100 }
    ensures value { result ≡ two_at text.now at }
    ensures bound { result < 100 }
{
    let tens = text[at].saturating_sub(b'0') % 10;
    let ones = text[at + 1].saturating_sub(b'0') % 10;
    u32::from(tens) * 10 + u32::from(ones)
}

// The moment of a day and a time.
fn moment_at(
    year: u32,
    month: u32,
    day: u32,
    hour: u32,
    minute: u32,
    second: u32,
) -> Result<Moment, MomentFault>
    requires year { year < 10000 }
    requires month { month < 100 }
    requires day { day < 100 }
    ensures { result ≡ spec.moment_at year month day hour minute second }
{
    if hour > 23 || minute > 59 || second > 59 {
        return Err(MomentFault::NoSuchDate);
    }
    let Ok(date) = Date::new(year as i16, month as i8, day as i8) else {
        return Err(MomentFault::NoSuchDate);
    };
    let epoch_day = date.to_unix_epoch_day();
    if epoch_day < 0 {
        return Err(MomentFault::OutOfRange);
    }
    let secs = epoch_day as u64 * 86_400 + u64::from(hour * 3_600 + minute * 60 + second);
    if secs < END {
        Ok(Moment::at(secs))
    } else {
        Err(MomentFault::OutOfRange)
    }
}
