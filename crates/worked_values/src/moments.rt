//! Moments, their dates and their texts.
use moment_core::{END, Moment, date_at, month_end, month_start};
use std::io;

/// Writes the answer to a question about moments.
pub(crate) fn write_answer(rt: &HostRuntime, word: &str, rest: &str) -> io::Result<()> {
    match word {
        "read" => write_read(rt, rest),
        "from_secs" => write_from_secs(rt, rest),
        "plus" => write_plus(rt, rest),
        "civil" => write_civil(rt, rest),
        "month" => write_month(rt, rest),
        _ => rt.print("no such word"),
    }
}

// The seconds of a moment and what it prints, or why a text is none.
fn write_read(rt: &HostRuntime, text: &str) -> io::Result<()> {
    match Moment::read(text) {
        Ok(moment) => {
            let secs = moment.secs();
            print!(rt; "{secs} {moment}")
        }
        Err(fault) => print!(rt; "{fault:?}"),
    }
}

/// Writes a moment, or that there is none.
pub(crate) fn write_moment(rt: &HostRuntime, moment: Option<Moment>) -> io::Result<()> {
    match moment {
        Some(moment) => rt.print(moment),
        None => rt.print("none"),
    }
}

// The moment of a number of seconds.
fn write_from_secs(rt: &HostRuntime, text: &str) -> io::Result<()> {
    match text.parse::<i64>() {
        Ok(secs) => write_moment(rt, Moment::from_secs(secs)),
        Err(_) => rt.print("no number"),
    }
}

// The moment so many seconds after another.
fn write_plus(rt: &HostRuntime, text: &str) -> io::Result<()> {
    match asked_sum(text) {
        Some((moment, seconds)) => write_moment(rt, moment.checked_plus(seconds)),
        None => rt.print("no sum"),
    }
}

// The moment and the seconds of `MOMENT SECONDS`.
fn asked_sum(text: &str) -> Option<(Moment, u64)> {
    let (moment, seconds) = text.split_once(' ')?;
    Some((Moment::read(moment).ok()?, seconds.parse().ok()?))
}

// The month, the day, the weekday, the hour, the minute and the number of the day.
fn write_civil(rt: &HostRuntime, text: &str) -> io::Result<()> {
    match Moment::read(text) {
        Ok(moment) => {
            let civil = moment.civil();
            let (month, day, weekday) = (civil.month, civil.day, civil.weekday);
            let (hour, minute, epoch_day) = (civil.hour, civil.minute, civil.epoch_day);
            print!(rt;
                "month {month} day {day} weekday {weekday} at {hour}:{minute}, day {epoch_day}"
            )
        }
        Err(_) => rt.print("no moment"),
    }
}

// The first and the last day of the month of a day, and the day's date.
fn write_month(rt: &HostRuntime, text: &str) -> io::Result<()> {
    match text.parse::<u32>() {
        Ok(day) if u64::from(day) < END / 86_400 => {
            let (first, last) = (month_start(day), month_end(day));
            let date = date_at(day);
            let (year, month, day) = (date.year, date.month, date.day);
            print!(rt; "{first} to {last}, {year}-{month}-{day}")
        }
        _ => rt.print("no day"),
    }
}
