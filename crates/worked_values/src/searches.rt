//! Searches for ticks in a row: what they find, and how many are made a second.
ghost use Rattle.std.specs.Prelude.{◌≡◌, ◌*◌, ◌/◌, max};
ghost use Rattle.std.specs.Duration.{as_nanos};

use crate::rows::{Direction, Row};
use cron_timetable::Cron;
use std::io;
use std::time::{Duration, Instant};

// A leap day, which comes after eight years at the latest; every few minutes; a date or a weekday; every day.
const EXPRESSIONS: [&str; 4] = ["0 0 29 2 *", "*/7 * * * *", "0 0 13 * 5", "@daily"];

const COUNTED: u64 = 1_000;

const TIMED: u64 = 1_000_000;

/// Writes what a thousand searches in a row find.
pub(crate) fn write_found(rt: &HostRuntime, direction: Direction, text: &str) -> io::Result<()> {
    match Cron::read(text) {
        Ok(cron) => write_row(rt, COUNTED, Row::of(&cron, direction, COUNTED)),
        Err(_) => rt.print("no expression"),
    }
}

// How many ticks were found, and the last one of them.
fn write_row(rt: &HostRuntime, searches: u64, row: Row) -> io::Result<()> {
    let ticks = row.ticks;
    let last = row.last;
    print!(rt; "{searches} searches, {ticks} ticks, the last {last}")
}

/// Writes how many searches are made a second, for a million in a row: a line for each expression and direction.
pub(crate) fn write_rates(rt: &HostRuntime) -> io::Result<()> {
    for expression in EXPRESSIONS {
        if let Ok(cron) = Cron::read(expression) {
            write_rate(rt, expression, &cron, Direction::Forwards)?;
            write_rate(rt, expression, &cron, Direction::Backwards)?;
        }
    }
    Ok(())
}

// Makes a row of searches, and writes its line.
fn write_rate(
    rt: &HostRuntime,
    expression: &str,
    cron: &Cron,
    direction: Direction,
) -> io::Result<()> {
    let start = Instant::now(rt)?;
    let row = Row::of(cron, direction, TIMED);
    let time = start.elapsed(rt)?;
    let way = direction.name();
    print!(rt; "{expression} {way}: ")?;
    write_row(rt, TIMED, row)?;
    let rate = a_second(TIMED, time);
    println!(rt; ", {rate} searches a second")
}

// How many a second, where so many took this time.
fn a_second(count: u64, time: Duration) -> u128
    ensures { result ≡ count * 1_000_000_000 / max 1 (as_nanos time) }
{
    u128::from(count) * 1_000_000_000 / time.as_nanos().max(1)
}
