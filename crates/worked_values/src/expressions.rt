//! Cron expressions: what a text is read as, and the ticks and intervals of a timetable.
use crate::moments::write_moment;
use crate::rows::Direction;
use crate::searches::write_found;
use cron_timetable::{Cron, Interval, Timetable};
use moment_core::Moment;
use std::io;

/// Writes the answer to a question about cron texts.
pub(crate) fn write_answer(rt: &HostRuntime, word: &str, rest: &str) -> io::Result<()> {
    match word {
        "read" => write_read(rt, rest),
        "same" => write_same(rt, rest),
        "ticks" => write_asked_ticks(rt, rest),
        "beside" => write_beside(rt, rest),
        "interval" => write_intervals(rt, rest),
        "forwards" => write_found(rt, Direction::Forwards, rest),
        "backwards" => write_found(rt, Direction::Backwards, rest),
        _ => rt.print("no such word"),
    }
}

// That a text is an expression, or why it is none.
fn write_read(rt: &HostRuntime, text: &str) -> io::Result<()> {
    match Cron::read(text) {
        Ok(_) => rt.print("ok"),
        Err(fault) => print!(rt; "{fault:?}"),
    }
}

// Whether two texts with `=` between them are the same expression.
fn write_same(rt: &HostRuntime, text: &str) -> io::Result<()> {
    match are_same(text) {
        Some(true) => rt.print("yes"),
        Some(false) => rt.print("no"),
        None => rt.print("no expressions"),
    }
}

fn are_same(text: &str) -> Option<bool> {
    let (one, other) = text.split_once(" = ")?;
    Some(Cron::read(one).ok()? == Cron::read(other).ok()?)
}

// The moment and the expression of `MOMENT EXPRESSION`.
fn asked_search(text: &str) -> Option<(Moment, Cron)> {
    let (moment, cron) = text.split_once(' ')?;
    Some((Moment::read(moment).ok()?, Cron::read(cron).ok()?))
}

// The first ticks from a moment on, so many: `COUNT MOMENT EXPRESSION`.
fn write_asked_ticks(rt: &HostRuntime, text: &str) -> io::Result<()> {
    match asked_ticks(text) {
        Some((count, from, cron)) => write_ticks(rt, count, from, &cron),
        None => rt.print("no expression"),
    }
}

fn asked_ticks(text: &str) -> Option<(u32, Moment, Cron)> {
    let (count, rest) = text.split_once(' ')?;
    let count = count.parse().ok()?;
    let (from, cron) = asked_search(rest)?;
    Some((count, from, cron))
}

// The first ticks; `!` stands before what is found and does not fire.
fn write_ticks(rt: &HostRuntime, count: u32, from: Moment, cron: &Cron) -> io::Result<()> {
    let mut next = cron.next_at_or_after(from);
    for i in 0..count {
        let Some(tick) = next else {
            return rt.print(" none");
        };
        let blank = if i == 0 { "" } else { " " };
        let mark = if cron.fires(tick) { "" } else { "!" };
        print!(rt; "{blank}{mark}{tick}")?;
        next = cron.next_after(tick);
    }
    Ok(())
}

// The four ticks beside a moment: at or after it, after it, at or before it, before it.
fn write_beside(rt: &HostRuntime, text: &str) -> io::Result<()> {
    match asked_search(text) {
        Some((at, cron)) => {
            write_moment(rt, cron.next_at_or_after(at))?;
            rt.print(" ")?;
            write_moment(rt, cron.next_after(at))?;
            rt.print(" ")?;
            write_moment(rt, cron.last_at_or_before(at))?;
            rt.print(" ")?;
            write_moment(rt, cron.last_before(at))
        }
        None => rt.print("no expression"),
    }
}

// The first interval from a moment on, and that of a run by hand at it.
fn write_intervals(rt: &HostRuntime, text: &str) -> io::Result<()> {
    match asked_timetable(text) {
        Some((at, timetable)) => {
            write_interval(rt, timetable.interval_from(at))?;
            rt.print(", by hand ")?;
            write_interval(rt, timetable.manual_interval(at))
        }
        None => rt.print("no timetable"),
    }
}

// The moment and the timetable of `MOMENT TIMETABLE`: `@once`, `None`, or a cron text, behind the word `trigger` that of a trigger
// timetable.
fn asked_timetable(text: &str) -> Option<(Moment, Timetable)> {
    let (at, words) = text.split_once(' ')?;
    let at = Moment::read(at).ok()?;
    match words {
        "@once" => Some((at, Timetable::Once)),
        "None" => Some((at, Timetable::Never)),
        _ => Some((at, asked_cron(words)?)),
    }
}

fn asked_cron(words: &str) -> Option<Timetable> {
    match words.strip_prefix("trigger ") {
        Some(text) => Some(Timetable::Trigger(Cron::read(text).ok()?)),
        None => Some(Timetable::Cron(Cron::read(words).ok()?)),
    }
}

/// Writes an interval, or that there is none.
pub(crate) fn write_interval(rt: &HostRuntime, interval: Option<Interval>) -> io::Result<()> {
    match interval {
        Some(interval) => {
            let (start, end) = (interval.start, interval.end);
            print!(rt; "{start} to {end}")
        }
        None => rt.print("none"),
    }
}
