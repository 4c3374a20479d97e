//! Events on a schedule without a record, each timed in its parts.
//!
//! The events below a title, `== NAME`, are timed under this name, those below `== -` and before the first title are not. Of each that is timed a line is printed,
//! `NAME PLAN RESERVE COMMIT`: how many nanoseconds its plan took, the room that was made for it, and its commit.
ghost use Rattle.std.specs.Prelude.{◌≡◌, IfOk, OnOk};
ghost use Rattle.sched_core.specs.Changes.{HasRoom};

use crate::lines::{Line, first_line};
use crate::lists::next_request;
use sched_core::{Change, Event, Limits, Schedule};
use script_commands::{LineReader, ScriptCommand};
use std::alloc::Global;
use std::io;
use std::rt::Clock;
use std::time::{Duration, Instant};

// The name under which nothing is timed.
const UNTIMED: &str = "-";

/// Steps the events of a text, and prints how long those take that are timed.
pub(crate) fn write_times(rt: &HostRuntime, text: &[u8]) -> io::Result<()> {
    let mut schedule = Schedule::new(rt.alloc(), Limits::full())?;
    let mut lines = LineReader::new(rt.alloc())?;
    time_lines(rt, &mut schedule, &mut lines, text)
}

fn time_lines(
    rt: &HostRuntime,
    schedule: &mut Schedule,
    lines: &mut LineReader,
    text: &[u8],
) -> io::Result<()> {
    let mut name = UNTIMED;
    let mut left = text;
    for _line in 0..text.len() {
        if left.is_empty() {
            break;
        }
        let (next, rest) = time_line(rt, schedule, lines, name, left)?;
        name = next;
        left = rest;
    }
    Ok(())
}

// Does the first line: the name for the lines after it, and the text after it.
fn time_line<'a>(
    rt: &HostRuntime,
    schedule: &mut Schedule,
    lines: &mut LineReader,
    name: &'a str,
    text: &'a [u8],
) -> io::Result<(&'a str, &'a [u8])> {
    let (line, rest) = first_line(text);
    match Line::of(line) {
        Line::Title(title) => Ok((title, rest)),
        Line::Event(event) => {
            step(rt, schedule, name, event)?;
            Ok((name, rest))
        }
        Line::Script => Ok((name, time_command(rt, schedule, lines, name, text)?)),
        _ => Ok((name, rest)),
    }
}

// Steps the event that the next command asks for, and answers the text after it.
fn time_command<'a>(
    rt: &HostRuntime,
    schedule: &mut Schedule,
    lines: &mut LineReader,
    name: &str,
    text: &'a [u8],
) -> io::Result<&'a [u8]> {
    let (request, left) = next_request(rt.alloc(), lines, text)?;
    match request {
        Some(Ok(ScriptCommand::Step(event))) => step(rt, schedule, name, event)?,
        Some(_) => return Err(io::Error::other("a line is no event")),
        None => {}
    }
    Ok(left)
}

// Steps an event, and prints how long that took where it is timed.
fn step(rt: &HostRuntime, schedule: &mut Schedule, name: &str, event: Event) -> io::Result<()> {
    let (change, planning) = plan(rt, rt.alloc(), schedule, event)?;
    let reserving = reserve(rt, schedule, &change)?;
    let committing = commit(rt, schedule, change)?;
    if name == UNTIMED {
        return Ok(());
    }
    let (plan, reserve) = (planning.as_nanos(), reserving.as_nanos());
    println!(rt; "{name} {plan} {reserve} {}", committing.as_nanos())
}

// The change that an event makes, and how long its planning took.
fn plan<R: Clock>(
    rt: &R,
    alloc: Global,
    schedule: &Schedule,
    event: Event,
) -> io::Result<(Change, Duration)>
    ensures { IfOk result (λ p. p.0.before ≡ schedule.now.content) }
{
    let start = Instant::now(rt)?;
    match schedule.plan(alloc, &event) {
        Ok(change) => Ok((change, start.elapsed(rt)?)),
        Err(_) => Err(io::Error::other("the event is refused")),
    }
}

// Makes room for a change: how long that took.
fn reserve<R: Clock>(rt: &R, schedule: &mut Schedule, change: &Change) -> io::Result<Duration>
    ensures content { schedule.new.content ≡ schedule.old.content }
    ensures room { OnOk result (HasRoom change.now schedule.new) }
{
    let start = Instant::now(rt)?;
    schedule.reserve(change)?;
    start.elapsed(rt)
}

// Does a change: how long that took.
fn commit<R: Clock>(rt: &R, schedule: &mut Schedule, change: Change) -> io::Result<Duration>
    requires planned { change.before ≡ schedule.old.content }
    requires room { HasRoom change schedule.old }
{
    let start = Instant::now(rt)?;
    let _answer = schedule.commit(change);
    start.elapsed(rt)
}
