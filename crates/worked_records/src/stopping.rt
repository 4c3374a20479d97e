//! Rounds that are stopped at each call of the disk in turn.
//!
//! A round makes a record in two files in memory, opens a director on it, steps some events, opens the record anew and closes it. In each
//! round one file, or both, fail each call after the first so many. Where a step fails, the files are opened again twice: as they were
//! written, as after the end of the process, and without what was not synced, as after a crash of the machine. Their rows are looked at, and
//! those that they have once a director has restarted the schedule.
use crate::files::Failing;
use crate::rounds::step_names;
use crate::states::{Held, held_after_stops, states};
use crate::stops::{Stop, stopped_run};
use crate::tallies::{Left, Tally};
use sched_core::Event;
use std::alloc::Global;
use std::io;

// More calls than a round makes.
const MANY: u64 = 10_000;

/// Writes for each step of a round of these events what was found after it was stopped.
pub(crate) fn write_answers<R: Print>(rt: &R, alloc: Global, events: &[Event]) -> io::Result<()> {
    let names = step_names(alloc, events)?;
    let mut steps = vec![in alloc; Left::none(); names.len()]?;
    stop_steps(alloc, events, &mut steps)?;
    put_steps(rt, &names, &steps)
}

fn put_steps<R: Print>(rt: &R, names: &[&str], steps: &[Left]) -> io::Result<()> {
    for (name, left) in names.iter().zip(steps) {
        print!(rt; "{name}: as written ")?;
        put_tally(rt, left.written)?;
        rt.print("; after a crash ")?;
        put_tally(rt, left.crashed)?;
        rt.println("")?;
    }
    Ok(())
}

// Counts what the stops of each step leave.
fn stop_steps(alloc: Global, events: &[Event], steps: &mut [Left]) -> io::Result<()> {
    let states = states(alloc, events)?;
    for failing in [Failing::Log, Failing::Database, Failing::Both] {
        stop_all(alloc, failing, events, &states, steps)?;
    }
    Ok(())
}

// Stops rounds at one call after another, until one is not stopped.
fn stop_all(
    alloc: Global,
    failing: Failing,
    events: &[Event],
    states: &[Held],
    steps: &mut [Left],
) -> io::Result<()> {
    for calls in 0..MANY {
        match stopped_run(alloc, failing, calls, events) {
            Some(stop) => judge(alloc, states, steps, stop)?,
            None => return Ok(()),
        }
    }
    Ok(())
}

// Counts what a stop left.
fn judge(alloc: Global, states: &[Held], steps: &mut [Left], stop: Stop) -> io::Result<()> {
    let Stop { step, files } = stop;
    let (written, crashed) = held_after_stops(alloc, files)?;
    let before = states.get(step);
    let after = states.get(step.saturating_add(1));
    if let (Some(before), Some(after), Some(left)) = (before, after, steps.get_mut(step)) {
        left.written.count(&written, before, after);
        left.crashed.count(&crashed, before, after);
    }
    Ok(())
}

fn put_tally<R: Print>(rt: &R, tally: Tally) -> io::Result<()> {
    print!(rt; "{}, {} else", tally.kinds(), tally.other)
}
