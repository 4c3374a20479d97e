//! A script over files that fail each call after the first so many: what it prints, which events were accepted and which refused since, and what the record
//! is opened as then, twice: as it was written, and after a crash of the machine.
use crate::alike::Alike;
use crate::events::{is_of_line, name_of};
use crate::files::{Failing, Writes, empty_files, is_failing};
use crate::refusals::{ONE_TASK, run_with};
use crate::scripts::{Played, run};
use crate::states::{Held, NO_RECORD, held_after_stops, held_by_events};
use crate::teams::one_worker;
use sched_core::Event;
use std::alloc::{AllocError, Global};
use std::io;
use std::sync::Wait;
use std::thread::Threads;

// More calls than a run makes.
const MANY: u64 = 10_000;

// What a record may hold, and what that is called.
#[derive(Drop)]
struct Allowed {
    name: String,
    held: Held,
}

/// Writes what comes of the script where both files fail after 0, 1, 2 .. calls each, up to the first run that meets no failure.
pub(crate) fn write_answers<T: Threads + Wait + Sync>(
    rt: &T,
    host: &HostRuntime,
) -> io::Result<()> {
    let Played { accepted, .. } = run_with(rt, host, Writes::all_pass())?;
    let mut alike: Option<Alike> = None;
    for calls in 0..MANY {
        if !is_stopped(rt, host, &accepted, calls, &mut alike)? {
            break;
        }
    }
    Alike::put(host, alike.as_ref())
}

// Whether a run met a failure after so many calls. Those that did are written once a run prints something else. The events are those of a run that meets none.
fn is_stopped<T: Threads + Wait + Sync>(
    rt: &T,
    host: &HostRuntime,
    events: &[Event],
    calls: u64,
    alike: &mut Option<Alike>,
) -> io::Result<bool> {
    let alloc = host.alloc();
    let team = one_worker(host)?;
    let files = empty_files(alloc, Failing::Both, calls);
    let mut played = run(rt, host, files, team, ONE_TASK)?;
    if !is_failing(&mut played.files) {
        return Ok(false);
    }
    Alike::add(host, alike, calls, told(alloc, events, played)?)?;
    Ok(true)
}

// What a run printed and left.
fn told(alloc: Global, events: &[Event], played: Played) -> io::Result<String> {
    let Played {
        printed,
        files,
        accepted,
    } = played;
    let refused = refused_since(alloc, events, accepted.len(), printed.as_str())?;
    let allowed = allowed_after(alloc, &accepted, &refused)?;
    let accepted = accepted.len();
    let refused = names_of(alloc, &refused)?;
    let (written, crashed) = held_after_stops(alloc, files)?;
    let written = opened_as(&allowed, &written);
    let crashed = opened_as(&allowed, &crashed);
    Ok(format!(in alloc;
        "{printed}; accepted: {accepted}; refused since: {refused}; opened as written: {written}; after a crash: {crashed}"
    )?)
}

// The events that were refused behind so many that were accepted: of lines as many as the run told so, and the one of its own that ended it, if one did.
fn refused_since<'a>(
    alloc: Global,
    events: &'a [Event],
    accepted: usize,
    printed: &str,
) -> Result<Vec<&'a Event>, AllocError> {
    let mut refused = Vec::new(alloc);
    let (mut lines, mut own) = refusals_in(printed);
    for event in events.iter().skip(accepted) {
        if is_of_line(event) {
            if lines > 0 {
                refused.push(event)?;
            }
            lines = lines.saturating_sub(1);
        } else {
            if own > 0 {
                refused.push(event)?;
            }
            own = own.saturating_sub(1);
        }
    }
    Ok(refused)
}

// How many events of lines, and how many of its own, a run told that the record refused.
fn refusals_in(printed: &str) -> (u32, u32) {
    let mut lines: u32 = 0;
    let mut own: u32 = 0;
    for answer in printed.split('/') {
        if answer.contains("store 1 Refused") {
            lines = lines.saturating_add(1);
        }
        if answer.contains("StoreThrice") {
            own = own.saturating_add(1);
        }
    }
    (lines, own)
}

// What the record may hold: the schedule after the accepted events, or after these and one that was refused since.
fn allowed_after(
    alloc: Global,
    accepted: &[Event],
    refused: &[&Event],
) -> Result<Vec<Allowed>, AllocError> {
    let mut allowed = Vec::new(alloc);
    allowed.push(Allowed {
        name: String::from_str(alloc, "these")?,
        held: held_by_events(alloc, accepted, None)?,
    })?;
    for event in refused {
        allowed.push(Allowed {
            name: format!(in alloc; "these and {}", name_of(event))?,
            held: held_by_events(alloc, accepted, Some(event))?,
        })?;
    }
    Ok(allowed)
}

// What these events are called, with commas between.
fn names_of(alloc: Global, events: &[&Event]) -> Result<String, AllocError> {
    let mut names: Option<String> = None;
    for event in events {
        let name = name_of(event);
        names = Some(match names {
            Some(before) => format!(in alloc; "{before}, {name}")?,
            None => String::from_str(alloc, name)?,
        });
    }
    match names {
        Some(names) => Ok(names),
        None => String::from_str(alloc, "none"),
    }
}

// Which of these schedules was restarted where the record was opened, or that there was no record, or another.
fn opened_as<'a>(allowed: &'a [Allowed], held: &Held) -> &'a str {
    for it in allowed {
        if it.held.opened == held.opened {
            return it.name.as_str();
        }
    }
    if held.opened.as_str() == NO_RECORD {
        NO_RECORD
    } else {
        "else"
    }
}
