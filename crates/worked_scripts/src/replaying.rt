//! What lists of events lead to in one call, and what is shown of a schedule.
use crate::leaving::put_left;
use crate::recording::Recorder;
use crate::records::new_director;
use answer_lines::put_listing;
use command_words::Listing;
use director::{Director, Fault};
use meta_store::{Store, StoreFault};
use sched_core::{Answer, Event, Limits, Schedule};
use sqlite::Alter;
use std::alloc::{AllocError, Global};
use std::io::{self, Write};

/// The record of a director that accepts all of these events.
pub(crate) fn made_by<S: Alter + Drop>(
    alloc: Global,
    mut director: Director<S>,
    events: &[Event],
) -> Result<Store<S>, AllocError> {
    if are_accepted(alloc, &mut director, events)? {
        Ok(director.close())
    } else {
        Err(AllocError)
    }
}

// Does these events in one list: whether all were accepted.
fn are_accepted<S: Alter>(
    alloc: Global,
    director: &mut Director<S>,
    events: &[Event],
) -> Result<bool, AllocError> {
    match director.run_list(alloc, copied(alloc, events)?) {
        Ok(answers) => Ok(answers.iter().all(|answer| answer.is_ok())),
        Err(_) => Err(AllocError),
    }
}

/// What is shown of a schedule: its graphs, runs, task instances and pools, and what it leaves.
pub(crate) fn shown(alloc: Global, schedule: &Schedule) -> io::Result<Vec<u8>> {
    let mut text = Vec::new(alloc);
    put_shown(schedule, &mut text)?;
    Ok(text)
}

fn put_shown<W: Write>(schedule: &Schedule, output: &mut W) -> io::Result<()> {
    for listing in [Listing::Dags, Listing::Runs, Listing::Tasks, Listing::Pools] {
        put_listing(output, schedule, listing)?;
    }
    put_left(schedule, output)
}

/// Whether what is shown of the schedule that the record is read as is this.
pub(crate) fn is_read_as<S: Alter + Drop>(
    alloc: Global,
    store: Store<S>,
    limits: Limits,
    shown: &[u8],
) -> io::Result<bool> {
    let read = read_back(alloc, store, limits)?;
    Ok(read.as_slice() == shown)
}

// What is shown of the schedule that the record is read as: nothing where it is not read.
fn read_back<S: Alter + Drop>(
    alloc: Global,
    mut store: Store<S>,
    limits: Limits,
) -> io::Result<Vec<u8>> {
    match store.load(alloc, limits) {
        Ok(schedule) => shown(alloc, &schedule),
        Err(StoreFault::Memory) => Err(io::Error::from(AllocError)),
        Err(_) => Ok(Vec::new(alloc)),
    }
}

fn copied(alloc: Global, events: &[Event]) -> Result<Vec<Event>, AllocError> {
    let mut copies = Vec::new(alloc);
    push_copies(alloc, &mut copies, events)?;
    Ok(copies)
}

fn push_copies(alloc: Global, copies: &mut Vec<Event>, events: &[Event]) -> Result<(), AllocError> {
    for event in events {
        copies.push(event.copy(alloc)?)?;
    }
    Ok(())
}

// What a list of events left.
#[derive(Drop)]
struct Listed {
    // The events that were accepted.
    accepted: Vec<Event>,
    shown: Vec<u8>,
    // What is shown of the schedule that the record is read as.
    read: Vec<u8>,
}

impl Listed {
    fn is(&self, shown: &[u8]) -> bool {
        self.shown.as_slice() == shown && self.read.as_slice() == shown
    }
}

/// Whether events lead in one list to what is shown. Where memory ran out in it, it is done again, and what it left has to be what those
/// events lead to that were accepted.
pub(crate) fn are_led_to<R: Recorder>(
    alloc: Global,
    recorder: &R,
    limits: Limits,
    events: &[Event],
    shown: &[u8],
) -> io::Result<bool> {
    let listed = by_list(alloc, recorder, limits, events)?;
    if listed.accepted.len() == events.len() {
        return Ok(listed.is(shown));
    }
    Ok(
        is_of_accepted(alloc, recorder, limits, &listed)?
            && is_listed(alloc, recorder, limits, events, shown)?,
    )
}

// Whether what a list left is what its accepted events lead to.
fn is_of_accepted<R: Recorder>(
    alloc: Global,
    recorder: &R,
    limits: Limits,
    listed: &Listed,
) -> io::Result<bool> {
    let accepted = by_list(alloc, recorder, limits, listed.accepted.as_slice())?;
    Ok(listed.is(accepted.shown.as_slice()))
}

fn is_listed<R: Recorder>(
    alloc: Global,
    recorder: &R,
    limits: Limits,
    events: &[Event],
    shown: &[u8],
) -> io::Result<bool> {
    let listed = by_list(alloc, recorder, limits, events)?;
    Ok(listed.is(shown))
}

fn by_list<R: Recorder>(
    alloc: Global,
    recorder: &R,
    limits: Limits,
    events: &[Event],
) -> io::Result<Listed> {
    let director = new_director(alloc, recorder, limits)?;
    listed_by(alloc, director, limits, events)
}

// What a director leaves that does these events in one list.
fn listed_by<S: Alter + Drop>(
    alloc: Global,
    mut director: Director<S>,
    limits: Limits,
    events: &[Event],
) -> io::Result<Listed> {
    let accepted = accepted_in(alloc, &mut director, events)?;
    let (shown, read) = left_by(alloc, director, limits)?;
    Ok(Listed {
        accepted,
        shown,
        read,
    })
}

// Does these events in one list: those that were accepted.
fn accepted_in<S: Alter>(
    alloc: Global,
    director: &mut Director<S>,
    events: &[Event],
) -> Result<Vec<Event>, AllocError> {
    match director.run_list(alloc, copied(alloc, events)?) {
        Ok(answers) => accepted_of(alloc, events, &answers),
        Err((_, stepped)) => copied(alloc, events.get(..stepped).unwrap_or(events)),
    }
}

// What is shown of a director's schedule, and of the one that its record is read as.
fn left_by<S: Alter + Drop>(
    alloc: Global,
    director: Director<S>,
    limits: Limits,
) -> io::Result<(Vec<u8>, Vec<u8>)> {
    let shown = shown(alloc, director.schedule())?;
    Ok((shown, read_back(alloc, director.close(), limits)?))
}

fn accepted_of(
    alloc: Global,
    events: &[Event],
    answers: &[Result<Answer, Fault>],
) -> Result<Vec<Event>, AllocError> {
    let mut accepted = Vec::new(alloc);
    push_accepted(alloc, &mut accepted, events, answers)?;
    Ok(accepted)
}

fn push_accepted(
    alloc: Global,
    accepted: &mut Vec<Event>,
    events: &[Event],
    answers: &[Result<Answer, Fault>],
) -> Result<(), AllocError> {
    for (event, answer) in events.iter().zip(answers) {
        if answer.is_ok() {
            accepted.push(event.copy(alloc)?)?;
        }
    }
    Ok(())
}
