//! One event, done to a schedule and its record. What wants memory is asked again where it ran out, so that a refused growth changes nothing of
//! what is written.
use crate::leaving::put_left;
use crate::recording::Recorder;
use crate::records::Directed;
use answer_lines::{Shown, put};
use director::Fault;
use sched_core::{Answer, Event};
use sqlite::Alter;
use std::alloc::Global;
use std::io::{self, Write};
use std::mem;

/// Does an event, and writes its answer, or why it is not done, and what it leaves.
pub(crate) fn step<S: Alter + Drop, W: Write>(
    alloc: Global,
    directed: &mut Directed<S>,
    event: &Event,
    output: &mut W,
) -> io::Result<()> {
    put_answer(event, done_or_again(alloc, directed, event), output)?;
    put_left(directed.schedule(), output)
}

fn put_answer<W: Write>(
    event: &Event,
    answered: Result<Answer, Fault>,
    output: &mut W,
) -> io::Result<()> {
    match &answered {
        Ok(answer) => put(output, Shown::Answer(event, answer)),
        Err(fault) => put(output, Shown::Failure(fault)),
    }
}

fn done_or_again<S: Alter + Drop>(
    alloc: Global,
    directed: &mut Directed<S>,
    event: &Event,
) -> Result<Answer, Fault> {
    match directed.step(alloc, event) {
        Err(Fault::Memory) => directed.step(alloc, event),
        answered => answered,
    }
}

/// Closes the record and opens it again with so many lanes. Writes the answer to the restart by which it is opened, and what that leaves.
pub(crate) fn reopen<R: Recorder, W: Write>(
    alloc: Global,
    recorder: &R,
    directed: &mut Directed<R::Pages>,
    lanes: u32,
    output: &mut W,
) -> io::Result<()> {
    let other = Directed::new(alloc, recorder, directed.limits())?;
    let last = mem::replace(directed, other);
    *directed = last.reopened(alloc, lanes)?;
    put_opened(&Event::Restart(lanes), directed.opened(), output)?;
    put_left(directed.schedule(), output)
}

// Writes the answer to the event by which a record was opened.
fn put_opened<'a, W: Write>(
    event: &'a Event,
    answer: &'a Answer,
    output: &mut W,
) -> io::Result<()> {
    put(output, Shown::Answer(event, answer))
}
