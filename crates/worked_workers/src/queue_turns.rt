//! One thread does one word after another: `NUMBER` sends the job with that serial, `stop` sends a stop, and `take` or `take:WORKER`
//! has a worker take, the first one where none is named; `tell:WORKER:SERIAL:STAGE` has a worker tell, and `hear` hears.
ghost use Rattle.std.specs.Prelude.{◌<◌, ◌≤◌};

use crate::jobs::numbered_job;
use crate::reports::{read_report, write_heard, write_report};
use crate::seats::Seats;
use ruled_dispatch::JobOrStop;
use std::alloc::Global;
use std::io;
use std::sync::Wait;

/// Writes what comes of each word, and what is left in the end.
pub(crate) fn write_answer<R: Wait + Print>(
    rt: &R,
    alloc: Global,
    lanes: usize,
    workers: usize,
    words: &str,
) -> io::Result<()>
    requires lanes { lanes ≤ 64 }
    requires workers { (0 < workers) × (workers ≤ 16) }
{
    let mut seats = Seats::open(alloc, lanes, workers)?;
    write_turns(rt, alloc, &mut seats, words)?;
    let tally = seats.tally(rt);
    let (jobs, reports) = (tally.jobs, tally.reports);
    print!(rt; ", left: jobs {jobs}, reports {reports}")
}

fn write_turns<R: Wait + Print>(
    rt: &R,
    alloc: Global,
    seats: &mut Seats,
    words: &str,
) -> io::Result<()> {
    for word in words.split(' ') {
        write_turn(rt, alloc, seats, word)?;
    }
    Ok(())
}

// Does a word, and writes what comes of it.
fn write_turn<R: Wait + Print>(
    rt: &R,
    alloc: Global,
    seats: &mut Seats,
    word: &str,
) -> io::Result<()> {
    if let Some(worker) = word.strip_prefix("take:") {
        return write_taken(rt, seats, worker.parse().unwrap_or(usize::MAX));
    }
    if let Some(told) = word.strip_prefix("tell:") {
        return write_told(rt, seats, told);
    }
    match word {
        "take" => write_taken(rt, seats, 0),
        "hear" => write_hearing(rt, seats),
        "stop" => write_sent(rt, seats, JobOrStop::Stop),
        _ => write_sent_job(rt, alloc, seats, word),
    }
}

// Sends the job with the serial that the word is.
fn write_sent_job<R: Wait + Print>(
    rt: &R,
    alloc: Global,
    seats: &mut Seats,
    word: &str,
) -> io::Result<()> {
    match word.parse() {
        Ok(serial) => {
            let job = numbered_job(alloc, serial)?;
            write_sent(rt, seats, JobOrStop::Job(job))
        }
        Err(_) => rt.print(" no such word"),
    }
}

// Sends an item, and writes whether it was accepted, or which item came back.
fn write_sent<R: Wait + Print>(rt: &R, seats: &mut Seats, item: JobOrStop) -> io::Result<()> {
    let back = seats.send(rt, item).err();
    write_moved(rt, " back:", back.as_ref(), " sent")
}

// Has a worker take, and writes what it took.
fn write_taken<R: Wait + Print>(rt: &R, seats: &mut Seats, worker: usize) -> io::Result<()> {
    let taken = seats.take(rt, worker);
    write_moved(rt, " took:", taken.as_ref(), " none")
}

// Has a worker tell, and writes whether the report was accepted, or which one came back.
fn write_told<R: Wait + Print>(rt: &R, seats: &mut Seats, word: &str) -> io::Result<()> {
    let Some((worker, report)) = read_report(word) else {
        return rt.print(" no such report");
    };
    match seats.tell(rt, worker, report) {
        Ok(()) => rt.print(" told"),
        Err(back) => {
            rt.print(" back:")?;
            write_report(rt, &back)
        }
    }
}

// Hears, and writes what was heard.
fn write_hearing<R: Wait + Print>(rt: &R, seats: &mut Seats) -> io::Result<()> {
    match seats.hear(rt) {
        Some(heard) => {
            rt.print(" heard:")?;
            write_heard(rt, &heard)
        }
        None => rt.print(" none"),
    }
}

// Writes an item behind this word, or where there is none the other word.
fn write_moved<R: Print>(
    rt: &R,
    word: &str,
    item: Option<&JobOrStop>,
    other: &str,
) -> io::Result<()> {
    match item {
        Some(JobOrStop::Job(job)) => {
            let serial = job.serial;
            print!(rt; "{word}{serial}")
        }
        Some(JobOrStop::Stop) => print!(rt; "{word}stop"),
        None => rt.print(other),
    }
}
