//! Rounds: jobs with the serials from 1 are sent by one thread and taken by others.
ghost use Rattle.std.specs.Prelude.{◌<◌, ◌≤◌};

use crate::job_threads::run_round;
use crate::jobs::numbered_jobs;
use std::alloc::{AllocError, Global};
use std::io;
use std::sync::Wait;
use std::thread::Threads;

/// Writes whether each serial was taken once, and whether each worker took in the order sent.
pub(crate) fn write_answer<R: Threads + Wait + Print + Sync>(
    rt: &R,
    alloc: Global,
    lanes: usize,
    workers: usize,
    count: &str,
) -> io::Result<()>
    requires lanes { lanes ≤ 64 }
    requires workers { (0 < workers) × (workers ≤ 16) }
{
    let Ok(count) = count.parse() else {
        return rt.print(" no such count");
    };
    let jobs = numbered_jobs(alloc, count)?;
    let taken = run_round(rt, alloc, lanes, workers, jobs)?;
    write_taken(rt, alloc, &taken, count)
}

fn write_taken<R: Print>(
    rt: &R,
    alloc: Global,
    taken: &Vec<Vec<u64>>,
    count: u64,
) -> io::Result<()> {
    let all = sorted(alloc, taken)?;
    write_serials(rt, &all, count)?;
    rt.print(if are_increasing(taken) {
        ", each worker's in the order sent"
    } else {
        ", some out of order"
    })
}

// All serials that were taken, in their order as numbers.
fn sorted(alloc: Global, taken: &Vec<Vec<u64>>) -> Result<Vec<u64>, AllocError> {
    let mut all = Vec::new(alloc);
    for serials in taken {
        all.extend_from_slice(serials)?;
    }
    all.sort()?;
    Ok(all)
}

// Writes whether the serials that were taken, together, are those from 1 to the count, each once.
fn write_serials<R: Print>(rt: &R, all: &[u64], count: u64) -> io::Result<()> {
    let number = all.len();
    print!(rt; " {number} jobs taken")?;
    if number as u64 == count && are_from_one(all) {
        rt.print(", each serial once")
    } else {
        rt.print(", some serial not once")
    }
}

// Whether these are 1, 2, 3 and so on.
fn are_from_one(serials: &[u64]) -> bool {
    let mut next = 1;
    for serial in serials {
        if *serial != next {
            return false;
        }
        next = serial.saturating_add(1);
    }
    true
}

// Whether each worker's are increasing.
fn are_increasing(taken: &Vec<Vec<u64>>) -> bool {
    for serials in taken {
        if !is_increasing(serials) {
            return false;
        }
    }
    true
}

// Whether each is more than the one before it.
fn is_increasing(serials: &[u64]) -> bool {
    let mut last = 0;
    for serial in serials {
        if *serial <= last {
            return false;
        }
        last = *serial;
    }
    true
}
