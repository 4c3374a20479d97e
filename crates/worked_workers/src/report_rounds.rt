//! Rounds of reports: each worker tells that the tries from 1 to a count have begun, and one thread hears.
ghost use Rattle.std.specs.Prelude.{◌<◌, ◌≤◌};

use crate::report_threads::{ReportRound, run_report_round};
use ruled_dispatch::WorkerReport;
use std::alloc::Global;
use std::io;
use std::sync::Wait;
use std::thread::Threads;

/// Writes how many reports were heard, whether each worker's are those that it told, in the order told, and how many were left.
pub(crate) fn write_answer<R: Threads + Wait + Print + Sync>(
    rt: &R,
    alloc: Global,
    lanes: usize,
    workers: usize,
    count: &str,
) -> io::Result<()>
    requires lanes { lanes ≤ 64 }
    requires workers { (0 < workers) × (workers ≤ 16) }
{
    let Ok(count) = count.parse::<u64>() else {
        return rt.print(" no such count");
    };
    if count > 1_000_000 {
        return rt.print(" no such count");
    }
    let round = run_report_round(rt, alloc, lanes, workers, count)?;
    write_round(rt, &round, workers as u32, count)
}

fn write_round<R: Print>(rt: &R, round: &ReportRound, workers: u32, count: u64) -> io::Result<()> {
    let number = round.heard.len();
    print!(rt; " {number} reports heard")?;
    rt.print(if are_in_order(&round.heard, workers, count) {
        ", each worker's in the order told"
    } else {
        ", some out of order"
    })?;
    let left = round.left;
    print!(rt; ", left: {left}")
}

// Whether those of each worker have the serials from 1 to the count.
fn are_in_order(heard: &[WorkerReport], workers: u32, count: u64) -> bool {
    for worker in 0..workers {
        if !is_in_order(heard, worker, count) {
            return false;
        }
    }
    true
}

// Whether those of this worker have the serials from 1 to the count.
fn is_in_order(heard: &[WorkerReport], worker: u32, count: u64) -> bool {
    let mut next = 1;
    for told in heard {
        if told.worker != worker {
            continue;
        }
        if told.report.serial != next {
            return false;
        }
        next = next.saturating_add(1);
    }
    next == count.saturating_add(1)
}
