//! Questions to the queues of jobs and reports.
//!
//! `turns LANES WORKERS WORD..` is one thread that does one word after another, `round LANES WORKERS JOBS` sends jobs from one thread to
//! several, `reports LANES WORKERS COUNT` has each of several threads tell so many reports, which one hears, and `rounds JOBS` sends so many
//! jobs to 1, 4 and 16 threads.
use crate::queue_times::write_rounds;
use crate::{queue_rounds, queue_turns, report_rounds};
use std::alloc::Global;
use std::io;
use std::rt::Clock;
use std::sync::Wait;
use std::thread::Threads;

/// Writes the answer to a question.
pub(crate) fn write_answer<R: Threads + Wait + Print + Clock + Sync>(
    rt: &R,
    alloc: Global,
    subject: &str,
    rest: &str,
) -> io::Result<()> {
    if subject == "rounds" {
        let Ok(count) = rest.parse() else {
            return rt.print(" no such count");
        };
        rt.println("")?;
        return write_rounds(rt, alloc, count, false);
    }
    let (lanes, rest) = rest.split_once(' ').unwrap_or((rest, ""));
    let (workers, rest) = rest.split_once(' ').unwrap_or((rest, ""));
    let (Ok(lanes), Ok(workers)) = (lanes.parse(), workers.parse()) else {
        return rt.print(" no such lanes");
    };
    if lanes > 64 || workers == 0 || workers > 16 {
        return rt.print(" no such lanes");
    }
    match subject {
        "turns" => queue_turns::write_answer(rt, alloc, lanes, workers, rest),
        "round" => queue_rounds::write_answer(rt, alloc, lanes, workers, rest),
        "reports" => report_rounds::write_answer(rt, alloc, lanes, workers, rest),
        _ => rt.print(" no such subject"),
    }
}
