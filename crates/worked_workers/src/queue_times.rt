//! How many jobs one thread sends to 1, 4 and 16 others.
ghost use Rattle.std.specs.Prelude.{◌<◌, ◌≤◌};

use crate::job_threads::run_round;
use crate::jobs::numbered_jobs;
use crate::times::a_second;
use std::alloc::Global;
use std::io;
use std::rt::Clock;
use std::sync::Wait;
use std::thread::Threads;
use std::time::Instant;

/// Writes lines that say how many were taken of so many jobs, in each round, and where they are timed how many a second.
pub(crate) fn write_rounds<R: Threads + Wait + Print + Clock + Sync>(
    rt: &R,
    alloc: Global,
    count: u64,
    is_timed: bool,
) -> io::Result<()> {
    write_round(rt, alloc, 1, count, is_timed)?;
    rt.println("")?;
    write_round(rt, alloc, 4, count, is_timed)?;
    rt.println("")?;
    write_round(rt, alloc, 16, count, is_timed)
}

// Makes a round through as many lanes as there are workers, and writes its line. The jobs are made before, and the threads in it.
fn write_round<R: Threads + Wait + Print + Clock + Sync>(
    rt: &R,
    alloc: Global,
    workers: usize,
    count: u64,
    is_timed: bool,
) -> io::Result<()>
    requires { (0 < workers) × (workers ≤ 16) }
{
    let jobs = numbered_jobs(alloc, count)?;
    let start = Instant::now(rt)?;
    let ended = run_round(rt, alloc, workers, workers, jobs)?.len();
    let time = start.elapsed(rt)?;
    print!(rt; "workers {workers}: {count} jobs sent, {ended} ended")?;
    if is_timed {
        let rate = a_second(count, time);
        print!(rt; ", {rate} sent and taken a second")?;
    }
    Ok(())
}
