//! What is timed: jobs that go through a queue, and tries that start a program.
ghost use Rattle.std.specs.Prelude.{◌≡◌, ◌*◌, ◌/◌, max};
ghost use Rattle.std.specs.Duration.{as_nanos};

use crate::folders::base_folder;
use crate::queue_times::write_rounds;
use crate::starts::write_starts;
use std::alloc::Global;
use std::io;
use std::rt::Clock;
use std::sync::Wait;
use std::thread::Threads;
use std::time::Duration;

// How many jobs are sent in a round.
const JOBS: u64 = 100_000;

// How many tries each thread performs.
const TRIES: u64 = 300;

/// Writes how many a second, of the jobs, the tries or both: a part is one of `queues` and `operators`.
pub(crate) fn write_times<R: Threads + Wait + Print + Clock + Sync>(
    rt: &R,
    host: &HostRuntime,
    part: Option<String>,
) -> io::Result<()> {
    let alloc = host.alloc();
    let is_named = |name: &str| part.as_ref().is_none_or(|part| part.as_str() == name);
    if is_named("queues") {
        write_rounds(rt, alloc, JOBS, true)?;
        rt.println("")?;
    }
    if is_named("operators") {
        write_start_times(rt, host, alloc)?;
        rt.println("")?;
    }
    Ok(())
}

fn write_start_times<R: Threads + Print + Clock + Sync>(
    rt: &R,
    host: &HostRuntime,
    alloc: Global,
) -> io::Result<()> {
    let base = base_folder(host)?;
    write_starts(rt, host, alloc, base.as_str(), TRIES, true)
}

/// How many a second, where so many took this time.
pub(crate) fn a_second(count: u64, time: Duration) -> u128
    ensures { result ≡ count * 1_000_000_000 / max 1 (as_nanos time) }
{
    u128::from(count) * 1_000_000_000 / time.as_nanos().max(1)
}
