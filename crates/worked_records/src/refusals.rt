//! A script over a record of whose log some writes in a row are refused, after so many that are not.
use crate::alike::Alike;
use crate::files::{Writes, flaky_files, refused_by};
use crate::scripts::{Played, run};
use crate::teams::one_worker;
use std::io;
use std::sync::Wait;
use std::thread::Threads;

// More writes than a run makes.
const MANY: u64 = 1_000;

/// A script by which one try is handed out and done.
pub(crate) const ONE_TASK: &str = "load inline
dag_id = \"one\"
schedule = \"@daily\"
start_date = \"2024-01-01\"
task = [{ task_id = \"t\", operator = \"noop\" }]
.
tick 2024-01-02
drain
list tasks
";

/// Writes what the script prints where so many writes are refused, after 0, 1, 2 .. that are not, up to the first run that meets no refusal.
pub(crate) fn write_answers<T: Threads + Wait + Sync>(
    rt: &T,
    host: &HostRuntime,
    refusals: u64,
) -> io::Result<()> {
    let mut alike: Option<Alike> = None;
    for passes in 0..MANY {
        if !is_refused(rt, host, Writes { passes, refusals }, &mut alike)? {
            break;
        }
    }
    Ok(())
}

// Whether a run met a refusal. Those that did are written once a run prints something else.
fn is_refused<T: Threads + Wait + Sync>(
    rt: &T,
    host: &HostRuntime,
    writes: Writes,
    alike: &mut Option<Alike>,
) -> io::Result<bool> {
    let Played { printed, files, .. } = run_with(rt, host, writes)?;
    let is_refused = refused_by(&files) > 0;
    if is_refused {
        Alike::add(host, alike, writes.passes, printed)?;
    } else {
        put_last(host, alike.as_ref(), &printed)?;
    }
    Ok(is_refused)
}

fn put_last(host: &HostRuntime, alike: Option<&Alike>, printed: &str) -> io::Result<()> {
    Alike::put(host, alike)?;
    println!(host; "  never: {printed}")
}

/// What comes of the script with one worker on such a disk.
pub(crate) fn run_with<T: Threads + Wait + Sync>(
    rt: &T,
    host: &HostRuntime,
    writes: Writes,
) -> io::Result<Played> {
    let team = one_worker(host)?;
    run(rt, host, flaky_files(host.alloc(), writes), team, ONE_TASK)
}
