//! A round: one thread sends jobs and then a stop for each worker, and each worker takes until it has its stop.
ghost use Rattle.std.specs.Prelude.{◌≡◌, ◌<◌, ◌≤◌, All, IfOk, vec_len};
ghost use Rattle.ruled_dispatch.specs.Lanes.{IsDirectorOf, IsWorkerOf};

use ruled_dispatch::{DirectorPass, JobOrStop, Lanes, WorkerPass};
use sched_state::Job;
use std::alloc::{AllocError, Global};
use std::sync::Wait;
use std::thread;
use std::thread::Threads;

/// Sends the jobs through so many lanes to so many workers, each in a thread of its own where one can be made, and gives the serials
/// that each worker took, in its order.
///
/// Where memory runs out before the workers begin, nobody takes what is sent, and it may wait for ever.
pub(crate) fn run_round<R: Threads + Wait + Sync>(
    rt: &R,
    alloc: Global,
    lanes: usize,
    workers: usize,
    jobs: Vec<Job>,
) -> Result<Vec<Vec<u64>>, AllocError>
    requires lanes { lanes ≤ 64 }
    requires workers { (0 < workers) × (workers ≤ 16) }
{
    let (lanes, director, passes) = Lanes::open(alloc, lanes, workers)?;
    let shared = &lanes;
    let (_sent, taken) = thread::join(
        rt,
        || -> ()
            requires { IsDirectorOf shared.now director }
        { send_all(rt, shared, director, jobs, workers) },
        || -> Result<Vec<Vec<u64>>, AllocError>
            requires { All (IsWorkerOf shared.now) passes.items }
        { take_each(rt, alloc, shared, passes) },
    );
    taken
}

// Sends the jobs, and then so many stops.
fn send_all<R: Wait>(rt: &R, lanes: &Lanes, director: DirectorPass, jobs: Vec<Job>, workers: usize)
    requires { IsDirectorOf lanes.now director }
{
    let mut director = director;
    for job in jobs {
        send(rt, lanes, &mut director, JobOrStop::Job(job));
    }
    for _stop in 0..workers {
        send(rt, lanes, &mut director, JobOrStop::Stop);
    }
}

// Sends an item, again and again until there is room.
fn send<R: Wait>(rt: &R, lanes: &Lanes, director: &mut DirectorPass, item: JobOrStop)
    requires { IsDirectorOf lanes.now director.old }
    ensures { IsDirectorOf lanes.now director.new }
{
    let mut item = item;
    for _ in rt.forever() {
        match lanes.send(rt, director, item) {
            Ok(()) => return,
            Err(back) => item = back,
        }
        thread::yield_now();
    }
    unreachable!()
}

// Has each worker take until its stop, all at once. On `Err`, which means that memory ran out, some may not have begun.
fn take_each<R: Threads + Wait + Sync>(
    rt: &R,
    alloc: Global,
    lanes: &Lanes,
    passes: Vec<WorkerPass>,
) -> Result<Vec<Vec<u64>>, AllocError>
    requires { All (IsWorkerOf lanes.now) passes.items }
    ensures { IfOk result (λ v. vec_len v ≡ vec_len passes) }
{
    thread::map_vec(rt, passes, &|pass| take_all(rt, alloc, lanes, pass))
}

// Takes until a stop comes, and gives the serials that were taken. Where memory is wanting it is asked again.
fn take_all<R: Wait>(rt: &R, alloc: Global, lanes: &Lanes, pass: WorkerPass) -> Vec<u64>
    requires { IsWorkerOf lanes.now pass }
{
    let mut pass = pass;
    let mut serials = Vec::new(alloc);
    for _ in rt.forever() {
        if serials.reserve(1).is_err() {
            thread::yield_now();
            continue;
        }
        match lanes.take(rt, &mut pass) {
            None => thread::yield_now(),
            Some(JobOrStop::Stop) => return serials,
            Some(JobOrStop::Job(job)) => serials.push_reserved(job.serial),
        }
    }
    unreachable!()
}
