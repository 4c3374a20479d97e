//! A round of reports: each worker tells so many, and one thread hears until all have come.
ghost use Rattle.std.specs.Prelude.{◌≡◌, ◌<◌, ◌≤◌, ◌++◌, ◌∷◌, [], ℕ, All, IfOk, vec_len};
ghost use Rattle.ruled_dispatch.specs.Lanes.{heard_of, told_of, HasWorkers, IsDirectorOf, IsWorkerOf};
ghost use Rattle.worked_workers.specs.ReportRounds.{AreHeardBut, HasTold, HaveTold};

use instance_machine::Stage;
use ruled_dispatch::{DirectorPass, Lanes, Report, WorkerPass, WorkerReport};
use std::alloc::{AllocError, Global};
use std::sync::Wait;
use std::thread;
use std::thread::Threads;

/// What came of a round.
#[derive(Drop)]
pub(crate) struct ReportRound {
    /// What was heard, in its order.
    pub heard: Vec<WorkerReport>,
    /// How many reports were left when all threads had ended.
    pub left: u32,
}

/// Has so many workers each tell that the tries from 1 to the count have begun, each in a thread of its own where one can be made,
/// while one thread hears. Where no report is left, what was heard of each worker is just that, in order.
///
/// Where memory runs out before the workers begin, nobody tells what is waited for, and it may wait for ever.
pub(crate) fn run_report_round<R: Threads + Wait + Sync>(
    rt: &R,
    alloc: Global,
    lanes: usize,
    workers: usize,
    count: u64,
) -> Result<ReportRound, AllocError>
    requires lanes { lanes ≤ 64 }
    requires workers { (0 < workers) × (workers ≤ 16) }
    requires count { count ≤ 1_000_000 }
    ensures { IfOk result (λ r. AreHeardBut workers count r.heard.items r.left) }
{
    let (lanes, director, passes) = Lanes::open(alloc, lanes, workers)?;
    let shared = &lanes;
    let total = workers as u64 * count;
    let ((heard, director), told) = thread::join(
        rt,
        || -> (Vec<WorkerReport>, DirectorPass)
            requires { IsDirectorOf shared.now director }
            ensures pass { IsDirectorOf shared.entry.now result.1 }
            ensures workers { (n : ℕ) → HasWorkers director n → HasWorkers result.1 n }
            ensures heard { heard_of result.1 ≡ heard_of director ++ result.0.items }
        { hear_all(rt, alloc, shared, director, total) },
        || -> Result<Vec<WorkerPass>, AllocError>
            requires { All (IsWorkerOf shared.now) passes.items }
            ensures { IfOk result (λ v. HaveTold shared.entry.now count passes.items v.items) }
        { tell_each(rt, shared, passes, count) },
    );
    let passes = told?;
    let left = lanes.tally(rt, director, passes).reports;
    Ok(ReportRound { heard, left })
}

// Hears until so many reports have come.
fn hear_all<R: Wait>(
    rt: &R,
    alloc: Global,
    lanes: &Lanes,
    director: DirectorPass,
    total: u64,
) -> (Vec<WorkerReport>, DirectorPass)
    requires { IsDirectorOf lanes.now director }
    ensures pass { IsDirectorOf lanes.now result.1 }
    ensures workers { (n : ℕ) → HasWorkers director n → HasWorkers result.1 n }
    ensures heard { heard_of result.1 ≡ heard_of director ++ result.0.items }
{
    let mut pass = director;
    let mut heard = Vec::new(alloc);
    hear_until(rt, lanes, &mut pass, &mut heard, total);
    (heard, pass)
}

// Adds what is heard to a list that has nothing yet, until it has so many reports. Where memory is wanting it is asked again.
fn hear_until<R: Wait>(
    rt: &R,
    lanes: &Lanes,
    pass: &mut DirectorPass,
    heard: &mut Vec<WorkerReport>,
    total: u64,
)
    requires pass { IsDirectorOf lanes.now pass.old }
    requires nothing { heard.old.items ≡ [] }
    ensures pass { IsDirectorOf lanes.now pass.new }
    ensures workers { (n : ℕ) → HasWorkers pass.old n → HasWorkers pass.new n }
    ensures heard { heard_of pass.new ≡ heard_of pass.old ++ heard.new.items }
{
    for _ in rt.forever() {
        if heard.len() as u64 >= total {
            return;
        }
        if heard.reserve(1).is_err() {
            thread::yield_now();
            continue;
        }
        match lanes.hear(rt, pass) {
            None => thread::yield_now(),
            Some(told) => heard.push_reserved(told),
        }
    }
    unreachable!()
}

// Has each worker tell so many, all at once. On `Err`, which means that memory ran out, some may not have begun.
fn tell_each<R: Threads + Wait + Sync>(
    rt: &R,
    lanes: &Lanes,
    passes: Vec<WorkerPass>,
    count: u64,
) -> Result<Vec<WorkerPass>, AllocError>
    requires { All (IsWorkerOf lanes.now) passes.items }
    ensures { IfOk result (λ v. HaveTold lanes.now count passes.items v.items) }
{
    thread::map_vec(
        rt,
        passes,
        &|pass: WorkerPass| -> WorkerPass
            requires { IsWorkerOf lanes.now pass }
            ensures { HasTold lanes.entry.now count pass result }
        { tell_all(rt, lanes, pass, count) },
    )
}

// Tells that the tries from 1 to the count have begun.
fn tell_all<R: Wait>(rt: &R, lanes: &Lanes, pass: WorkerPass, count: u64) -> WorkerPass
    requires { IsWorkerOf lanes.now pass }
    ensures { HasTold lanes.now count pass result }
{
    let mut after = pass;
    for before in 0..count {
        let report = Report {
            serial: before + 1,
            stage: Stage::Started,
        };
        tell(rt, lanes, &mut after, report);
    }
    after
}

// Tells a report, again and again until there is room.
fn tell<R: Wait>(rt: &R, lanes: &Lanes, pass: &mut WorkerPass, report: Report)
    requires { IsWorkerOf lanes.now pass.old }
    ensures pass { IsWorkerOf lanes.now pass.new }
    ensures number { pass.new.number ≡ pass.old.number }
    ensures told { told_of pass.new ≡ told_of pass.old ++ report ∷ [] }
{
    for _ in rt.forever() {
        if lanes.tell(rt, pass, report).is_ok() {
            return;
        }
        thread::yield_now();
    }
    unreachable!()
}
