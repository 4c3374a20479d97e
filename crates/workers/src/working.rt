//! The loop of a worker.
ghost use Rattle.std.specs.Prelude.{◌≡◌, ◌++◌, ◌∷◌, []};
ghost use Rattle.ruled_dispatch.specs.declared.items.JobOrStop.TheVariants as items;
ghost use Rattle.ruled_dispatch.specs.Lanes.{taken_of, told_of, IsWorkerOf};
ghost use Rattle.operators.specs.Kits.{IsKit};
ghost use Rattle.workers.specs.Logs.{jobs_of, reports_of};
ghost use Rattle.workers.specs.Accounts.{IsAccount};
ghost use Rattle.workers.specs.Ends.{number_of};
ghost use Rattle.workers.specs.Passes.{StaysWith};
ghost use Rattle.workers.specs.Shows.{shows};

use crate::asking::reserve;
use crate::crews::{Crew, EndAt, Gate};
use crate::logs::Log;
use crate::steps::Worker;
use crate::trying::do_job;
use kept::Keep;
use operators::Operator;
use ruled_dispatch::{JobOrStop, Lanes, WorkerPass};
use slot_desk::{Share, SlotDesk};
use std::alloc::Global;
use std::sync::Wait;
use std::sync::ledger::Ledger;

/// Does the jobs that it takes, one after another, until it takes a stop.
///
/// While there is no job it sleeps. `keep` says whether the log is kept, which then takes memory for each job until the worker ends.
pub fn work<L: Ledger, G: Gate, O: Operator, R: Wait>(
    rt: &R,
    alloc: Global,
    lanes: &Lanes,
    desk: &SlotDesk<L>,
    pass: WorkerPass,
    share: Share<L>,
    crew: Crew<G, O>,
    keep: Keep,
) -> (EndAt<L, G, O>, WorkerPass, Share<L>)
    requires pass { IsWorkerOf lanes.now pass }
    requires kit { IsKit O.kind_of crew.kit }
    ensures taken { taken_of result.1 ≡ (taken_of pass ++ jobs_of result.0.log.items) ++ items.Stop ∷ [] }
    ensures told { told_of result.1 ≡ told_of pass ++ reports_of result.0.log.items }
    ensures account { IsAccount (shows O.kind_of O.runs_of O.refused_of O.taken) crew.kit result.0.kit result.0.log.items }
    ensures kit { IsKit O.kind_of result.0.kit }
    ensures number { number_of result.0 ≡ pass.number }
    ensures pass { StaysWith pass result.1 }
    ensures share { result.2 ≡ share }
    ensures keep { result.0.log.keep ≡ keep }
{
    let Crew { kit, mut gate } = crew;
    let mut worker = Worker::new(alloc, pass, share, kit);
    let mut log = Log::new(alloc, keep);
    for _ in rt.forever() {
        reserve(rt, &mut log);
        match worker.take(rt, lanes) {
            JobOrStop::Job(job) => {
                log.push_reserved(do_job(rt, lanes, desk, &mut worker, &mut gate, job));
            }
            JobOrStop::Stop => {
                let (pass, share, kit) = worker.into_parts();
                return (EndAt::new(kit, gate, log, &pass), pass, share);
            }
        }
    }
    unreachable!()
}
