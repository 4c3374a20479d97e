//! A job from its start to its end.
ghost use Rattle.std.specs.Prelude.{◌≡◌, ◌++◌, ◌∷◌, []};
ghost use Rattle.ruled_dispatch.specs.Lanes.{taken_of, told_of, IsWorkerOf};
ghost use Rattle.operators.specs.Kits.{IsKit};
ghost use Rattle.workers.specs.Accounts.{IsAccount};
ghost use Rattle.workers.specs.Logs.{reports_of};
ghost use Rattle.workers.specs.Shows.{shows};

use crate::crews::Gate;
use crate::steps::{LoggedAt, Worker};
use operators::Operator;
use ruled_dispatch::Lanes;
use sched_state::Job;
use slot_desk::SlotDesk;
use std::sync::Wait;
use std::sync::ledger::Ledger;

/// Does a job, from the report of its start to that of its end. The steps can stand in no other order, since each takes what the one before it gave.
pub(crate) fn do_job<L: Ledger, G: Gate, O: Operator, R: Wait>(
    rt: &R,
    lanes: &Lanes,
    desk: &SlotDesk<L>,
    worker: &mut Worker<L, O>,
    gate: &mut G,
    job: Job,
) -> LoggedAt<L>
    requires pass { IsWorkerOf lanes.now worker.old.pass }
    requires kit { IsKit O.kind_of worker.old.kit }
    ensures job { result.job ≡ job }
    ensures pass { IsWorkerOf lanes.now worker.new.pass }
    ensures number { worker.new.pass.number ≡ worker.old.pass.number }
    ensures took { taken_of worker.new.pass ≡ taken_of worker.old.pass }
    ensures told { told_of worker.new.pass ≡ told_of worker.old.pass ++ reports_of (result ∷ []) }
    ensures share { worker.new.share ≡ worker.old.share }
    ensures kit { IsKit O.kind_of worker.new.kit }
    ensures account { IsAccount (shows O.kind_of O.runs_of O.refused_of O.taken) worker.old.kit worker.new.kit (result ∷ []) }
{
    let started = worker.tell_start(rt, lanes, job);
    let entered = worker.enter(rt, desk, started);
    gate.before(rt, entered.job());
    let performed = worker.perform(rt, entered);
    gate.after(rt, performed.job(), performed.outcome());
    let departed = worker.leave(rt, desk, performed);
    worker.tell_end(rt, lanes, departed)
}
