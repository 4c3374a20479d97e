//! What is asked again until it is granted: room in the log, a hold and its place at the desk, and room in the queue of reports.
ghost use Rattle.std.specs.Prelude.{◌≡◌, ◌<◌, ◌++◌, ◌∷◌, [], true, false};
ghost use Rattle.std.specs.List.{Contains};
ghost use Rattle.ruled_dispatch.specs.Lanes.{taken_of, told_of, IsWorkerOf};
ghost use Rattle.slot_desk.specs.Holds.{has_serial, without};
ghost use Rattle.workers.specs.Logs.{hold_of};

use crate::logs::Log;
use crate::pauses::Pause;
use graph_file::Name;
use ruled_dispatch::{Lanes, Report, WorkerPass};
use sched_state::Job;
use slot_desk::{Hold, LeftAt, Share, SlotDesk};
use std::alloc::Global;
use std::sync::Wait;
use std::sync::ledger::Ledger;

/// Makes room for one more entry in the log.
pub(crate) fn reserve<L: Ledger, R: Wait>(rt: &R, log: &mut Log<L>)
    ensures same { log.new.items ≡ log.old.items }
    ensures keep { log.new.keep ≡ log.old.keep }
    ensures room { 0 < log.new.room }
{
    let mut pause = Pause::new();
    for _ in rt.forever() {
        if log.reserve().is_ok() {
            return;
        }
        pause.wait(rt);
    }
    unreachable!()
}

/// Tells a report.
pub(crate) fn tell<R: Wait>(rt: &R, lanes: &Lanes, pass: &mut WorkerPass, report: Report)
    requires { IsWorkerOf lanes.now pass.old }
    ensures pass { IsWorkerOf lanes.now pass.new }
    ensures number { pass.new.number ≡ pass.old.number }
    ensures taken { taken_of pass.new ≡ taken_of pass.old }
    ensures told { told_of pass.new ≡ told_of pass.old ++ report ∷ [] }
{
    let mut pause = Pause::new();
    for _ in rt.forever() {
        if lanes.tell(rt, pass, report).is_ok() {
            return;
        }
        pause.wait(rt);
    }
    unreachable!()
}

/// Enters the slots that the job takes.
pub(crate) fn enter<L: Ledger, R: Wait>(
    rt: &R,
    alloc: Global,
    desk: &SlotDesk<L>,
    share: &mut Share<L>,
    job: &Job,
)
    ensures entered { share.new ≡ share.old ++ hold_of job.now ∷ [] }
    ensures new { has_serial job.now.serial share.old ≡ false }
{
    let mut hold = Hold {
        serial: job.serial,
        pool: copy(rt, alloc, &job.pool),
        slots: job.slots,
    };
    let mut pause = Pause::new();
    for _ in rt.forever() {
        match desk.enter(rt, alloc, share, hold) {
            Ok(()) => return,
            Err((back, _)) => hold = back,
        }
        pause.wait(rt);
    }
    unreachable!()
}

/// Leaves the slots that were entered under the serial.
pub(crate) fn leave<L: Ledger, R: Wait>(
    rt: &R,
    desk: &SlotDesk<L>,
    share: &mut Share<L>,
    serial: u64,
) -> LeftAt<L>
    ensures hold { (result.serial ≡ serial) × Contains share.old result }
    ensures left { share.new ≡ without serial share.old }
{
    let mut pause = Pause::new();
    for _ in rt.forever() {
        match desk.leave(rt, share, serial) {
            Ok(left) => return left,
            Err(_) => pause.wait(rt),
        }
    }
    unreachable!()
}

// An equal name.
fn copy<R: Wait>(rt: &R, alloc: Global, name: &Name) -> Name
    ensures { result ≡ name.now }
{
    let mut pause = Pause::new();
    for _ in rt.forever() {
        match name.copy(alloc) {
            Ok(copied) => return copied,
            Err(_) => pause.wait(rt),
        }
    }
    unreachable!()
}
