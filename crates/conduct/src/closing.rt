//! The end of a run: what was handed out and heard is counted, and from that and the queues' rules it follows what the workers' logs hold.
ghost use Rattle.std.specs.Prelude.{List, ◌≡◌, ◌<◌, ◌≤◌, [], IfOk, IfErr, MatchResult, OnOk, IsOk, Ok, length, map, true, false};
ghost use Rattle.sqlite.specs.Held.{state};
ghost use Rattle.ruled_dispatch.specs.Lanes.{sent_of, heard_of, IsDirectorOf, HasWorkers};
ghost use Rattle.slot_desk.specs.Holds.{in_hand};
ghost use Rattle.workers.specs.Accounted.{AreBack, AreAmongSent, AreAmongTold};
ghost use Rattle.sched_events.specs.SettledAndSound.{IsSoundAndSaid};
ghost use Rattle.sched_events.specs.Steps.{handed_along};
ghost use Rattle.sessions.specs.History.{Step};
ghost use Rattle.sessions.specs.Runs.{DirectorValue};
ghost use Rattle.conduct.specs.Ends.{EachStandsInALog, EachToldItsOwn};
ghost use Rattle.conduct.specs.Faults as spec;
ghost use Rattle.conduct.specs.Faults.{all_started};
ghost use Rattle.conduct.specs.Served.{IsStopped};
ghost use Rattle.sessions.specs.declared.faults.ConductFault.TheVariants as fault;

use crate::conducting::Conducted;
use crate::threads::Managed;
use minutes::each_report_is_its_workers_own;
use operators::Operator;
use ruled_dispatch::{DirectorPass, Lanes, Tally};
use sessions::{ConductFault, Parted, a_right_history_is_of_its_events};
use slot_desk::{SlotDesk, Total};
use sqlite::Alter;
use std::alloc::Global;
use std::sync::Wait;
use std::sync::ledger::Ledger;
use workers::{Accounted, Gate, ResultRoom, Worked, WorkerEnd, account};

/// Counts what the threads did, unless a thread was refused. Where the session came to its end, `Unequal` says that something is left in a queue, or that
/// a report was missed. Another fault is passed on.
pub(crate) fn close<D: Ledger, S: Alter, G: Gate, O: Operator, R: Wait>(
    rt: &R,
    alloc: Global,
    lanes: Lanes,
    desk: SlotDesk<D>,
    room: ResultRoom<D, G, O>,
    managed: Managed<D, S, G, O>,
) -> Conducted<S, G, O>
    requires pass { IsDirectorOf lanes managed.parted.pass }
    requires workers { all_started managed.outcome ≡ true
        → HasWorkers managed.parted.pass (length managed.results.items) }
    requires back { all_started managed.outcome ≡ true → AreBack lanes managed.results.items }
    requires all { all_started managed.outcome ≡ true
        → (0 < length managed.results.items) × (length managed.results.items ≡ D.parts) × (length managed.results.items ≤ room) }
    ensures director { result.director ≡ managed.parted.director }
    ensures minutes { result.minutes ≡ managed.parted.minutes }
    ensures ok { OnOk result.outcome (IsOk managed.outcome) }
    ensures fault { IfErr result.outcome (λ f. MatchResult managed.outcome (λ _. f ≡ fault.Unequal) (λ g. f ≡ g)) }
    ensures ends { all_started managed.outcome ≡ true
        → result.ends.items ≡ map (λ r. r.0) managed.results.items }
    ensures none { all_started managed.outcome ≡ false → result.ends.items ≡ [] }
    ensures once { OnOk result.outcome ((h : List Step) (old : DirectorValue S)
        → IsStopped (state S.Store) (length managed.results.items) h old managed.parted
        → EachStandsInALog (handed_along managed.parted.minutes.items old.schedule.content) result.ends.items) }
    ensures own { OnOk result.outcome ((h : List Step) (old : DirectorValue S)
        → IsSoundAndSaid old.schedule.content
        → IsStopped (state S.Store) (length managed.results.items) h old managed.parted
        → EachToldItsOwn managed.parted.minutes.items result.ends.items) }
    ensures desk { IfOk result.outcome (λ d. (d.slots ≡ in_hand (map (λ r. r.2) managed.results.items)) × (length d.holds.items ≤ d.slots)) }
    ensures sent { all_started managed.outcome ≡ true
        → AreAmongSent (sent_of managed.parted.pass) result.ends.items }
    ensures told { all_started managed.outcome ≡ true
        → AreAmongTold (heard_of managed.parted.pass) result.ends.items }
{
    each_report_is_its_workers_own();
    a_right_history_is_of_its_events();
    let Managed {
        parted,
        outcome,
        results,
    } = managed;
    let Parted {
        director,
        minutes,
        pass,
        missed,
    } = parted;
    match outcome {
        Ok(()) => {
            let Accounted { ends, desk } = account(rt, lanes, desk, pass, results, room);
            Conducted {
                director,
                minutes,
                ends,
                outcome: unless_missed(desk, missed),
            }
        }
        Err(fault) => {
            let ends = account_after(rt, alloc, lanes, desk, room, pass, results, &fault);
            Conducted {
                director,
                minutes,
                ends,
                outcome: Err(fault),
            }
        }
    }
}

// What the desk held, unless something is left in a queue, or a report was missed.
fn unless_missed(desk: Result<Total, Tally>, missed: bool) -> Result<Total, ConductFault>
    ensures fault { IfErr result (λ f. f ≡ fault.Unequal) }
    ensures missed { OnOk result (missed ≡ false) }
    ensures desk { IfOk result (λ d. desk ≡ Ok d) }
{
    match desk {
        Ok(total) => {
            if missed {
                Err(ConductFault::Unequal)
            } else {
                Ok(total)
            }
        }
        Err(_left) => Err(ConductFault::Unequal),
    }
}

// Whether it ends a run before an event is stepped.
fn is_unstarted(fault: &ConductFault) -> bool
    ensures { result ≡ spec.is_unstarted fault.now }
{
    matches!(fault, ConductFault::NoWorker | ConductFault::SpawnRefused)
}

// The ends of the crews after a fault: all of them, or, where a thread was refused, none.
fn account_after<D: Ledger, G: Gate, O: Operator, R: Wait>(
    rt: &R,
    alloc: Global,
    lanes: Lanes,
    desk: SlotDesk<D>,
    room: ResultRoom<D, G, O>,
    pass: DirectorPass,
    results: Vec<Worked<D, G, O>>,
    fault: &ConductFault,
) -> Vec<WorkerEnd<G, O>>
    requires pass { IsDirectorOf lanes pass }
    requires workers { spec.is_unstarted fault.now ≡ false
        → HasWorkers pass (length results.items) }
    requires back { spec.is_unstarted fault.now ≡ false → AreBack lanes results.items }
    requires all { spec.is_unstarted fault.now ≡ false
        → (0 < length results.items) × (length results.items ≡ D.parts) × (length results.items ≤ room) }
    ensures ends { spec.is_unstarted fault.now ≡ false
        → result.items ≡ map (λ r. r.0) results.items }
    ensures none { spec.is_unstarted fault.now ≡ true → result.items ≡ [] }
    ensures sent { spec.is_unstarted fault.now ≡ false
        → AreAmongSent (sent_of pass) result.items }
    ensures told { spec.is_unstarted fault.now ≡ false
        → AreAmongTold (heard_of pass) result.items }
{
    if is_unstarted(fault) {
        return Vec::new(alloc);
    }
    let Accounted { ends, .. } = account(rt, lanes, desk, pass, results, room);
    ends
}
