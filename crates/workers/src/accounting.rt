//! What is known once all workers have ended.
ghost use Rattle.std.specs.Prelude.{◌≡◌, ◌+◌, ◌<◌, ◌≤◌, IfOk, IfErr, OnOk, length, map, true};
ghost use Rattle.ruled_dispatch.specs.Lanes.{sent_of, heard_of, IsDirectorOf, HasWorkers, IsSettledBut, IsHeardBut};
ghost use Rattle.slot_desk.specs.Holds.{in_hand, slots_of, have_distinct_serials};
ghost use Rattle.workers.specs.Accounted.{AreBack, StandInLogs, AreHeard, AreAmongSent, AreAmongTold};

use crate::crews::{Gate, WorkerEnd};
use crate::results::{Parts, ResultRoom};
use crate::threads::Worked;
use operators::Operator;
use ruled_dispatch::{DirectorPass, Lanes, Tally};
use slot_desk::{SlotDesk, Total};
use std::sync::Wait;
use std::sync::ledger::Ledger;

/// What is left of workers that have ended.
#[derive(Drop)]
pub struct Accounted<G: Gate, O: Operator> {
    /// The ends of the crews, in their order.
    pub ends: Vec<WorkerEnd<G, O>>,
    /// What the desk held, or, where something is left in a queue, how many items and reports.
    pub desk: Result<Total, Tally>,
}

/// Counts what the queues hold and what the desk holds, once all workers have ended. It takes no memory.
///
/// Where something is left in a queue, the logs are no account of what was sent and heard; but none has a job that was not sent, and nothing was heard that
/// none tells.
pub fn account<L: Ledger, G: Gate, O: Operator, R: Wait>(
    rt: &R,
    lanes: Lanes,
    desk: SlotDesk<L>,
    director: DirectorPass,
    results: Vec<Worked<L, G, O>>,
    room: ResultRoom<L, G, O>,
) -> Accounted<G, O>
    requires director { IsDirectorOf lanes director }
    requires workers { HasWorkers director (length results.items) }
    requires back { AreBack lanes results.items }
    requires shares { length results.items ≡ L.parts }
    requires some { 0 < length results.items }
    requires room { length results.items ≤ room }
    ensures ends { result.ends.items ≡ map (λ r. r.0) results.items }
    ensures once { OnOk result.desk (StandInLogs (sent_of director) result.ends.items) }
    ensures heard { OnOk result.desk (AreHeard (heard_of director) result.ends.items) }
    ensures in_hand { IfOk result.desk (λ d. d.slots ≡ in_hand (map (λ r. r.2) results.items)) }
    ensures in_book { IfOk result.desk (λ d. d.slots ≡ slots_of d.holds.items) }
    ensures each_has_one { IfOk result.desk (λ d. length d.holds.items ≤ d.slots) }
    ensures distinct { IfOk result.desk (λ d. have_distinct_serials d.holds.items ≡ true) }
    ensures sent { AreAmongSent (sent_of director) result.ends.items }
    ensures told { AreAmongTold (heard_of director) result.ends.items }
    ensures left { IfErr result.desk (λ t. 0 < t.jobs + t.reports) }
    ensures items_left { IfErr result.desk (λ t. IsSettledBut director (map (λ r. r.1) results.items) t.jobs) }
    ensures reports_left { IfErr result.desk (λ t. IsHeardBut director (map (λ r. r.1) results.items) t.reports) }
{
    let Parts {
        ends,
        passes,
        shares,
    } = room.take_apart(results);
    let total = desk.gather(shares);
    let left = lanes.tally(rt, director, passes);
    Accounted {
        ends,
        desk: unless_left(total, left),
    }
}

// What the desk held, unless something is left in a queue.
fn unless_left(total: Total, left: Tally) -> Result<Total, Tally>
    ensures none { IfOk result (λ d. (d ≡ total) × ((left.jobs ≡ 0) × (left.reports ≡ 0))) }
    ensures some { IfErr result (λ t. (t ≡ left) × (0 < left.jobs + left.reports)) }
{
    if left.jobs > 0 {
        return Err(left);
    }
    if left.reports > 0 {
        return Err(left);
    }
    Ok(total)
}
