//! What a run is equipped with before it starts: all the memory that its threads and their ends take.
ghost use Rattle.std.specs.Prelude.{◌≡◌, ◌+◌, ◌*◌, ◌<◌, ◌≤◌, max, [], All, IfOk, length, vec_capacity};
ghost use Rattle.ruled_dispatch.specs.Lanes.{sent_of, heard_of, taken_of, told_of, job_capacity_of, report_capacity_of, AreAllOf, AreNumbered};

use kept::Keep;
use operators::Operator;
use ruled_dispatch::{DirectorPass, Lanes, WorkerPass};
use slot_desk::{Share, SlotDesk};
use std::alloc::{AllocError, Global};
use std::sync::ledger::{Blank, Ledger};
use workers::{Gate, Handle, ResultRoom};

/// The lanes and the desk, with a pass and a share for each worker, and room for what comes back.
#[derive(Drop)]
pub(crate) struct Equipment<D: Ledger, G: Gate, O: Operator> {
    pub lanes: Lanes,
    pub desk: SlotDesk<D>,
    pub pass: DirectorPass,
    pub workers: Workers<D, G, O>,
    pub room: ResultRoom<D, G, O>,
}

/// What the workers get, room for their threads, and what is kept of a run.
#[derive(Drop)]
pub(crate) struct Workers<D: Ledger, G: Gate, O: Operator> {
    pub handles: Vec<Handle<D, G, O>>,
    pub passes: Vec<WorkerPass>,
    pub shares: Vec<Share<D>>,
    pub keep: Keep,
}

/// Equips a run with so many lanes and so many workers.
pub(crate) fn equip<D: Ledger, G: Gate, O: Operator>(
    alloc: Global,
    blank: Blank,
    lane_count: u32,
    count: usize,
    keep: Keep,
) -> Result<Equipment<D, G, O>, AllocError>
    requires lanes { lane_count ≤ 64 }
    requires workers { (0 < count) × (count ≤ 16) }
    requires name { blank.name ≡ D.name }
    requires parts { (blank.parts ≡ D.parts) × (blank.parts ≡ count) }
    ensures queues { IfOk result (λ q. (job_capacity_of q.lanes ≡ lane_count + count) × (report_capacity_of q.lanes ≡ max 1 (2 * lane_count))) }
    ensures all { IfOk result (λ q. AreAllOf q.lanes q.pass q.workers.passes.items) }
    ensures numbers { IfOk result (λ q. AreNumbered q.workers.passes.items) }
    ensures workers { IfOk result (λ q. (length q.workers.passes.items ≡ count) × (length q.workers.shares.items ≡ count)) }
    ensures unused { IfOk result (λ q. (sent_of q.pass ≡ []) × (heard_of q.pass ≡ [])) }
    ensures new { IfOk result (λ q. All (λ w. taken_of w ≡ []) q.workers.passes.items × All (λ w. told_of w ≡ []) q.workers.passes.items) }
    ensures none { IfOk result (λ q. All (λ share. share ≡ []) q.workers.shares.items) }
    ensures room { IfOk result (λ q. (q.workers.handles.items ≡ []) × (count ≤ vec_capacity q.workers.handles) × (q.room ≡ count)) }
    ensures keep { IfOk result (λ q. q.workers.keep ≡ keep) }
{
    let handles = Vec::with_capacity(alloc, count)?;
    let room = ResultRoom::new(alloc, count)?;
    let (desk, shares) = SlotDesk::open(alloc, blank, count)?;
    let (lanes, pass, passes) = Lanes::open(alloc, lane_count as usize, count)?;
    let workers = Workers {
        handles,
        passes,
        shares,
        keep,
    };
    Ok(Equipment {
        lanes,
        desk,
        pass,
        workers,
        room,
    })
}
