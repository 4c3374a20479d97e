//! The threads of the workers: what each promises of its result, how they are started, and how they are joined.
ghost use Rattle.std.specs.Prelude.{◌≡◌, ◌<◌, ◌≤◌, [], All, IfSome, MatchBool, length, map, take, vec_len, vec_capacity};
ghost use Rattle.ruled_dispatch.specs.Lanes.{IsWorkerOf};
ghost use Rattle.operators.specs.Kits.{IsKit};
ghost use Rattle.kept.specs.declared.lists.Keep.{Keep as KeepValue};
ghost use Rattle.workers.specs.Shows.{shows};
ghost use Rattle.workers.specs.Threads.{HasWorked, HaveWorked};

use crate::crews::{Crew, EndAt, Gate};
use crate::pauses::Pause;
use crate::working::work;
use kept::Keep;
use operators::{Kit, Operator};
use ruled_dispatch::{Lanes, WorkerPass};
use slot_desk::{Share, SlotDesk};
use std::alloc::Global;
use std::snapshot::Snapshot;
use std::sync::Wait;
use std::sync::ledger::Ledger;
use std::thread;
use std::thread::{Promise, PromisedHandle, Scope, Threads};

/// What the thread of a worker gives back: the end of the crew, the pass and the share.
pub type Worked<L, G, O> = (EndAt<L, G, O>, WorkerPass, Share<L>);

/// The promise of a worker's thread: it worked from this pass, this share and this kit, and its log is kept, or not, as this says.
#[derive(Drop)]
pub struct Works<L: Ledger, O: Operator> {
    /// The pass that it got.
    pub pass: Snapshot<WorkerPass>,
    /// The share that it got.
    pub share: Snapshot<Share<L>>,
    /// The kit that it got.
    pub kit: Snapshot<Kit<O>>,
    /// Whether its log is kept.
    pub keep: Keep,
}

impl<L: Ledger, G: Gate, O: Operator> Promise<(EndAt<L, G, O>, WorkerPass, Share<L>)>
    for Works<L, O> {
    ghost use Rattle.std.specs.Prelude.{◌≡◌};
    ghost use Rattle.workers.specs.Shows.{shows};
    ghost use Rattle.workers.specs.Threads.{HasWorked};

    ghost kept_by = { λ p r. HasWorked (shows O.kind_of O.runs_of O.refused_of O.taken) p.pass.value p.share.value p.kit.value r.0 r.1 r.2
        × (r.0.log.keep ≡ p.keep) };
}

/// The thread of a worker.
pub type Handle<L, G, O> = PromisedHandle<Worked<L, G, O>, Works<L, O>>;

/// Starts a thread for each crew, with the pass and the share at its place; `keep` says whether the logs are kept. False where a thread was refused: its
/// crew is gone, and those after it were not started.
pub fn start_all<
    's,
    E,
    L: Ledger + Send + Sync + 's,
    G: Gate + Send + 's,
    O: Operator + Send + 's,
    R: Threads + Wait + Sync,
>(
    scope: &Scope<'s, E>,
    rt: &'s R,
    alloc: Global,
    lanes: &'s Lanes,
    desk: &'s SlotDesk<L>,
    handles: &mut Vec<Handle<L, G, O>>,
    passes: Vec<WorkerPass>,
    shares: Vec<Share<L>>,
    crews: Vec<Crew<G, O>>,
    keep: Keep,
) -> bool
    requires passes { All (IsWorkerOf lanes.now) passes.items }
    requires kits { All (λ c. IsKit O.kind_of c.kit) crews.items }
    requires pass_each { length passes.items ≡ length crews.items }
    requires share_each { length shares.items ≡ length crews.items }
    requires none { handles.old.items ≡ [] }
    requires room { length crews.items ≤ vec_capacity handles.old }
    ensures passes { map (λ h. h.promise.pass.value) handles.new.items ≡ take (vec_len handles.new) passes.items }
    ensures shares { map (λ h. h.promise.share.value) handles.new.items ≡ take (vec_len handles.new) shares.items }
    ensures kits { map (λ h. h.promise.kit.value) handles.new.items ≡ take (vec_len handles.new) (map (λ c. c.kit) crews.items) }
    ensures keep { All (λ h. h.promise.keep ≡ keep) handles.new.items }
    ensures all { MatchBool result (vec_len handles.new ≡ length crews.items) (vec_len handles.new < length crews.items) }
{
    let mut passes = passes.into_iter();
    let mut shares = shares.into_iter();
    for crew in crews {
        let Some(pass) = passes.next() else {
            unreachable!()
        };
        let Some(share) = shares.next() else {
            unreachable!()
        };
        match start(scope, rt, alloc, lanes, desk, pass, share, crew, keep) {
            Some(handle) => handles.push_reserved(handle),
            None => return false,
        }
    }
    true
}

// Starts a thread that works with this pass, this share and this crew, if the system lets it.
fn start<
    's,
    E,
    L: Ledger + Send + Sync + 's,
    G: Gate + Send + 's,
    O: Operator + Send + 's,
    R: Threads + Wait + Sync,
>(
    scope: &Scope<'s, E>,
    rt: &'s R,
    alloc: Global,
    lanes: &'s Lanes,
    desk: &'s SlotDesk<L>,
    pass: WorkerPass,
    share: Share<L>,
    crew: Crew<G, O>,
    keep: Keep,
) -> Option<Handle<L, G, O>>
    requires pass { IsWorkerOf lanes.now pass }
    requires kit { IsKit O.kind_of crew.kit }
    ensures pass { IfSome result (λ h. h.promise.pass.value ≡ pass) }
    ensures share { IfSome result (λ h. h.promise.share.value ≡ share) }
    ensures kit { IfSome result (λ h. h.promise.kit.value ≡ crew.kit) }
    ensures keep { IfSome result (λ h. h.promise.keep ≡ keep) }
{
    let promise = Works {
        pass: Snapshot::of(&pass),
        share: Snapshot::of(&share),
        kit: Snapshot::of(&crew.kit),
        keep,
    };
    let body = move || -> Worked<L, G, O>
        requires { IsWorkerOf lanes.now pass × IsKit O.kind_of crew.kit }
        ensures { HasWorked (shows O.kind_of O.runs_of O.refused_of O.taken) pass share crew.kit result.0 result.1 result.2
            × (result.0.log.keep ≡ keep) }
    { work(rt, alloc, lanes, desk, pass, share, crew, keep) };
    match scope.spawn_with(promise, body) {
        Ok(handle) => Some(handle),
        Err(_) => None,
    }
}

/// Waits until each of the threads has ended, and gives what they gave back, in their order.
pub fn join_all<L: Ledger, G: Gate, O: Operator, R: Threads + Wait>(
    rt: &R,
    handles: Vec<Handle<L, G, O>>,
) -> Vec<Worked<L, G, O>>
    ensures worked { HaveWorked (shows O.kind_of O.runs_of O.refused_of O.taken) (map (λ h. h.promise.pass.value) handles.items) (map (λ h. h.promise.share.value) handles.items) (map (λ h. h.promise.kit.value) handles.items) result.items }
    ensures keep { (keep : KeepValue) → All (λ h. h.promise.keep ≡ keep) handles.items
        → All (λ r. r.0.log.keep ≡ keep) result.items }
{
    let mut handles = handles;
    let mut pause = Pause::new();
    for _ in rt.forever() {
        match thread::join_promised(rt, handles) {
            Ok(results) => return results,
            Err(refused) => handles = refused.value,
        }
        pause.wait(rt);
    }
    unreachable!()
}
