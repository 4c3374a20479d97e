//! New queues of the places of a graph.
ghost use Rattle.std.specs.Prelude.{◌≡◌, true, false, IfOk, None, OnOk, length};
ghost use Rattle.std.specs.Option.{option_copied};
ghost use Rattle.sched_ready.specs.Patching.{AreMoved, AreNone, ArePlacesPatched, IsChanging, IsDueAsBefore, IsMoved, IsPlacePatched};

use crate::filling::{due_at, due_before, has_come, moved, turned};
use crate::queues::Queue;
use crate::shelves::Shelf;
use dag_check::Graph;
use moment_core::Moment;
use sched_state::Run;
use std::alloc::{AllocError, Global};

// Whether these are the same.
fn is_same(was: Option<u64>, due: Option<u64>) -> bool
    ensures { result ≡ true → was ≡ due }
{
    was == due
}

// Whether the queue of a place is to change: it has changed already, or a date was due from one moment on and is due from another.
fn is_changing(was: Option<u64>, due: Option<u64>, slot: &Option<Queue>) -> bool
    ensures { result ≡ false → (slot.now ≡ None) × (was ≡ due) }
{
    if is_same(was, due) {
        return slot.is_some();
    }
    true
}

// The queue that is to change, where a date was due from one moment on and is due from another: the new one so far, or a copy of the old one.
fn changing(
    alloc: Global,
    old: &Queue,
    now: u64,
    was: Option<u64>,
    due: Option<u64>,
    slot: Option<Queue>,
) -> Result<Option<Queue>, AllocError>
    ensures { IfOk result (IsChanging now old.now was due slot) }
{
    if let Some(queue) = slot {
        return Ok(Some(queue));
    }
    if was == due {
        return Ok(None);
    }
    let copy = moved(alloc, old, now)?;
    Ok(Some(copy))
}

// The new queue of a place, after a date that was due from one moment on and is due from another.
fn patched_place(
    alloc: Global,
    old: &Queue,
    now: u64,
    was: Option<u64>,
    due: Option<u64>,
    date: Moment,
    slot: Option<Queue>,
) -> Result<Option<Queue>, AllocError>
    ensures { IfOk result (IsPlacePatched now old.now was due date slot) }
{
    match changing(alloc, old, now, was, due, slot)? {
        None => Ok(None),
        Some(queue) => {
            let queue = turned(queue, now, was, due, date)?;
            Ok(Some(queue))
        }
    }
}

// The slot of a place gets the new queue, after a date that was due from one moment on and is due from another. It is left as it is where nothing changes.
fn patch_place(
    alloc: Global,
    old: &Queue,
    now: u64,
    was: Option<u64>,
    due: Option<u64>,
    date: Moment,
    slot: &mut Option<Queue>,
) -> Result<(), AllocError>
    ensures { OnOk result (IsPlacePatched now old.now was due date slot.old slot.new) }
{
    if !is_changing(was, due, slot) {
        return Ok(());
    }
    let queue = slot.take();
    *slot = patched_place(alloc, old, now, was, due, date, queue)?;
    Ok(())
}

/// Whether what is due at each place in a run was due before, in the run as it may have been there.
pub fn is_due_as_before(dag: &Graph, run: &Run, before: Option<&Run>) -> bool
    ensures { result ≡ true → IsDueAsBefore dag.now (option_copied before.entry) run.now }
{
    for place in 0..dag.len() {
        let task = dag.task(place);
        let was = due_before(before, task, place);
        let due = due_at(run, task, place);
        if !is_same(was, due) {
            return false;
        }
    }
    true
}

/// The new queues of the places of a graph, after a run of it that may have been there as it was before.
pub fn patch_places(
    alloc: Global,
    now: u64,
    dag: &Graph,
    shelf: &Shelf,
    run: &Run,
    before: Option<&Run>,
    queues: &mut Vec<Option<Queue>>,
) -> Result<(), AllocError>
    ensures { OnOk result (ArePlacesPatched now dag.now shelf.now (option_copied before.entry) run.now
        queues.old.items queues.new.items) }
{
    let places = dag.len().min(shelf.len()).min(queues.len());
    for place in 0..places {
        let task = dag.task(place);
        let was = due_before(before, task, place);
        let due = due_at(run, task, place);
        let old = shelf.queue(place);
        patch_place(alloc, old, now, was, due, run.logical, &mut queues[place])?;
    }
    Ok(())
}

/// No new queue for any of so many places.
pub fn no_queues(alloc: Global, places: usize) -> Result<Vec<Option<Queue>>, AllocError>
    ensures long { IfOk result (λ queues. length queues.items ≡ places) }
    ensures none { IfOk result (λ queues. AreNone queues.items) }
{
    let mut queues = Vec::with_capacity(alloc, places)?;
    for _place in 0..places {
        queues.push(None)?;
    }
    Ok(queues)
}

// A copy of the queue with the moments that have come, where there are some.
fn moved_if(alloc: Global, queue: &Queue, now: u64) -> Result<Option<Queue>, AllocError>
    ensures { IfOk result (IsMoved now queue.now) }
{
    if !has_come(queue, now) {
        return Ok(None);
    }
    let copy = moved(alloc, queue, now)?;
    Ok(Some(copy))
}

/// New queues for the places of a shelf at which a moment has come.
pub fn moved_queues(
    alloc: Global,
    shelf: &Shelf,
    now: u64,
) -> Result<Vec<Option<Queue>>, AllocError>
    ensures { IfOk result (λ queues. AreMoved now shelf.now.queues queues.items) }
{
    let mut queues = Vec::with_capacity(alloc, shelf.len())?;
    for place in 0..shelf.len() {
        queues.push(moved_if(alloc, shelf.queue(place), now)?)?;
    }
    Ok(queues)
}
