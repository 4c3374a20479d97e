//! When instances are due, and what becomes of a queue: dates are put in and taken out, and moments come.
ghost use Rattle.std.specs.Prelude.{◌≡◌, ◌≢◌, ◌≤◌, ℕ, true, false, length, IfOk, OnOk};
ghost use Rattle.std.specs.Option.{option_copied};
ghost use Rattle.sched_ready.specs.Due.{due_at, due_in, is_kept};
ghost use Rattle.sched_ready.specs.Patching.{HasAll, IsAhead, IsTurned, KeepsAll, due_before};

use crate::queues::Queue;
use graph_file::TaskSpec;
use instance_machine::{Dirty, Instance};
use moment_core::Moment;
use sched_state::{Run, RunPhase};
use std::alloc::{AllocError, Global};
use trigger_rules::State;

// From which moment on an instance of the run may be handed out, where the run is running.
fn due_in(run: &Run, task: &TaskSpec, instance: &Instance) -> Option<u64>
    ensures { result ≡ due_in run.now task.now instance.now }
{
    if !matches!(run.phase, RunPhase::Running) {
        return None;
    }
    match instance.state(task) {
        State::Scheduled => Some(0),
        State::UpForRetry => instance.retry_at(task),
        State::None
        | State::Queued
        | State::Running
        | State::Success
        | State::Failed
        | State::Skipped
        | State::UpstreamFailed => None,
    }
}

/// The same of the instance at a place of a run, where there is one.
pub fn due_at(run: &Run, task: &TaskSpec, place: usize) -> Option<u64>
    ensures { result ≡ due_at run.now task.now place }
{
    match run.instances.as_slice().get(place) {
        None => None,
        Some(instance) => due_in(run, task, instance),
    }
}

/// The same of a run that may have been there.
pub fn due_before(run: Option<&Run>, task: &TaskSpec, place: usize) -> Option<u64>
    ensures { result ≡ due_before (option_copied run.entry) task.now place }
{
    match run {
        None => None,
        Some(run) => due_at(run, task, place),
    }
}

// A date that is due from a moment on is put in.
fn put_date(queue: &mut Queue, now: u64, moment: u64, date: Moment) -> Result<(), AllocError>
    ensures marked { OnOk result (is_kept now queue.new date moment ≡ true) }
    ensures kept { OnOk result ((d m : ℕ) → is_kept now queue.old d m ≡ true
        → is_kept now queue.new d m ≡ true) }
{
    if moment <= now {
        queue.ready.reserve(1)?;
        queue.ready.mark(date);
        return Ok(());
    }
    queue.waiting.reserve(1)?;
    queue.waiting.mark((moment, date));
    Ok(())
}

// A date is taken out, with the moment for which it may have waited.
fn take_date(queue: &mut Queue, moment: Option<u64>, date: Moment)
    ensures { (now d m : ℕ) → d ≢ date → is_kept now queue.old d m ≡ true
        → is_kept now queue.new d m ≡ true }
{
    queue.ready.unmark(&date);
    if let Some(moment) = moment {
        queue.waiting.unmark(&(moment, date));
    }
}

/// The queue with a date that was due from one moment on, and is due from another.
pub fn turned(
    queue: Queue,
    now: u64,
    was: Option<u64>,
    due: Option<u64>,
    date: Moment,
) -> Result<Queue, AllocError>
    ensures { IfOk result (IsTurned now due date queue) }
{
    let mut queue = queue;
    take_date(&mut queue, was, date);
    let Some(moment) = due else {
        return Ok(queue);
    };
    put_date(&mut queue, now, moment, date)?;
    Ok(queue)
}

// The dates that wait for a moment that has come become ready.
fn move_up(queue: &mut Queue, now: u64)
    requires { length queue.old.waiting.keys ≤ queue.old.ready.room }
    ensures { KeepsAll now queue.old queue.new }
{
    'moments: loop {
        match queue.waiting.get(0) {
            None => return,
            Some(waiting) => {
                if now < waiting.0 {
                    return;
                }
                queue.ready.mark(waiting.1);
                let _ = queue.waiting.take_first();
            }
        }
    }
}

// How many dates are few.
const FEW: usize = 64;

// The dates once more, with room for so many more. Few of them are put in one by one, so that they take just the memory that they need.
fn copied(alloc: Global, dates: &Dirty<Moment>, more: usize) -> Result<Dirty<Moment>, AllocError>
    ensures dates { IfOk result (λ copy. HasAll dates.now.keys copy.keys) }
    ensures room { IfOk result (λ copy. more ≤ copy.room) }
{
    if FEW < dates.len().max(more) {
        let many = dates.copy(alloc, more)?;
        return Ok(many);
    }
    let mut copy = Dirty::new(alloc);
    copy.reserve(dates.len() + more)?;
    for at in 0..dates.len() {
        if let Some(date) = dates.get(at) {
            copy.mark(date);
        }
    }
    Ok(copy)
}

/// A copy of the queue, in which the dates are ready whose moments have come.
pub fn moved(alloc: Global, queue: &Queue, now: u64) -> Result<Queue, AllocError>
    ensures { IfOk result (KeepsAll now queue.now) }
{
    let more = queue.waiting.len().max(1);
    let ready = copied(alloc, &queue.ready, more)?;
    let waiting = queue.waiting.copy(alloc, 0)?;
    let mut copy = Queue { ready, waiting };
    move_up(&mut copy, now);
    Ok(copy)
}

/// Whether a date waits for a moment that has come.
pub fn has_come(queue: &Queue, now: u64) -> bool
    ensures { result ≡ false → IsAhead now queue.now }
{
    match queue.waiting.get(0) {
        None => false,
        Some(waiting) => waiting.0 <= now,
    }
}
