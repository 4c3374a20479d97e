//! One event, done to a schedule and to its record.
ghost use Rattle.std.specs.Prelude.{◌≡◌, IfOk, IfErr, OnOk, OnErr};
ghost use Rattle.sqlite.specs.Held.{state};
ghost use Rattle.sqlite.specs.State.{HasCleanDisk};
ghost use Rattle.meta_store.specs.Transactions.{Transacts};
ghost use Rattle.sched_events.specs.Outcomes.{IsStepped};
ghost use Rattle.sched_events.specs.Promises.{KeepsPromises};
ghost use Rattle.director.specs.Directors.{StepsIn};
ghost use Rattle.director.specs.Faults.{IsFaultOf, IsGivenFault, IsRefused};

use crate::faults::Fault;
use crate::keeping::keep;
use meta_store::{Schedule, Store, a_planned_event_is_written};
use sched_events::{Answer, Event, accepted_events_keep_the_promises};
use sqlite::Alter;
use std::alloc::Global;

// Plans the event, writes it to the record in one transaction, and does it in memory. Where it is not done, schedule and record are as they
// were.
pub(crate) fn step<S: Alter>(
    alloc: Global,
    store: &mut Store<S>,
    schedule: &mut Schedule,
    event: &Event,
) -> Result<Answer, Fault>
    ensures accepted { IfOk result (IsStepped schedule.old.content event.now schedule.new.content) }
    ensures promises { OnOk result (KeepsPromises event.now schedule.old.content
        schedule.new.content) }
    ensures same { OnErr result (schedule.new.content ≡ schedule.old.content) }
    ensures fault { IfErr result (IsFaultOf schedule.old.content event.now) }
    ensures untouched { IfErr result (λ f. IsRefused f → store.new ≡ store.old) }
    ensures transacts { Transacts (StepsIn event.now schedule.old.content) (state S.Store store.old)
        (state S.Store store.new) result }
    ensures given { HasCleanDisk (state S.Store store.new)
        → IfErr result (IsGivenFault (state S.Store store.old) (state S.Store store.new)) }
{
    a_planned_event_is_written();
    accepted_events_keep_the_promises();
    let _kept = schedule.runs();
    let change = schedule.plan(alloc, event)?;
    keep(store, schedule, change)
}
