//! A planned change, kept in the record and in memory.
ghost use Rattle.std.specs.Prelude.{◌≡◌, IfOk, IfErr, OnOk, OnErr};
ghost use Rattle.sqlite.specs.Held.{state};
ghost use Rattle.sqlite.specs.State.{HasCleanDisk};
ghost use Rattle.meta_store.specs.Schedules.{HasRoom};
ghost use Rattle.meta_store.specs.Stores.{Writes};
ghost use Rattle.meta_store.specs.Transactions.{Transacts};
ghost use Rattle.director.specs.Faults.{IsFaultOfStore, IsGivenFault};

use crate::faults::Fault;
use meta_store::{Change, Schedule, Store};
use sched_events::Answer;
use sqlite::Alter;

// Writes the change to the record in one transaction, and then does it in memory, for which room was reserved before.
pub(crate) fn keep<S: Alter>(
    store: &mut Store<S>,
    schedule: &mut Schedule,
    change: Change,
) -> Result<Answer, Fault>
    requires { change.before ≡ schedule.old.content }
    ensures answer { IfOk result (λ answer. answer ≡ change.answer) }
    ensures after { OnOk result (schedule.new.content ≡ change.after) }
    ensures same { OnErr result (schedule.new.content ≡ schedule.old.content) }
    ensures fault { IfErr result IsFaultOfStore }
    ensures transacts { Transacts (Writes change) (state S.Store store.old) (state S.Store store.new)
        result }
    ensures given { HasCleanDisk (state S.Store store.new)
        → IfErr result (IsGivenFault (state S.Store store.old) (state S.Store store.new)) }
{
    match write(store, schedule, &change) {
        Ok(()) => Ok(schedule.commit(change)),
        Err(fault) => Err(fault),
    }
}

// Reserves room for the change, and writes it to the record.
fn write<S: Alter>(
    store: &mut Store<S>,
    schedule: &mut Schedule,
    change: &Change,
) -> Result<(), Fault>
    ensures room { OnOk result (HasRoom change.now schedule.new) }
    ensures same { schedule.new.content ≡ schedule.old.content }
    ensures fault { IfErr result IsFaultOfStore }
    ensures transacts { Transacts (Writes change.now) (state S.Store store.old) (state S.Store store.new)
        result }
    ensures given { HasCleanDisk (state S.Store store.new)
        → IfErr result (IsGivenFault (state S.Store store.old) (state S.Store store.new)) }
{
    schedule.reserve(change)?;
    store.write(change)?;
    Ok(())
}
