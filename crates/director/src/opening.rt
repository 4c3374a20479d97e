//! A record, migrated where it has to be, read and restarted.
ghost use Rattle.std.specs.Prelude.{◌≡◌, false, IfOk, IfErr, OnOk, IsErrAnd, MatchResult, ℕ};
ghost use Rattle.sqlite.specs.Held.{state};
ghost use Rattle.sqlite.specs.State.{HasCleanDisk, Survives};
ghost use Rattle.meta_store.specs.Schedules.{is_ours};
ghost use Rattle.meta_store.specs.Stores.{CommitsBy, IsAsBefore, IsKeptOrMigrated, Migrates, OpensBy};
ghost use Rattle.meta_store.specs.Transactions.{Commits, Undone};
ghost use Rattle.meta_store.specs.declared.faults.StoreFault.TheVariants as store_fault;
ghost use Rattle.sched_state.specs.Limits.{Bounds};
ghost use Rattle.director.specs.Directors.{IsMigrated, Opens, RestartsIn};
ghost use Rattle.director.specs.Faults.{IsGivenFault, IsOpenFault, IsRefused};
ghost use Rattle.director.specs.declared.faults.Fault.TheVariants as fault;

use crate::faults::Fault;
use crate::stepping::step;
use meta_store::{Limits, Schedule, Store};
use sched_events::{Answer, Event};
use sqlite::Alter;
use std::alloc::Global;

// Makes a record of version 1 one of version 2, loads the schedule that it holds, and steps a restart of it in the record too.
pub(crate) fn restart<S: Alter>(
    alloc: Global,
    store: &mut Store<S>,
    lanes: u32,
    limits: Limits,
) -> Result<(Schedule, Answer), Fault>
    ensures opened { HasCleanDisk (state S.Store store.new) → IfOk result (λ p. Opens limits lanes
        (state S.Store store.old).now p.0.content p.1) }
    ensures limits { IfOk result (λ p. p.0.content.limits ≡ limits) }
    ensures transacts { MatchResult result
        (λ _. Commits (RestartsIn limits lanes) (CommitsBy (OpensBy (RestartsIn limits lanes))
        (state S.Store store.old)) (state S.Store store.old) (state S.Store store.new))
        (λ _. Undone IsKeptOrMigrated (CommitsBy (OpensBy (RestartsIn limits lanes))
        (state S.Store store.old)) (state S.Store store.old) (state S.Store store.new)) }
    ensures fault { HasCleanDisk (state S.Store store.new)
        → IfErr result (IsOpenFault limits lanes (state S.Store store.old).now) }
    ensures missing { is_ours (state S.Store store.old).now.schema ≡ false
        → IsErrAnd result (λ e. e ≡ fault.Store store_fault.NotOurs) }
    ensures refused_crash { IfErr result (λ f. IsRefused f
        → Survives (state S.Store store.old) (state S.Store store.new)
        (CommitsBy Migrates (state S.Store store.old))) }
    ensures given { HasCleanDisk (state S.Store store.new)
        → IfErr result (IsGivenFault (state S.Store store.old) (state S.Store store.new)) }
{
    migrate(alloc, store)?;
    let mut schedule = store.load(alloc, limits)?;
    match step(alloc, store, &mut schedule, &Event::Restart(lanes)) {
        Ok(answer) => Ok((schedule, answer)),
        Err(fault) => Err(fault),
    }
}

// Makes a record of version 1 one of version 2. Of a record that has the table of version 2 nothing is asked, and it stays as it is.
fn migrate<S: Alter>(alloc: Global, store: &mut Store<S>) -> Result<(), Fault>
    ensures done { HasCleanDisk (state S.Store store.new) → OnOk result
        (IsMigrated (state S.Store store.old).now (state S.Store store.new).now) }
    ensures transacts { MatchResult result
        (λ _. Undone IsKeptOrMigrated (CommitsBy Migrates (state S.Store store.old))
        (state S.Store store.old) (state S.Store store.new))
        (λ _. Undone IsAsBefore (CommitsBy Migrates (state S.Store store.old)) (state S.Store store.old)
        (state S.Store store.new)) }
    ensures missing { is_ours (state S.Store store.old).now.schema ≡ false → MatchResult result
        (λ _. is_ours (state S.Store store.new).now.schema ≡ false)
        (λ e. e ≡ fault.Store store_fault.NotOurs) }
    ensures fault { HasCleanDisk (state S.Store store.new)
        → IfErr result (λ e. (limits : Bounds) (lanes : ℕ)
        → IsOpenFault limits lanes (state S.Store store.old).now e) }
    ensures given { HasCleanDisk (state S.Store store.new)
        → IfErr result (IsGivenFault (state S.Store store.old) (state S.Store store.new)) }
{
    if store.has_limits() {
        return Ok(());
    }
    let _did = store.migrate(alloc)?;
    Ok(())
}
