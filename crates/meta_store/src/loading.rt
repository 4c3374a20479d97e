//! A record read back.
ghost use Rattle.std.specs.Prelude.{◌≡◌, false, None, IfOk, IfErr, IsErrAnd};
ghost use Rattle.sqlite.specs.Held.{state};
ghost use Rattle.sqlite.specs.State.{HasCleanDisk};
ghost use Rattle.record_tables.specs.Ours.{is_ours};
ghost use Rattle.record_rules.specs.Faults.{record_fault};
ghost use Rattle.record_rules.specs.Keys.{IsByKey};
ghost use Rattle.meta_store.specs.Faults.{IsGivenStoreFault};
ghost use Rattle.meta_store.specs.Loads.{ReadsAs, IsReadAs, IsLoadFault, IsRuleFault, fault_of_first};
ghost use Rattle.meta_store.specs.Loads as spec;
ghost use Rattle.meta_store.specs.Transactions.{Looks};
ghost use Rattle.meta_store.specs.declared.faults.StoreFault.TheVariants as fault;

use crate::faults::StoreFault;
use crate::stores::Store;
use record_rows::Table;
use record_tables::{has_limits, stored_rows_are_by_key};
use sched_core::{KeyedRows, Limits, LoadedGraph, RestoreFault, Schedule};
use sqlite::Alter;
use std::alloc::Global;

impl<S: Alter> Store<S> {
    /// The schedule that the record holds, or what is wrong with it: a database that is no record is `NotOurs`, and else the first rule of the
    /// record that fails is told by its table and the row's place by key, from 0. A record of version 1 is read as `migrate` would leave it,
    /// and may have no graph whose text says `max_active_tasks`. The record stays as it is.
    pub fn load(&mut self, alloc: Global, limits: Limits) -> Result<Schedule, StoreFault>
        ensures schedule { HasCleanDisk (state S.Store self.new) → IfOk result (λ loaded. ReadsAs
            limits (state S.Store self.old).now loaded.content) }
        ensures limits { IfOk result (λ loaded. loaded.content.limits ≡ limits) }
        ensures looks { Looks (state S.Store self.old) (state S.Store self.new) }
        ensures missing { is_ours (state S.Store self.old).now.schema ≡ false
            → IsErrAnd result (λ e. e ≡ fault.NotOurs) }
        ensures fault { HasCleanDisk (state S.Store self.new)
            → IfErr result (IsLoadFault limits (state S.Store self.old).now) }
        ensures given { HasCleanDisk (state S.Store self.new)
            → IfErr result (IsGivenStoreFault (state S.Store self.old) (state S.Store self.new)) }
    {
        let is_second = has_limits(self.conn.schema());
        let rows = self.load_rows(alloc)?;
        stored_rows_are_by_key();
        let rows = match KeyedRows::new(rows) {
            Ok(rows) => rows,
            Err(_) => return Err(StoreFault::NotOurs),
        };
        if is_second {
            restored(alloc, limits, &rows)
        } else {
            restored_first(alloc, limits, &rows)
        }
    }
}

// The schedule that rows of a record of version 2 are read as, or the first rule that fails.
fn restored(alloc: Global, limits: Limits, rows: &KeyedRows) -> Result<Schedule, StoreFault>
    requires { IsByKey rows.now }
    ensures read { IfOk result (λ schedule. IsReadAs limits rows.now schedule.content) }
    ensures limits { IfOk result (λ schedule. schedule.content.limits ≡ limits) }
    ensures fault { IfErr result (IsRuleFault (record_fault limits rows.now)) }
{
    match Schedule::restore(alloc, limits, rows) {
        Ok(schedule) => Ok(schedule),
        Err(RestoreFault::Inconsistent(table, row)) => Err(StoreFault::Inconsistent(table, row)),
        Err(RestoreFault::Memory) => Err(StoreFault::Memory),
    }
}

// The same of a record of version 1, by its rows as version 2 has them.
fn restored_first(alloc: Global, limits: Limits, rows: &KeyedRows) -> Result<Schedule, StoreFault>
    requires { IsByKey rows.now }
    ensures read { IfOk result (λ schedule. IsReadAs limits rows.now schedule.content) }
    ensures silent { IfOk result (λ schedule. spec.saying schedule.content.graphs ≡ None) }
    ensures limits { IfOk result (λ schedule. schedule.content.limits ≡ limits) }
    ensures fault { IfErr result (IsRuleFault (fault_of_first limits rows.now)) }
{
    match restored(alloc, limits, rows) {
        Ok(schedule) => match saying(schedule.graphs()) {
            None => Ok(schedule),
            Some(row) => Err(StoreFault::Inconsistent(Table::Dag, row)),
        },
        Err(StoreFault::Inconsistent(table, row)) => {
            Err(StoreFault::Inconsistent(first_table(table), row))
        }
        Err(fault) => Err(fault),
    }
}

// The place of the first graph whose text says a bound.
fn saying(graphs: &[LoadedGraph]) -> Option<usize>
    ensures { result ≡ spec.saying graphs.now }
{
    graphs
        .iter()
        .position(|graph| graph.dag.spec().max_active_tasks.is_some())
}

// Version 1 has no table of bounds: the row of the graph is told.
fn first_table(table: Table) -> Table
    ensures { result ≡ spec.first_table table }
{
    match table {
        Table::DagLimit => Table::Dag,
        other => other,
    }
}
