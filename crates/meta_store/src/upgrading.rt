//! Records of version 1, read and brought to version 2.
ghost use Rattle.std.specs.Prelude.{◌≡◌, ◌≢◌, map, pos, true, false, IsTrue, IfOk, IfErr, OnOk, OnErr};
ghost use Rattle.sqlite.specs.Held.{state};
ghost use Rattle.sqlite.specs.State.{HasCleanDisk};
ghost use Rattle.record_rows.specs.Rows.{Rows};
ghost use Rattle.record_tables.specs.Given.{TellsLoad};
ghost use Rattle.record_tables.specs.Holds.{AddsLimits, StoresFirst};
ghost use Rattle.record_tables.specs.Puts.{GoesBy, Stops};
ghost use Rattle.record_rules.specs.Cells.{AreTexts};
ghost use Rattle.record_tables.specs.Loads.{Anyhow, is_version};
ghost use Rattle.record_tables.specs.declared.faults.LoadFault.TheVariants as fault;
ghost use Rattle.meta_store.specs.Stores.{Upgrades};
ghost use Rattle.meta_store.specs.Upgraded as spec;

use record_rows::{DagLimitRow, DagRow, MetaRow, Rows};
use record_tables::{LoadFault, add_limits, is_version, load_all, load_rows, put_rows, refused};
use sqlite::{Alter, Transaction};
use std::alloc::{AllocError, Global};

// The rows of `meta`, of version 2.
fn second_metas(alloc: Global, metas: &[MetaRow]) -> Result<Vec<MetaRow>, AllocError>
    ensures { IfOk result (λ v. v.items ≡ map spec.second metas.now) }
{
    let mut made = Vec::new(alloc);
    for meta in metas {
        made.push(MetaRow {
            one: meta.one,
            version: 2,
            now: meta.now,
            next_serial: meta.next_serial,
            lanes: meta.lanes,
        })?;
    }
    Ok(made)
}

// The bounds of graphs from before there were bounds.
fn old_limits(alloc: Global, dags: &[DagRow]) -> Result<Vec<DagLimitRow>, AllocError>
    ensures { IfOk result (λ v. v.items ≡ map spec.old_limit dags.now) }
{
    let mut made = Vec::new(alloc);
    for dag in dags {
        let dag_id = String::from_str(alloc, dag.dag_id.as_str())?;
        made.push(DagLimitRow {
            dag_id,
            max_active_tasks: 1_000_000,
        })?;
    }
    Ok(made)
}

// The rows in which version 2 differs.
fn second_rows(alloc: Global, metas: &[MetaRow], dags: &[DagRow]) -> Result<Rows, AllocError>
    ensures { IfOk result (λ made. made ≡ spec.second_rows metas.now dags.now) }
{
    Ok(Rows {
        metas: second_metas(alloc, metas)?,
        dag_limits: old_limits(alloc, dags)?,
        pools: Vec::new(alloc),
        dags: Vec::new(alloc),
        runs: Vec::new(alloc),
        instances: Vec::new(alloc),
        attempts: Vec::new(alloc),
    })
}

/// The rows of a record of version 1, as version 2 has them.
pub(crate) fn upgrade_rows(alloc: Global, rows: Rows) -> Result<Rows, AllocError>
    ensures { IfOk result (λ made. made ≡ spec.upgraded rows) }
{
    Ok(Rows {
        metas: second_metas(alloc, &rows.metas)?,
        dag_limits: old_limits(alloc, &rows.dags)?,
        pools: rows.pools,
        dags: rows.dags,
        runs: rows.runs,
        instances: rows.instances,
        attempts: rows.attempts,
    })
}

// Makes the table that a record of version 1 lacks.
fn add_table<S: Alter>(tx: &mut Transaction<'_, S>) -> Result<(), LoadFault>
    ensures same_reference { tx.new.conn.ghost_name ≡ tx.old.conn.ghost_name }
    ensures ok { OnOk result (GoesBy AddsLimits (state S.Store tx.old.conn.now)
        (state S.Store tx.new.conn.now)) }
    ensures err { OnErr result (Stops (state S.Store tx.old.conn.now)
        (state S.Store tx.new.conn.now)) }
    ensures given { TellsLoad (state S.Store tx.old.conn.now) (state S.Store tx.new.conn.now)
        result }
    ensures fault { IfErr result (λ e. e ≢ fault.NotOurs) }
{
    match add_limits(tx) {
        Ok(_) => Ok(()),
        Err(error) => Err(refused(error)),
    }
}

/// Reads all tables of a record of version 1, inside a transaction that is then dropped: the one that it lacks is made first.
pub(crate) fn load_old_rows<S: Alter>(
    alloc: Global,
    tx: &mut Transaction<'_, S>,
) -> Result<Rows, LoadFault>
    ensures same_reference { tx.new.conn.ghost_name ≡ tx.old.conn.ghost_name }
    ensures list { HasCleanDisk (state S.Store tx.new.conn.now)
        → IsTrue (state S.Store tx.old.conn.now).in_transaction → IfOk result (λ loaded.
        (rows : Rows) → StoresFirst (state S.Store tx.old.conn.now).now rows → loaded ≡ rows) }
    ensures texts { IfOk result AreTexts }
    ensures fault { HasCleanDisk (state S.Store tx.new.conn.now)
        → IsTrue (state S.Store tx.old.conn.now).in_transaction → IfErr result (λ e.
        e ≡ fault.NotOurs → (rows : Rows) → StoresFirst (state S.Store tx.old.conn.now).now rows
        → ¬ AreTexts rows) }
    ensures ok { OnOk result (GoesBy Anyhow (state S.Store tx.old.conn.now)
        (state S.Store tx.new.conn.now)) }
    ensures err { OnErr result (Stops (state S.Store tx.old.conn.now)
        (state S.Store tx.new.conn.now)) }
    ensures given { TellsLoad (state S.Store tx.old.conn.now) (state S.Store tx.new.conn.now)
        result }
{
    add_table(tx)?;
    load_rows(alloc, tx)
}

// Makes the table that a record of version 1 lacks, and gives the rows that are then to be put.
fn prepare<S: Alter>(alloc: Global, tx: &mut Transaction<'_, S>) -> Result<Rows, LoadFault>
    ensures same_reference { tx.new.conn.ghost_name ≡ tx.old.conn.ghost_name }
    ensures rows { HasCleanDisk (state S.Store tx.new.conn.now)
        → IsTrue (state S.Store tx.old.conn.now).in_transaction → IfOk result (λ made.
        (rows : Rows) → StoresFirst (state S.Store tx.old.conn.now).now rows
        → (is_version (pos 1) rows.metas ≡ true)
        × (made ≡ spec.second_rows rows.metas rows.dags)) }
    ensures fault { HasCleanDisk (state S.Store tx.new.conn.now)
        → IsTrue (state S.Store tx.old.conn.now).in_transaction → IfErr result (λ e.
        e ≡ fault.NotOurs → (rows : Rows) → StoresFirst (state S.Store tx.old.conn.now).now rows
        → AreTexts rows → is_version (pos 1) rows.metas ≡ false) }
    ensures ok { OnOk result (GoesBy AddsLimits (state S.Store tx.old.conn.now)
        (state S.Store tx.new.conn.now)) }
    ensures err { OnErr result (Stops (state S.Store tx.old.conn.now)
        (state S.Store tx.new.conn.now)) }
    ensures given { TellsLoad (state S.Store tx.old.conn.now) (state S.Store tx.new.conn.now)
        result }
{
    add_table(tx)?;
    let metas: Vec<MetaRow> = load_all(alloc, tx)?;
    if !is_version(1, &metas) {
        return Err(LoadFault::NotOurs);
    }
    let dags: Vec<DagRow> = load_all(alloc, tx)?;
    match second_rows(alloc, &metas, &dags) {
        Ok(made) => Ok(made),
        Err(_) => Err(LoadFault::Memory),
    }
}

/// Makes a record of version 1 one of version 2, inside a transaction that is then committed.
pub(crate) fn upgrade<S: Alter>(alloc: Global, tx: &mut Transaction<'_, S>) -> Result<(), LoadFault>
    ensures same_reference { tx.new.conn.ghost_name ≡ tx.old.conn.ghost_name }
    ensures fault { HasCleanDisk (state S.Store tx.new.conn.now)
        → IsTrue (state S.Store tx.old.conn.now).in_transaction → IfErr result (λ e.
        e ≡ fault.NotOurs → (rows : Rows) → StoresFirst (state S.Store tx.old.conn.now).now rows
        → AreTexts rows → is_version (pos 1) rows.metas ≡ false) }
    ensures ok { OnOk result (GoesBy Upgrades (state S.Store tx.old.conn.now)
        (state S.Store tx.new.conn.now)) }
    ensures err { OnErr result (Stops (state S.Store tx.old.conn.now)
        (state S.Store tx.new.conn.now)) }
    ensures given { TellsLoad (state S.Store tx.old.conn.now) (state S.Store tx.new.conn.now)
        result }
{
    let made = prepare(alloc, tx)?;
    match put_rows(tx, &made) {
        Ok(()) => Ok(()),
        Err(error) => Err(refused(error)),
    }
}
