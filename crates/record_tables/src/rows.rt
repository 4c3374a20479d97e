//! The rows of all tables.
ghost use Rattle.std.specs.Prelude.{◌≡◌, IsTrue, IfOk, IfErr, OnOk, OnErr};
ghost use Rattle.sqlite.specs.Held.{state};
ghost use Rattle.sqlite.specs.State.{HasCleanDisk};
ghost use Rattle.record_rows.specs.Rows.{Rows};
ghost use Rattle.record_rules.specs.Cells.{AreTexts};
ghost use Rattle.record_tables.specs.Given.{Tells, TellsLoad};
ghost use Rattle.record_tables.specs.Holds.{Stores};
ghost use Rattle.record_tables.specs.Loads.{Loads, Stays};
ghost use Rattle.record_rules.specs.Changes.{put_rows};
ghost use Rattle.record_tables.specs.Puts as spec;
ghost use Rattle.record_tables.specs.Puts.{GoesBy, PutsIn, Stops};
ghost use Rattle.record_tables.specs.declared.faults.LoadFault.TheVariants as fault;

use crate::loading::load_into;
use crate::{LoadFault, put_all};
use record_rows::{Rows, Table};
use sqlite::{Alter, Error, Transaction};
use std::alloc::Global;

// The tables, parents before children.
fn table_at(at: usize) -> Table
    ensures { result ≡ spec.table_at at }
{
    match at {
        0 => Table::Meta,
        1 => Table::Pool,
        2 => Table::Dag,
        3 => Table::DagLimit,
        4 => Table::Run,
        5 => Table::Instance,
        _ => Table::Attempt,
    }
}

// Puts the rows of one table by key inside a transaction.
fn put_table<S: Alter>(tx: &mut Transaction<'_, S>, table: Table, rows: &Rows) -> Result<(), Error>
    ensures same_reference { tx.new.conn.ghost_name ≡ tx.old.conn.ghost_name }
    ensures ok { OnOk result (GoesBy (PutsIn (spec.put_of table rows.now))
        (state S.Store tx.old.conn.now) (state S.Store tx.new.conn.now)) }
    ensures err { OnErr result (Stops (state S.Store tx.old.conn.now)
        (state S.Store tx.new.conn.now)) }
    ensures given { Tells (state S.Store tx.old.conn.now) (state S.Store tx.new.conn.now) result }
{
    match table {
        Table::Meta => put_all(tx, rows.metas.as_slice()),
        Table::Pool => put_all(tx, rows.pools.as_slice()),
        Table::Dag => put_all(tx, rows.dags.as_slice()),
        Table::DagLimit => put_all(tx, rows.dag_limits.as_slice()),
        Table::Run => put_all(tx, rows.runs.as_slice()),
        Table::Instance => put_all(tx, rows.instances.as_slice()),
        Table::Attempt => put_all(tx, rows.attempts.as_slice()),
    }
}

/// Puts the rows of all tables by key inside a transaction, parents before the rows that refer to them.
pub fn put_rows<S: Alter>(tx: &mut Transaction<'_, S>, rows: &Rows) -> Result<(), Error>
    ensures same_reference { tx.new.conn.ghost_name ≡ tx.old.conn.ghost_name }
    ensures ok { OnOk result (GoesBy (PutsIn (put_rows rows.now))
        (state S.Store tx.old.conn.now) (state S.Store tx.new.conn.now)) }
    ensures err { OnErr result (Stops (state S.Store tx.old.conn.now)
        (state S.Store tx.new.conn.now)) }
    ensures given { Tells (state S.Store tx.old.conn.now) (state S.Store tx.new.conn.now) result }
{
    for at in 0..7 {
        put_table(tx, table_at(at), rows)?;
    }
    Ok(())
}

// Reads one table inside a transaction: its rows by key, in place of those that stand there.
fn load_table<S: Alter>(
    alloc: Global,
    tx: &mut Transaction<'_, S>,
    table: Table,
    rows: &mut Rows,
) -> Result<(), LoadFault>
    ensures same_reference { tx.new.conn.ghost_name ≡ tx.old.conn.ghost_name }
    ensures loads { Loads table (state S.Store tx.old.conn.now) (state S.Store tx.new.conn.now)
        rows.old rows.new result }
    ensures ok { OnOk result (GoesBy Stays (state S.Store tx.old.conn.now)
        (state S.Store tx.new.conn.now)) }
    ensures err { OnErr result (Stops (state S.Store tx.old.conn.now)
        (state S.Store tx.new.conn.now)) }
    ensures given { TellsLoad (state S.Store tx.old.conn.now) (state S.Store tx.new.conn.now) result }
{
    match table {
        Table::Meta => load_into(alloc, tx, &mut rows.metas),
        Table::Pool => load_into(alloc, tx, &mut rows.pools),
        Table::Dag => load_into(alloc, tx, &mut rows.dags),
        Table::DagLimit => load_into(alloc, tx, &mut rows.dag_limits),
        Table::Run => load_into(alloc, tx, &mut rows.runs),
        Table::Instance => load_into(alloc, tx, &mut rows.instances),
        Table::Attempt => load_into(alloc, tx, &mut rows.attempts),
    }
}

/// Reads all tables inside a transaction: the rows of each by key.
pub fn load_rows<S: Alter>(alloc: Global, tx: &mut Transaction<'_, S>) -> Result<Rows, LoadFault>
    ensures same_reference { tx.new.conn.ghost_name ≡ tx.old.conn.ghost_name }
    ensures list { HasCleanDisk (state S.Store tx.new.conn.now)
        → IsTrue (state S.Store tx.old.conn.now).in_transaction → IfOk result (λ loaded.
        (rows : Rows) → Stores (state S.Store tx.old.conn.now).now rows → loaded ≡ rows) }
    ensures texts { IfOk result AreTexts }
    ensures fault { HasCleanDisk (state S.Store tx.new.conn.now)
        → IsTrue (state S.Store tx.old.conn.now).in_transaction → IfErr result (λ e.
        e ≡ fault.NotOurs → (rows : Rows) → Stores (state S.Store tx.old.conn.now).now rows
        → ¬ AreTexts rows) }
    ensures ok { OnOk result (GoesBy Stays (state S.Store tx.old.conn.now)
        (state S.Store tx.new.conn.now)) }
    ensures err { OnErr result (Stops (state S.Store tx.old.conn.now)
        (state S.Store tx.new.conn.now)) }
    ensures given { TellsLoad (state S.Store tx.old.conn.now) (state S.Store tx.new.conn.now) result }
{
    let mut rows = Rows {
        metas: Vec::new(alloc),
        pools: Vec::new(alloc),
        dags: Vec::new(alloc),
        dag_limits: Vec::new(alloc),
        runs: Vec::new(alloc),
        instances: Vec::new(alloc),
        attempts: Vec::new(alloc),
    };
    for at in 0..7 {
        load_table(alloc, tx, table_at(at), &mut rows)?;
    }
    Ok(rows)
}
