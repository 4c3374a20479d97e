//! The tables of a new record.
ghost use Rattle.std.specs.Prelude.{◌≡◌, ◌<◌, ◌+◌, OnOk, OnErr};
ghost use Rattle.sqlite.specs.Held.{state};
ghost use Rattle.record_tables.specs.Schema as schemas;
ghost use Rattle.record_tables.specs.Given.{Tells};
ghost use Rattle.record_tables.specs.Holds.{AddsLimits};
ghost use Rattle.record_tables.specs.Empties.{Extends};
ghost use Rattle.record_tables.specs.Puts.{GoesBy, Stops};

use crate::Stored;
use record_rows::{AttemptRow, DagLimitRow, DagRow, InstanceRow, MetaRow, PoolRow, RunRow};
use sqlite::{Alter, Error, Transaction};

const CREATE_INDEX: &str = "CREATE INDEX by_instance ON attempt (dag_id, logical, task_id)";

/// The statements that make the tables, in turn.
fn text_at(at: usize) -> &'static str
    ensures { result.now ≡ schemas.text_at at }
{
    match at {
        0 => MetaRow::create_text(),
        1 => PoolRow::create_text(),
        2 => DagRow::create_text(),
        3 => RunRow::create_text(),
        4 => InstanceRow::create_text(),
        5 => AttemptRow::create_text(),
        6 => CREATE_INDEX,
        _ => DagLimitRow::create_text(),
    }
}

fn define<S: Alter>(tx: &mut Transaction<'_, S>, at: usize) -> Result<usize, Error>
    requires { at < 8 }
    ensures same_reference { tx.new.conn.ghost_name ≡ tx.old.conn.ghost_name }
    ensures ok { OnOk result (GoesBy (Extends (schemas.schema_at at) (schemas.schema_at (at + 1)))
        (state S.Store tx.old.conn.now) (state S.Store tx.new.conn.now)) }
    ensures err { OnErr result (Stops (state S.Store tx.old.conn.now)
        (state S.Store tx.new.conn.now)) }
    ensures given { Tells (state S.Store tx.old.conn.now) (state S.Store tx.new.conn.now) result }
{
    tx.execute(text_at(at), &[])
}

/// Makes the tables of the record and their index, inside a transaction.
pub fn make_tables<S: Alter>(tx: &mut Transaction<'_, S>) -> Result<(), Error>
    ensures same_reference { tx.new.conn.ghost_name ≡ tx.old.conn.ghost_name }
    ensures ok { OnOk result (GoesBy (Extends schemas.no_schema schemas.record_schema)
        (state S.Store tx.old.conn.now) (state S.Store tx.new.conn.now)) }
    ensures err { OnErr result (Stops (state S.Store tx.old.conn.now)
        (state S.Store tx.new.conn.now)) }
    ensures given { Tells (state S.Store tx.old.conn.now) (state S.Store tx.new.conn.now) result }
{
    define(tx, 0)?;
    for at in 1..8 {
        define(tx, at)?;
    }
    Ok(())
}

/// Makes the table that a record of version 1 lacks, inside a transaction. It is empty.
pub fn add_limits<S: Alter>(tx: &mut Transaction<'_, S>) -> Result<usize, Error>
    ensures same_reference { tx.new.conn.ghost_name ≡ tx.old.conn.ghost_name }
    ensures ok { OnOk result (GoesBy AddsLimits (state S.Store tx.old.conn.now)
        (state S.Store tx.new.conn.now)) }
    ensures err { OnErr result (Stops (state S.Store tx.old.conn.now)
        (state S.Store tx.new.conn.now)) }
    ensures given { Tells (state S.Store tx.old.conn.now) (state S.Store tx.new.conn.now) result }
{
    tx.execute(DagLimitRow::create_text(), &[])
}
