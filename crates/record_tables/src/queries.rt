//! Queries inside a transaction.
ghost use Rattle.std.specs.Prelude.{[], ◌≡◌, ◌≢◌, IfOk, IfErr, OnOk, OnErr};
ghost use Rattle.sqlite.specs.Held.{state};
ghost use Rattle.sqlite.specs.State.{HasCleanDisk, Shown};
ghost use Rattle.record_tables.specs.Given.{IsRecordText, TellsLoad};
ghost use Rattle.record_tables.specs.Puts.{GoesBy, Stops};
ghost use Rattle.record_tables.specs.Loads.{Anyhow};
ghost use Rattle.record_tables.specs.declared.faults.LoadFault.TheVariants as fault;

use crate::faults::{LoadFault, refused};
use sqlite::{Alter, Row, Transaction};

/// All rows that a query shows.
pub(crate) fn query_all<S: Alter>(
    tx: &mut Transaction<'_, S>,
    text: &str,
) -> Result<Vec<Row>, LoadFault>
    ensures same_reference { tx.new.conn.ghost_name ≡ tx.old.conn.ghost_name }
    ensures ok { OnOk result (GoesBy Anyhow (state S.Store tx.old.conn.now)
        (state S.Store tx.new.conn.now)) }
    ensures shown { HasCleanDisk (state S.Store tx.new.conn.now) → IfOk result (λ rows. Shown
        text.now [] (state S.Store tx.old.conn.now) (state S.Store tx.new.conn.now) rows.items) }
    ensures err { OnErr result (Stops (state S.Store tx.old.conn.now)
        (state S.Store tx.new.conn.now)) }
    ensures given { IsRecordText text.now → TellsLoad (state S.Store tx.old.conn.now)
        (state S.Store tx.new.conn.now) result }
    ensures fault { IfErr result (λ e. e ≢ fault.NotOurs) }
{
    match tx.query_all(text, &[]) {
        Ok(rows) => Ok(rows),
        Err(error) => Err(refused(error)),
    }
}
