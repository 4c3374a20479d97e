//! The transactions of a record.
ghost use Rattle.std.specs.Prelude.{◌≡◌, false, IsOk, OnOk, OnErr, IfErr};
ghost use Rattle.sqlite.specs.Held.{state};
ghost use Rattle.sqlite.specs.Listing.{understood};
ghost use Rattle.sqlite.specs.State.{HasCleanDisk, Shows};
ghost use Rattle.record_tables.specs.Given.{IsGiven, IsRecordText, Tells};
ghost use Rattle.record_tables.specs.Puts.{GoesBy, Stops};
ghost use Rattle.meta_store.specs.Stores.{CommitsFrom};
ghost use Rattle.meta_store.specs.Transactions.{Looks, Transacts, TransactsTo, does};

use crate::stores::Store;
use record_rows::Rows;
use record_tables::{make_tables, put_rows};
use sqlite::{Alter, Error, Transaction};

/// What a transaction does with rows.
#[derive(Clone, Copy, Debug)]
pub(crate) enum Work {
    /// Makes the tables and puts the rows.
    Make,
    /// Puts the rows by key.
    Put,
}

// Does a work with rows, inside a transaction.
fn do_work<S: Alter>(tx: &mut Transaction<'_, S>, work: Work, rows: &Rows) -> Result<(), Error>
    ensures same_reference { tx.new.conn.ghost_name ≡ tx.old.conn.ghost_name }
    ensures ok { OnOk result (GoesBy (does work rows.now) (state S.Store tx.old.conn.now)
        (state S.Store tx.new.conn.now)) }
    ensures err { OnErr result (Stops (state S.Store tx.old.conn.now)
        (state S.Store tx.new.conn.now)) }
    ensures given { Tells (state S.Store tx.old.conn.now) (state S.Store tx.new.conn.now) result }
{
    match work {
        Work::Make => {
            make_tables(tx)?;
            put_rows(tx, rows)
        }
        Work::Put => put_rows(tx, rows),
    }
}

impl<S: Alter> Store<S> {
    /// Does a work with rows, in one transaction. Before it begins, SQLite is asked for a statement, which is not run: it gives none once the connection is
    /// shut, nor of a table that is not there, and then nothing is done.
    pub(crate) fn transact(&mut self, asked: &str, work: Work, rows: &Rows) -> Result<(), Error>
        ensures transacts { Transacts (does work rows.now) (state S.Store self.old)
            (state S.Store self.new) result }
        ensures known { HasCleanDisk (state S.Store self.new) → OnOk result
            (IsOk (understood (state S.Store self.old).now.schema asked.now)) }
        ensures given { HasCleanDisk (state S.Store self.new) → IsRecordText asked.now
            → IfErr result (IsGiven (state S.Store self.old) (state S.Store self.new)) }
    {
        self.ask(asked)?;
        self.begin(work, rows)
    }

    // The same, where it is not known whether the connection is open.
    fn begin(&mut self, work: Work, rows: &Rows) -> Result<(), Error>
        ensures transacts { TransactsTo (does work rows.now)
            (CommitsFrom (does work rows.now) (state S.Store self.old).now)
            (state S.Store self.old) (state S.Store self.new) result }
        ensures given { HasCleanDisk (state S.Store self.new)
            → IfErr result (IsGiven (state S.Store self.old) (state S.Store self.new)) }
    {
        let _settled = self.conn.is_autocommit();
        let mut tx = self.conn.transaction();
        do_work(&mut tx, work, rows)?;
        tx.commit()
    }

    /// Asks SQLite for a statement, which is not run. It gives none once the connection is shut, nor of a table that is not there.
    pub(crate) fn ask(&mut self, text: &str) -> Result<(), Error>
        ensures shows { HasCleanDisk (state S.Store self.new) → OnOk result (Shows
            (state S.Store self.old) (state S.Store self.new) (state S.Store self.old).now
            (state S.Store self.old).committed false) }
        ensures known { HasCleanDisk (state S.Store self.new) → OnOk result
            (IsOk (understood (state S.Store self.old).now.schema text.now)) }
        ensures looks { Looks (state S.Store self.old) (state S.Store self.new) }
        ensures given { HasCleanDisk (state S.Store self.new) → IsRecordText text.now
            → IfErr result (IsGiven (state S.Store self.old) (state S.Store self.new)) }
    {
        let _settled = self.conn.is_autocommit();
        let _statement = self.conn.prepare(text)?;
        Ok(())
    }
}
