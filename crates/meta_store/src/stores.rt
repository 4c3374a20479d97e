//! The record and its transactions.
ghost use Rattle.std.specs.Prelude.{◌≡◌, ◌⊎◌, pos, true, false, OnOk, IfOk, IfErr, IsErrAnd, MatchResult};
ghost use Rattle.sqlite.specs.Held.{state};
ghost use Rattle.sqlite.specs.State.{HasCleanDisk};
ghost use Rattle.record_tables.specs.Given.{IsGivenLoadFault};
ghost use Rattle.record_tables.specs.Holds.{Stores, StoresFirst};
ghost use Rattle.record_tables.specs.Schema.{first_schema};
ghost use Rattle.record_rules.specs.Cells.{AreTexts};
ghost use Rattle.record_tables.specs.Loads.{is_version};
ghost use Rattle.record_tables.specs.Ours.{has_limits, is_ours};
ghost use Rattle.record_tables.specs.declared.faults.LoadFault.TheVariants as unread;
ghost use Rattle.meta_store.specs.Stores.{Begins, CommitsBy, HasRows, IsAsBefore, IsNoRecord, IsOfVersion, has_record_table, Writes};
ghost use Rattle.meta_store.specs.Transactions.{Commits, Looks, Transacts, Undone};
ghost use Rattle.meta_store.specs.Upgraded.{upgraded};
ghost use Rattle.meta_store.specs.declared.faults.StoreFault.TheVariants as fault;
ghost use Rattle.meta_store.specs.Faults.{IsGivenStoreFault, IsOfSqlite};

use crate::faults::{StoreFault, fault_of, fault_of_load};
use crate::first_rows::first_rows;
use crate::names::has_record_table;
use crate::transactions::Work;
use crate::upgrading::{load_old_rows, upgrade_rows};
use record_rows::Rows;
use record_tables::{LoadFault, has_limits, is_ours, is_version, load_rows};
use sched_core::Change;
use sqlite::{Alter, Connection};
use std::alloc::Global;
use std::marker::Model;

/// The record of a schedule, over a connection on which no transaction is open. Contracts see it as the connection.
#[derive(Drop)]
pub struct Store<S: Alter> {
    pub(crate) conn: Connection<S>,
}

impl<S: Alter> Model for Store<S> {
    ghost use Rattle.std.specs.Prelude.{◌≡◌, false};
    ghost use Rattle.sqlite.specs.Held.{Held, held_code};

    ghost Value = { Held S };

    ghost coded = { held_code S.code };

    ghost view = { λ s. s.conn };

    ghost invariant = { λ s. s.conn.in_transaction ≡ false };
}

impl<S: Alter> Store<S> {
    /// Takes the record that a connection has.
    pub fn adopt(conn: Connection<S>) -> Store<S>
        requires { conn.in_transaction ≡ false }
        ensures { result ≡ conn }
    {
        Store { conn }
    }

    /// Makes the tables of a new record, with its first rows, in one transaction.
    pub fn create(
        alloc: Global,
        conn: Connection<S>,
    ) -> Result<Store<S>, (Connection<S>, StoreFault)>
        requires { conn.in_transaction ≡ false }
        ensures transacts { MatchResult result
            (λ s. Commits Begins (CommitsBy Begins (state S.Store conn)) (state S.Store conn)
            (state S.Store s))
            (λ e. Undone IsAsBefore (CommitsBy Begins (state S.Store conn)) (state S.Store conn)
            (state S.Store e.0)) }
        ensures settled { IfErr result (λ e. e.0.in_transaction ≡ false) }
        ensures names { has_record_table (state S.Store conn).now.schema ≡ true
            → IsErrAnd result (λ e. e.1 ≡ fault.NotOurs) }
        ensures fault { IfErr result (λ e. IsOfSqlite e.1
            ⊎ (has_record_table (state S.Store conn).now.schema ≡ true)) }
        ensures given { IfErr result (λ e. HasCleanDisk (state S.Store e.0)
            → IsGivenStoreFault (state S.Store conn) (state S.Store e.0) e.1) }
    {
        let _settled = conn.is_autocommit();
        if has_record_table(conn.schema()) {
            return Err((conn, StoreFault::NotOurs));
        }
        let Ok(rows) = first_rows(alloc) else {
            return Err((conn, StoreFault::Memory));
        };
        let mut store = Store { conn };
        match store.transact("SELECT 1", Work::Make, &rows) {
            Ok(()) => Ok(store),
            Err(error) => Err((store.release(), fault_of(error))),
        }
    }

    /// Gives the connection back.
    pub fn release(self) -> Connection<S>
        ensures same { result ≡ self }
        ensures settled { result.in_transaction ≡ false }
    {
        let Store { conn } = self;
        conn
    }

    /// Whether the database has a table of the name that a record of version 1 lacks, so that there is nothing to migrate.
    pub fn has_limits(&self) -> bool
        ensures { result ≡ has_limits (state S.Store self.now).now.schema }
    {
        has_limits(self.conn.schema())
    }

    /// Writes what a planned change makes differ, in one transaction, which is committed as a whole or not at all. Where the record
    /// holds the schedule before the change, it holds the one after it then (`a_planned_event_is_written`). A record of version 1 is refused.
    pub fn write(&mut self, change: &Change) -> Result<(), StoreFault>
        ensures transacts { Transacts (Writes change.now) (state S.Store self.old)
            (state S.Store self.new) result }
        ensures fault { IfErr result IsOfSqlite }
        ensures guarded { HasCleanDisk (state S.Store self.new)
            → (state S.Store self.old).now.schema ≡ first_schema → OnOk result ⊥ }
        ensures given { HasCleanDisk (state S.Store self.new)
            → IfErr result (IsGivenStoreFault (state S.Store self.old) (state S.Store self.new)) }
    {
        let asked = "SELECT max_active_tasks FROM dag_limit";
        match self.transact(asked, Work::Put, change.rows()) {
            Ok(()) => Ok(()),
            Err(error) => Err(fault_of(error)),
        }
    }

    /// The rows of all tables, each table by its key, of a record of version 2, or of version 1 as version 2 has them. They are read in a
    /// transaction that commits nothing.
    pub fn load_rows(&mut self, alloc: Global) -> Result<Rows, StoreFault>
        ensures list { HasCleanDisk (state S.Store self.new) → IfOk result (λ loaded. (rows : _)
            → HasRows (state S.Store self.old).now rows → loaded ≡ rows) }
        ensures version { IfOk result (λ loaded. is_version (pos 2) loaded.metas ≡ true) }
        ensures texts { IfOk result AreTexts }
        ensures found { HasCleanDisk (state S.Store self.new) → OnOk result
            (IsOfVersion (state S.Store self.old).now) }
        ensures looks { Looks (state S.Store self.old) (state S.Store self.new) }
        ensures missing { is_ours (state S.Store self.old).now.schema ≡ false
            → IsErrAnd result (λ e. e ≡ fault.NotOurs) }
        ensures fault { HasCleanDisk (state S.Store self.new) → IfErr result (λ e. IsOfSqlite e
            ⊎ ((e ≡ fault.NotOurs) × IsNoRecord (state S.Store self.old).now)) }
        ensures given { HasCleanDisk (state S.Store self.new)
            → IfErr result (IsGivenStoreFault (state S.Store self.old) (state S.Store self.new)) }
    {
        if !is_ours(self.conn.schema()) {
            return Err(StoreFault::NotOurs);
        }
        if has_limits(self.conn.schema()) {
            self.load_second(alloc)
        } else {
            self.load_first(alloc)
        }
    }

    // The rows of a record of version 2.
    fn load_second(&mut self, alloc: Global) -> Result<Rows, StoreFault>
        ensures list { HasCleanDisk (state S.Store self.new) → IfOk result (λ loaded. (rows : _)
            → Stores (state S.Store self.old).now rows → loaded ≡ rows) }
        ensures version { IfOk result (λ loaded. is_version (pos 2) loaded.metas ≡ true) }
        ensures texts { IfOk result AreTexts }
        ensures looks { Looks (state S.Store self.old) (state S.Store self.new) }
        ensures fault { HasCleanDisk (state S.Store self.new) → IfErr result (λ e. IsOfSqlite e
            ⊎ ((e ≡ fault.NotOurs) × ((rows : _) → Stores (state S.Store self.old).now rows
            → AreTexts rows → is_version (pos 2) rows.metas ≡ false))) }
        ensures given { HasCleanDisk (state S.Store self.new)
            → IfErr result (IsGivenStoreFault (state S.Store self.old) (state S.Store self.new)) }
    {
        let rows = match self.read_rows(alloc) {
            Ok(rows) => rows,
            Err(fault) => return Err(fault_of_load(fault)),
        };
        if !is_version(2, &rows.metas) {
            return Err(StoreFault::NotOurs);
        }
        Ok(rows)
    }

    // The rows of a record of version 1, as version 2 has them.
    fn load_first(&mut self, alloc: Global) -> Result<Rows, StoreFault>
        ensures list { HasCleanDisk (state S.Store self.new) → IfOk result (λ loaded. (rows : _)
            → StoresFirst (state S.Store self.old).now rows → loaded ≡ upgraded rows) }
        ensures version { IfOk result (λ loaded. is_version (pos 2) loaded.metas ≡ true) }
        ensures texts { IfOk result AreTexts }
        ensures found { HasCleanDisk (state S.Store self.new) → OnOk result ((rows : _)
            → StoresFirst (state S.Store self.old).now rows
            → is_version (pos 1) rows.metas ≡ true) }
        ensures looks { Looks (state S.Store self.old) (state S.Store self.new) }
        ensures fault { HasCleanDisk (state S.Store self.new) → IfErr result (λ e. IsOfSqlite e
            ⊎ ((e ≡ fault.NotOurs) × ((rows : _) → StoresFirst (state S.Store self.old).now rows
            → AreTexts rows → is_version (pos 1) rows.metas ≡ false))) }
        ensures given { HasCleanDisk (state S.Store self.new)
            → IfErr result (IsGivenStoreFault (state S.Store self.old) (state S.Store self.new)) }
    {
        let rows = match self.read_first(alloc) {
            Ok(rows) => rows,
            Err(fault) => return Err(fault_of_load(fault)),
        };
        if !is_version(1, &rows.metas) {
            return Err(StoreFault::NotOurs);
        }
        match upgrade_rows(alloc, rows) {
            Ok(rows) => Ok(rows),
            Err(_) => Err(StoreFault::Memory),
        }
    }

    // The rows of a record of version 1, whatever `meta` says. The table that it lacks is made in a transaction that is dropped.
    fn read_first(&mut self, alloc: Global) -> Result<Rows, LoadFault>
        ensures list { HasCleanDisk (state S.Store self.new) → IfOk result (λ loaded. (rows : _)
            → StoresFirst (state S.Store self.old).now rows → loaded ≡ rows) }
        ensures texts { IfOk result AreTexts }
        ensures fault { HasCleanDisk (state S.Store self.new) → IfErr result (λ e.
            e ≡ unread.NotOurs → (rows : _) → StoresFirst (state S.Store self.old).now rows
            → ¬ AreTexts rows) }
        ensures looks { Looks (state S.Store self.old) (state S.Store self.new) }
        ensures given { HasCleanDisk (state S.Store self.new)
            → IfErr result (IsGivenLoadFault (state S.Store self.old) (state S.Store self.new)) }
    {
        let _settled = self.conn.is_autocommit();
        let mut tx = self.conn.transaction();
        load_old_rows(alloc, &mut tx)
    }

    // The rows of a record of version 2, whatever `meta` says, in a transaction that is dropped.
    fn read_rows(&mut self, alloc: Global) -> Result<Rows, LoadFault>
        ensures list { HasCleanDisk (state S.Store self.new) → IfOk result (λ loaded. (rows : _)
            → Stores (state S.Store self.old).now rows → loaded ≡ rows) }
        ensures texts { IfOk result AreTexts }
        ensures fault { HasCleanDisk (state S.Store self.new) → IfErr result (λ e.
            e ≡ unread.NotOurs → (rows : _) → Stores (state S.Store self.old).now rows
            → ¬ AreTexts rows) }
        ensures looks { Looks (state S.Store self.old) (state S.Store self.new) }
        ensures given { HasCleanDisk (state S.Store self.new)
            → IfErr result (IsGivenLoadFault (state S.Store self.old) (state S.Store self.new)) }
    {
        let _settled = self.conn.is_autocommit();
        let mut tx = self.conn.transaction();
        load_rows(alloc, &mut tx)
    }
}
