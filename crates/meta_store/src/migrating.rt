//! A record of version 1 made one of version 2.
ghost use Rattle.std.specs.Prelude.{◌≡◌, ◌⊎◌, pos, true, false, MatchBool, MatchResult, IfOk, IfErr, OnOk, IsErrAnd};
ghost use Rattle.sqlite.specs.Held.{state};
ghost use Rattle.sqlite.specs.State.{HasCleanDisk};
ghost use Rattle.record_tables.specs.Given.{IsGivenLoadFault};
ghost use Rattle.record_tables.specs.Holds.{Stores, StoresFirst};
ghost use Rattle.record_rules.specs.Cells.{AreTexts};
ghost use Rattle.record_tables.specs.Loads.{is_version};
ghost use Rattle.record_tables.specs.Ours.{has_limits, is_ours};
ghost use Rattle.record_tables.specs.declared.faults.LoadFault.TheVariants as unread;
ghost use Rattle.meta_store.specs.Stores.{CommitsBy, CommitsFrom, IsAsBefore, IsNoRecord, Migrates, Upgrades};
ghost use Rattle.meta_store.specs.Transactions.{Commits, Looks, Transacts, TransactsTo, Undone};
ghost use Rattle.meta_store.specs.declared.faults.StoreFault.TheVariants as fault;
ghost use Rattle.meta_store.specs.Faults.{IsGivenStoreFault, IsOfSqlite};

use crate::faults::{StoreFault, fault_of_load};
use crate::stores::Store;
use crate::upgrading::upgrade;
use record_rows::MetaRow;
use record_tables::{LoadFault, has_limits, is_ours, is_version, load_all, refused};
use sqlite::Alter;
use std::alloc::Global;

impl<S: Alter> Store<S> {
    /// Makes a record of version 1 one of version 2, in one transaction, and says whether it was one. A record of version 2 stays as it is.
    pub fn migrate(&mut self, alloc: Global) -> Result<bool, StoreFault>
        ensures transacts { MatchResult result
            (λ did. MatchBool did
            (Commits Migrates (CommitsBy Migrates (state S.Store self.old)) (state S.Store self.old)
            (state S.Store self.new))
            (Looks (state S.Store self.old) (state S.Store self.new)))
            (λ _. Undone IsAsBefore (CommitsBy Migrates (state S.Store self.old))
            (state S.Store self.old) (state S.Store self.new)) }
        ensures which { IfOk result (λ did. did ≡ false
            → has_limits (state S.Store self.old).now.schema ≡ true) }
        ensures second { HasCleanDisk (state S.Store self.new) → IfOk result (λ did. did ≡ false
            → (rows : _) → Stores (state S.Store self.old).now rows
            → is_version (pos 2) rows.metas ≡ true) }
        ensures missing { is_ours (state S.Store self.old).now.schema ≡ false
            → IsErrAnd result (λ e. e ≡ fault.NotOurs) }
        ensures fault { HasCleanDisk (state S.Store self.new) → IfErr result (λ e. IsOfSqlite e
            ⊎ ((e ≡ fault.NotOurs) × IsNoRecord (state S.Store self.old).now)) }
        ensures given { HasCleanDisk (state S.Store self.new)
            → IfErr result (IsGivenStoreFault (state S.Store self.old) (state S.Store self.new)) }
    {
        if !is_ours(self.conn.schema()) {
            return Err(StoreFault::NotOurs);
        }
        if has_limits(self.conn.schema()) {
            return match self.look_at_second(alloc) {
                Ok(()) => Ok(false),
                Err(fault) => Err(fault),
            };
        }
        match self.commit_upgrade(alloc) {
            Ok(()) => Ok(true),
            Err(fault) => Err(fault_of_load(fault)),
        }
    }

    // Whether `meta` is that of version 2.
    fn look_at_second(&mut self, alloc: Global) -> Result<(), StoreFault>
        ensures version { HasCleanDisk (state S.Store self.new) → OnOk result ((rows : _)
            → Stores (state S.Store self.old).now rows → is_version (pos 2) rows.metas ≡ true) }
        ensures looks { Looks (state S.Store self.old) (state S.Store self.new) }
        ensures fault { HasCleanDisk (state S.Store self.new) → IfErr result (λ e. IsOfSqlite e
            ⊎ ((e ≡ fault.NotOurs) × ((rows : _) → Stores (state S.Store self.old).now rows
            → AreTexts rows → is_version (pos 2) rows.metas ≡ false))) }
        ensures given { HasCleanDisk (state S.Store self.new)
            → IfErr result (IsGivenStoreFault (state S.Store self.old) (state S.Store self.new)) }
    {
        match self.read_metas(alloc) {
            Ok(metas) => {
                if is_version(2, &metas) {
                    Ok(())
                } else {
                    Err(StoreFault::NotOurs)
                }
            }
            Err(fault) => Err(fault_of_load(fault)),
        }
    }

    // The rows of `meta` of a record of version 2, in a transaction that is dropped.
    fn read_metas(&mut self, alloc: Global) -> Result<Vec<MetaRow>, LoadFault>
        ensures list { HasCleanDisk (state S.Store self.new) → IfOk result (λ v. (rows : _)
            → Stores (state S.Store self.old).now rows → v.items ≡ rows.metas) }
        ensures fault { HasCleanDisk (state S.Store self.new) → IfErr result (λ e.
            e ≡ unread.NotOurs → (rows : _) → ¬ Stores (state S.Store self.old).now rows) }
        ensures looks { Looks (state S.Store self.old) (state S.Store self.new) }
        ensures given { HasCleanDisk (state S.Store self.new)
            → IfErr result (IsGivenLoadFault (state S.Store self.old) (state S.Store self.new)) }
    {
        let _settled = self.conn.is_autocommit();
        let mut tx = self.conn.transaction();
        load_all(alloc, &mut tx)
    }

    // Upgrades a record of version 1. A connection that is shut is found to be so before anything is changed.
    fn commit_upgrade(&mut self, alloc: Global) -> Result<(), LoadFault>
        ensures transacts { Transacts Upgrades (state S.Store self.old) (state S.Store self.new)
            result }
        ensures fault { HasCleanDisk (state S.Store self.new) → IfErr result (λ e.
            e ≡ unread.NotOurs → (rows : _) → StoresFirst (state S.Store self.old).now rows
            → AreTexts rows → is_version (pos 1) rows.metas ≡ false) }
        ensures given { HasCleanDisk (state S.Store self.new)
            → IfErr result (IsGivenLoadFault (state S.Store self.old) (state S.Store self.new)) }
    {
        match self.ask("SELECT 1") {
            Ok(()) => self.begin_upgrade(alloc),
            Err(error) => Err(refused(error)),
        }
    }

    // The same, where it is not known whether the connection is open.
    fn begin_upgrade(&mut self, alloc: Global) -> Result<(), LoadFault>
        ensures transacts { TransactsTo Upgrades
            (CommitsFrom Upgrades (state S.Store self.old).now) (state S.Store self.old)
            (state S.Store self.new) result }
        ensures fault { HasCleanDisk (state S.Store self.new) → IfErr result (λ e.
            e ≡ unread.NotOurs → (rows : _) → StoresFirst (state S.Store self.old).now rows
            → AreTexts rows → is_version (pos 1) rows.metas ≡ false) }
        ensures given { HasCleanDisk (state S.Store self.new)
            → IfErr result (IsGivenLoadFault (state S.Store self.old) (state S.Store self.new)) }
    {
        let _settled = self.conn.is_autocommit();
        let mut tx = self.conn.transaction();
        upgrade(alloc, &mut tx)?;
        match tx.commit() {
            Ok(()) => Ok(()),
            Err(error) => Err(refused(error)),
        }
    }
}
