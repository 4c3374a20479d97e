//! A schedule, and the record that it stands in.
ghost use Rattle.std.specs.Prelude.{◌≡◌, false, IfOk, IfErr, OnOk, IsErrAnd, MatchResult};
ghost use Rattle.sqlite.specs.Held.{state};
ghost use Rattle.sqlite.specs.State.{HasCleanDisk, Survives};
ghost use Rattle.meta_store.specs.Schedules.{is_ours};
ghost use Rattle.meta_store.specs.Stores.{CommitsBy, IsKeptOrMigrated, Migrates, OpensBy};
ghost use Rattle.meta_store.specs.Transactions.{Commits, Transacts, Undone};
ghost use Rattle.meta_store.specs.declared.faults.StoreFault.TheVariants as store_fault;
ghost use Rattle.sched_events.specs.Promises.{KeepsPromises};
ghost use Rattle.director.specs.Directors.{Follows, Opens, RestartsIn, StepsIn};
ghost use Rattle.director.specs.Faults.{IsGivenFault, IsOpenFault, IsRefused};
ghost use Rattle.director.specs.Lists.{IsOutcome};
ghost use Rattle.director.specs.Written.{came_of};
ghost use Rattle.director.specs.declared.faults.Fault.TheVariants as fault;

use crate::faults::Fault;
use crate::opening::restart;
use crate::stepping::step;
use crate::written::Written;
use meta_store::{Limits, Schedule, Store};
use sched_events::{Answer, Event};
use sqlite::Alter;
use std::alloc::Global;
use std::marker::Model;
use std::snapshot::Snapshot;

/// A schedule, and the record that it stands in. Contracts see the record's connection and the schedule.
#[derive(Drop)]
pub struct Director<S: Alter> {
    store: Store<S>,
    schedule: Schedule,
    opened: Answer,
}

impl<S: Alter> Model for Director<S> {
    ghost use Rattle.director.specs.Directors.{DirectorValue, director_code};

    ghost Value = { DirectorValue S };

    ghost coded = { director_code S.code };

    ghost view = { λ d. record {
      store = d.store;
      schedule = d.schedule;
      opened = d.opened;
    } };
}

impl<S: Alter> Director<S> {
    /// Opens the record that a store has: one of version 1 is made one of version 2, the schedule that it holds is loaded, within limits, and then
    /// restarted with so many lanes, so that tries which had no end when the program was stopped are lost. Where it is not opened, the store comes
    /// back, and the record is as it was, or migrated.
    pub fn open(
        alloc: Global,
        store: Store<S>,
        lanes: u32,
        limits: Limits,
    ) -> Result<Director<S>, (Store<S>, Fault)>
        ensures opened { IfOk result (λ d. HasCleanDisk (state S.Store d.store) → Opens limits lanes
            (state S.Store store).now d.schedule.content d.opened) }
        ensures limits { IfOk result (λ d. d.schedule.content.limits ≡ limits) }
        ensures transacts { MatchResult result
            (λ d. Commits (RestartsIn limits lanes)
            (CommitsBy (OpensBy (RestartsIn limits lanes)) (state S.Store store))
            (state S.Store store) (state S.Store d.store))
            (λ e. Undone IsKeptOrMigrated
            (CommitsBy (OpensBy (RestartsIn limits lanes)) (state S.Store store))
            (state S.Store store) (state S.Store e.0)) }
        ensures fault { IfErr result (λ e. HasCleanDisk (state S.Store e.0)
            → IsOpenFault limits lanes (state S.Store store).now e.1) }
        ensures missing { is_ours (state S.Store store).now.schema ≡ false
            → IsErrAnd result (λ e. e.1 ≡ fault.Store store_fault.NotOurs) }
        ensures refused_crash { IfErr result (λ e. IsRefused e.1
            → Survives (state S.Store store) (state S.Store e.0)
            (CommitsBy Migrates (state S.Store store))) }
        ensures given { IfErr result (λ e. HasCleanDisk (state S.Store e.0)
            → IsGivenFault (state S.Store store) (state S.Store e.0) e.1) }
    {
        let mut store = store;
        match restart(alloc, &mut store, lanes, limits) {
            Ok((schedule, opened)) => Ok(Director {
                store,
                schedule,
                opened,
            }),
            Err(fault) => Err((store, fault)),
        }
    }

    /// Opens the record anew, within the same limits: what `open` does with it.
    pub fn reopen(self, alloc: Global, lanes: u32) -> Result<Director<S>, (Store<S>, Fault)>
        ensures opened { IfOk result (λ d. HasCleanDisk (state S.Store d.store) → Opens self.schedule.content.limits lanes
            (state S.Store self.store).now d.schedule.content d.opened) }
        ensures limits { IfOk result (λ d. d.schedule.content.limits ≡ self.schedule.content.limits) }
        ensures transacts { MatchResult result
            (λ d. Commits (RestartsIn self.schedule.content.limits lanes)
            (CommitsBy (OpensBy (RestartsIn self.schedule.content.limits lanes)) (state S.Store self.store))
            (state S.Store self.store) (state S.Store d.store))
            (λ e. Undone IsKeptOrMigrated
            (CommitsBy (OpensBy (RestartsIn self.schedule.content.limits lanes)) (state S.Store self.store))
            (state S.Store self.store) (state S.Store e.0)) }
        ensures fault { IfErr result (λ e. HasCleanDisk (state S.Store e.0)
            → IsOpenFault self.schedule.content.limits lanes (state S.Store self.store).now e.1) }
        ensures missing { is_ours (state S.Store self.store).now.schema ≡ false
            → IsErrAnd result (λ e. e.1 ≡ fault.Store store_fault.NotOurs) }
        ensures refused_crash { IfErr result (λ e. IsRefused e.1
            → Survives (state S.Store self.store) (state S.Store e.0)
            (CommitsBy Migrates (state S.Store self.store))) }
        ensures given { IfErr result (λ e. HasCleanDisk (state S.Store e.0)
            → IsGivenFault (state S.Store self.store) (state S.Store e.0) e.1) }
    {
        let limits = self.schedule().limits();
        Director::open(alloc, self.close(), lanes, limits)
    }

    /// The answer to the restart that opened the director.
    pub fn opened(&self) -> &Answer
        ensures { result.now ≡ self.now.opened }
    {
        &self.opened
    }

    /// The schedule.
    pub fn schedule(&self) -> &Schedule
        ensures { result.now ≡ self.now.schedule }
    {
        &self.schedule
    }

    /// Gives the record back.
    pub fn close(self) -> Store<S>
        ensures { result ≡ self.store }
    {
        let Director {
            store,
            schedule: _,
            opened: _,
        } = self;
        store
    }

    /// Steps an event: it is planned, written to the record in one transaction, and done in memory. What comes back is a token of that, with the answer. Where it
    /// is not done, schedule and record are as they were.
    pub fn write(&mut self, alloc: Global, event: &Event) -> Result<Written<S>, Fault>
        ensures opened { self.new.opened ≡ self.old.opened }
        ensures of { IfOk result (λ w. (w.event ≡ event.now)
            × (w.before ≡ self.old.schedule.content)) }
        ensures outcome { IsOutcome self.old.schedule.content event.now (came_of result)
            self.new.schedule.content }
        ensures promises { OnOk result (KeepsPromises event.now self.old.schedule.content
            self.new.schedule.content) }
        ensures untouched { IfErr result (λ f. IsRefused f → self.new.store ≡ self.old.store) }
        ensures followed { Follows self.old.schedule.content (state S.Store self.old.store)
            self.new.schedule.content (state S.Store self.new.store) }
        ensures transacts { Transacts (StepsIn event.now self.old.schedule.content)
            (state S.Store self.old.store) (state S.Store self.new.store) result }
        ensures given { HasCleanDisk (state S.Store self.new.store) → IfErr result
            (IsGivenFault (state S.Store self.old.store) (state S.Store self.new.store)) }
    {
        let old = Snapshot::of(&self.store);
        let before = Snapshot::of(&self.schedule);
        match step(alloc, &mut self.store, &mut self.schedule, event) {
            Ok(answer) => Ok(Written::of(old, &self.store, Snapshot::of(event), before, answer)),
            Err(fault) => Err(fault),
        }
    }

    /// Steps an event, and gives its answer alone: it is planned, written to the record in one transaction, and done in memory. Where it is not, schedule and
    /// record are as they were.
    pub fn step(&mut self, alloc: Global, event: &Event) -> Result<Answer, Fault>
        ensures opened { self.new.opened ≡ self.old.opened }
        ensures outcome { IsOutcome self.old.schedule.content event.now result
            self.new.schedule.content }
        ensures promises { OnOk result (KeepsPromises event.now self.old.schedule.content
            self.new.schedule.content) }
        ensures untouched { IfErr result (λ f. IsRefused f → self.new.store ≡ self.old.store) }
        ensures followed { Follows self.old.schedule.content (state S.Store self.old.store)
            self.new.schedule.content (state S.Store self.new.store) }
        ensures transacts { Transacts (StepsIn event.now self.old.schedule.content)
            (state S.Store self.old.store) (state S.Store self.new.store) result }
        ensures given { HasCleanDisk (state S.Store self.new.store) → IfErr result
            (IsGivenFault (state S.Store self.old.store) (state S.Store self.new.store)) }
    {
        match self.write(alloc, event) {
            Ok(written) => Ok(written.into_answer()),
            Err(fault) => Err(fault),
        }
    }
}
