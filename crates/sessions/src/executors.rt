//! The one that hands jobs to the workers and hears their reports.
ghost use Rattle.std.specs.Prelude.{◌≡◌, ◌++◌, ◌∷◌, [], IfNone, IfSome, map, replicate};
ghost use Rattle.ruled_dispatch.specs.Lanes.{IsDirectorOf};
ghost use Rattle.ruled_dispatch.specs.declared.items.JobOrStop.TheVariants as item;
ghost use Rattle.sessions.specs.Executors.{AsksNothing, has_heard, has_sent, IsSameExecutor, one_more};

use crate::sending::{send_jobs, send_stops};
use director::Written;
use ruled_dispatch::{DirectorPass, Lanes, WorkerReport};
use std::marker::{Model, PhantomData};
use std::sync::Wait;

/// What sends jobs to the workers and hears their reports: it alone has the pass. It sends the jobs of an event only for the token that the event stands in the
/// record of a `Director<S>`, and uses that up.
///
/// It counts how often no report was there and how often it waited for one, since the pass does not say that.
#[derive(Drop)]
pub struct Executor<'l, S> {
    lanes: &'l Lanes,
    pass: DirectorPass,
    nones: u64,
    waits: u64,
    store: PhantomData<S>,
}

impl<'l, S> Model for Executor<'l, S> {
    ghost use Rattle.sessions.specs.Executors.{ExecutorValue};
    ghost use Rattle.ruled_dispatch.specs.Lanes.{IsDirectorOf};

    ghost Value = { ExecutorValue };

    ghost view = { λ x. record {
      lanes = x.lanes.now;
      pass = x.pass;
      nones = x.nones;
      waits = x.waits;
    } };

    ghost invariant = { λ x. IsDirectorOf x.lanes.now x.pass };
}

impl<'l, S> Executor<'l, S> {
    /// One that has asked for no report yet.
    pub(crate) fn new(lanes: &'l Lanes, pass: DirectorPass) -> Executor<'l, S>
        requires { IsDirectorOf lanes.now pass }
        ensures { result ≡ record { lanes = lanes.now; pass = pass; nones = 0; waits = 0 } }
    {
        Executor {
            lanes,
            pass,
            nones: 0,
            waits: 0,
            store: PhantomData,
        }
    }

    /// Sends the jobs of an event that stands in the record, in their order.
    pub(crate) fn post<R: Wait>(&mut self, rt: &R, written: Written<S>)
        ensures sent { has_sent self.new ≡ has_sent self.old
            ++ map (λ j. item.Job j) written.answer.jobs }
        ensures asks { AsksNothing self.old self.new }
        ensures same { IsSameExecutor self.old self.new }
    {
        send_jobs(rt, self.lanes, &mut self.pass, written.into_answer());
    }

    /// The report that was told first, or none where none was there at one moment of the call.
    pub(crate) fn poll<R: Wait>(&mut self, rt: &R) -> Option<WorkerReport>
        ensures some { IfSome result (λ told. (has_heard self.new ≡ has_heard self.old ++ told ∷ [])
            × (self.new.nones ≡ self.old.nones)) }
        ensures none { IfNone result ((has_heard self.new ≡ has_heard self.old)
            × (self.new.nones ≡ one_more self.old.nones)) }
        ensures waits { self.new.waits ≡ self.old.waits }
        ensures sent { has_sent self.new ≡ has_sent self.old }
        ensures same { IsSameExecutor self.old self.new }
    {
        let told = self.lanes.hear(rt, &mut self.pass);
        if told.is_none() {
            self.nones = self.nones.saturating_add(1);
        }
        told
    }

    /// The report that was told first; where none is there, it sleeps until one is told.
    pub(crate) fn wait<R: Wait>(&mut self, rt: &R) -> WorkerReport
        ensures heard { has_heard self.new ≡ has_heard self.old ++ result ∷ [] }
        ensures waits { self.new.waits ≡ one_more self.old.waits }
        ensures nones { self.new.nones ≡ self.old.nones }
        ensures sent { has_sent self.new ≡ has_sent self.old }
        ensures same { IsSameExecutor self.old self.new }
    {
        self.waits = self.waits.saturating_add(1);
        self.lanes.wait_to_hear(rt, &mut self.pass)
    }

    /// Sends so many stops: one for each worker that was started.
    pub(crate) fn stop<R: Wait>(&mut self, rt: &R, workers: usize)
        ensures sent { has_sent self.new ≡ has_sent self.old ++ replicate workers item.Stop }
        ensures asks { AsksNothing self.old self.new }
        ensures same { IsSameExecutor self.old self.new }
    {
        send_stops(rt, self.lanes, &mut self.pass, workers);
    }

    /// Gives the pass back.
    pub(crate) fn into_pass(self) -> DirectorPass
        ensures pass { result ≡ self.entry.pass }
        ensures lanes { IsDirectorOf self.entry.lanes result }
    {
        let Executor {
            lanes: _,
            pass,
            nones: _,
            waits: _,
            store: _,
        } = self;
        pass
    }
}
