//! The steps of a job: each takes what the step before it gave.
//!
//! A job goes through the types `Started`, `Entered`, `Performed`, `Departed` and `LoggedAt`. Each is made by one step alone and used up by the
//! next one, and what the steps act on, the pass, the share and the kit of a worker, is `Worker`'s own. So an entry of a log stands for a job whose
//! start was told before its slots were entered, which was performed while they were, and whose end was told after they were left.
ghost use Rattle.std.specs.Prelude.{◌≡◌, ◌++◌, ◌∷◌, [], None, true, false};
ghost use Rattle.std.specs.List.{Contains};
ghost use Rattle.graph_file.specs.declared.operators.Operator.{Operator as Kind};
ghost use Rattle.ruled_dispatch.specs.Lanes.{taken_of, told_of, IsWorkerOf};
ghost use Rattle.slot_desk.specs.Holds.{has_serial, without};
ghost use Rattle.operators.specs.Kits.{of_kind, IsKit};
ghost use Rattle.workers.specs.Accounts.{MayEnd};
ghost use Rattle.workers.specs.Logs.{ended, hold_of, refused_part, run_of, started};

use crate::asking::{enter, leave, tell};
use crate::logs::Logged;
use crate::pauses::Pause;
use instance_machine::{Outcome, Stage};
use operators::{BeginFault, Kit, Operator};
use ruled_dispatch::{JobOrStop, Lanes, Report, WorkerPass};
use sched_state::Job;
use slot_desk::{LeftAt, Share, SlotDesk};
use std::alloc::Global;
use std::marker::{Model, PhantomData};
use std::sync::Wait;
use std::sync::ledger::Ledger;

/// A worker: its pass of the lanes, its share of the desk, and its kit. Only the steps below act on these.
#[derive(Drop)]
pub(crate) struct Worker<L: Ledger, O: Operator> {
    alloc: Global,
    pass: WorkerPass,
    share: Share<L>,
    kit: Kit<O>,
}

/// A job whose start was told.
#[derive(Drop)]
pub(crate) struct Started {
    job: Job,
}

/// A job whose slots were then entered at the desk that `L` names.
#[derive(Drop)]
pub(crate) struct Entered<L: Ledger> {
    job: Job,
    desk: PhantomData<L>,
}

/// A job that was then performed, or could not be begun.
#[derive(Drop)]
pub(crate) struct Performed<L: Ledger> {
    job: Job,
    begun: bool,
    outcome: Outcome,
    desk: PhantomData<L>,
}

/// A job whose slots were then left.
#[derive(Drop)]
pub(crate) struct Departed<L: Ledger> {
    job: Job,
    begun: bool,
    outcome: Outcome,
    left: LeftAt<L>,
}

/// A job whose end was then told: what a log writes down of it. Contracts see it as the entry.
#[derive(Drop)]
pub(crate) struct LoggedAt<L: Ledger> {
    job: Job,
    begun: bool,
    outcome: Outcome,
    left: LeftAt<L>,
}

impl<L: Ledger> Model for LoggedAt<L> {
    ghost use Rattle.workers.specs.declared.logs.Logged.{Logged};

    ghost Value = { Logged };

    ghost view = { λ e. record { job = e.job; begun = e.begun; outcome = e.outcome; left = e.left } };
}

impl<L: Ledger> LoggedAt<L> {
    /// The entry, without the name of the desk.
    pub fn logged(self) -> Logged
        ensures { result ≡ self }
    {
        let LoggedAt {
            job,
            begun,
            outcome,
            left,
        } = self;
        Logged {
            job,
            begun,
            outcome,
            left: left.left(),
        }
    }
}

impl<L: Ledger> Entered<L> {
    /// The job.
    pub fn job(&self) -> &Job
        ensures { result.now ≡ self.now.job }
    {
        &self.job
    }
}

impl<L: Ledger> Performed<L> {
    /// The job.
    pub fn job(&self) -> &Job
        ensures { result.now ≡ self.now.job }
    {
        &self.job
    }

    /// How it ended.
    pub fn outcome(&self) -> Outcome
        ensures { result ≡ self.now.outcome }
    {
        self.outcome
    }
}

impl<L: Ledger, O: Operator> Worker<L, O> {
    /// A worker with this pass, this share and this kit.
    pub fn new(alloc: Global, pass: WorkerPass, share: Share<L>, kit: Kit<O>) -> Worker<L, O>
        ensures { (result.pass ≡ pass) × (result.share ≡ share) × (result.kit ≡ kit) }
    {
        Worker {
            alloc,
            pass,
            share,
            kit,
        }
    }

    /// The pass, the share and the kit.
    pub fn into_parts(self) -> (WorkerPass, Share<L>, Kit<O>)
        ensures { (result.0 ≡ self.pass) × (result.1 ≡ self.share) × (result.2 ≡ self.kit) }
    {
        let Worker {
            pass,
            share,
            kit,
            ..
        } = self;
        (pass, share, kit)
    }

    /// Takes an item from the queue. While there is none it sleeps.
    pub fn take<R: Wait>(&mut self, rt: &R, lanes: &Lanes) -> JobOrStop
        requires { IsWorkerOf lanes.now self.old.pass }
        ensures pass { IsWorkerOf lanes.now self.new.pass }
        ensures number { self.new.pass.number ≡ self.old.pass.number }
        ensures taken { taken_of self.new.pass ≡ taken_of self.old.pass ++ result ∷ [] }
        ensures told { told_of self.new.pass ≡ told_of self.old.pass }
        ensures others { (self.new.share ≡ self.old.share) × (self.new.kit ≡ self.old.kit) }
    {
        lanes.wait_to_take(rt, &mut self.pass)
    }

    /// First step: tells that the job has started.
    pub fn tell_start<R: Wait>(&mut self, rt: &R, lanes: &Lanes, job: Job) -> Started
        requires { IsWorkerOf lanes.now self.old.pass }
        ensures job { result.job ≡ job }
        ensures pass { IsWorkerOf lanes.now self.new.pass }
        ensures number { self.new.pass.number ≡ self.old.pass.number }
        ensures taken { taken_of self.new.pass ≡ taken_of self.old.pass }
        ensures told { told_of self.new.pass ≡ told_of self.old.pass ++ started job ∷ [] }
        ensures others { (self.new.share ≡ self.old.share) × (self.new.kit ≡ self.old.kit) }
    {
        let started = Report {
            serial: job.serial,
            stage: Stage::Started,
        };
        tell(rt, lanes, &mut self.pass, started);
        Started { job }
    }

    /// Second step: enters the slots that the job takes.
    pub fn enter<R: Wait>(&mut self, rt: &R, desk: &SlotDesk<L>, started: Started) -> Entered<L>
        ensures job { result.job ≡ started.job }
        ensures entered { self.new.share ≡ self.old.share ++ hold_of started.job ∷ [] }
        ensures new { has_serial started.job.serial self.old.share ≡ false }
        ensures others { (self.new.pass ≡ self.old.pass) × (self.new.kit ≡ self.old.kit) }
    {
        let Started { job } = started;
        enter(rt, self.alloc, desk, &mut self.share, &job);
        Entered {
            job,
            desk: PhantomData,
        }
    }

    /// Third step: the operator of its kind performs the job. One that cannot be begun failed.
    pub fn perform<R: Wait>(&mut self, rt: &R, entered: Entered<L>) -> Performed<L>
        requires { IsKit O.kind_of self.old.kit }
        ensures job { result.job ≡ entered.job }
        ensures kit { IsKit O.kind_of self.new.kit }
        ensures runs { (kind : Kind) → O.runs_of (of_kind self.new.kit kind)
            ≡ O.runs_of (of_kind self.old.kit kind) ++ run_of kind entered.job result.begun result.outcome }
        ensures refused { (kind : Kind) → O.taken (of_kind self.old.kit kind) ≡ None
            → O.refused_of (of_kind self.new.kit kind)
            ≡ O.refused_of (of_kind self.old.kit kind) ++ refused_part kind entered.job result.begun }
        ensures taken { (kind : Kind) → O.taken (of_kind self.new.kit kind)
            ≡ O.taken (of_kind self.old.kit kind) }
        ensures ended { MayEnd O.taken self.old.kit entered.job result.begun result.outcome }
        ensures others { (self.new.pass ≡ self.old.pass) × (self.new.share ≡ self.old.share) }
    {
        let Entered { job, desk } = entered;
        let (begun, outcome) = attempt(rt, &mut self.kit, &job);
        Performed {
            job,
            begun,
            outcome,
            desk,
        }
    }

    /// Fourth step: leaves the slots.
    pub fn leave<R: Wait>(
        &mut self,
        rt: &R,
        desk: &SlotDesk<L>,
        performed: Performed<L>,
    ) -> Departed<L>
        ensures job { (result.job ≡ performed.job) × (result.begun ≡ performed.begun) × (result.outcome ≡ performed.outcome) }
        ensures hold { (result.left.serial ≡ performed.job.serial) × Contains self.old.share result.left }
        ensures left { self.new.share ≡ without performed.job.serial self.old.share }
        ensures others { (self.new.pass ≡ self.old.pass) × (self.new.kit ≡ self.old.kit) }
    {
        let Performed {
            job,
            begun,
            outcome,
            ..
        } = performed;
        let left = leave(rt, desk, &mut self.share, job.serial);
        Departed {
            job,
            begun,
            outcome,
            left,
        }
    }

    /// Last step: tells how the job has ended.
    pub fn tell_end<R: Wait>(&mut self, rt: &R, lanes: &Lanes, departed: Departed<L>) -> LoggedAt<L>
        requires { IsWorkerOf lanes.now self.old.pass }
        ensures entry { (result.job ≡ departed.job) × (result.begun ≡ departed.begun) × (result.outcome ≡ departed.outcome) × (result.left ≡ departed.left) }
        ensures pass { IsWorkerOf lanes.now self.new.pass }
        ensures number { self.new.pass.number ≡ self.old.pass.number }
        ensures taken { taken_of self.new.pass ≡ taken_of self.old.pass }
        ensures told { told_of self.new.pass ≡ told_of self.old.pass ++ ended departed.job departed.outcome ∷ [] }
        ensures others { (self.new.share ≡ self.old.share) × (self.new.kit ≡ self.old.kit) }
    {
        let Departed {
            job,
            begun,
            outcome,
            left,
        } = departed;
        let ended = Report {
            serial: job.serial,
            stage: Stage::Ended(outcome),
        };
        tell(rt, lanes, &mut self.pass, ended);
        LoggedAt {
            job,
            begun,
            outcome,
            left,
        }
    }
}

// Begins, performs and finishes a job, and tells whether it was begun. One that cannot be begun failed.
fn attempt<O: Operator, R: Wait>(rt: &R, kit: &mut Kit<O>, job: &Job) -> (bool, Outcome)
    requires { IsKit O.kind_of kit.old }
    ensures kit { IsKit O.kind_of kit.new }
    ensures runs { (kind : Kind) → O.runs_of (of_kind kit.new kind)
        ≡ O.runs_of (of_kind kit.old kind) ++ run_of kind job.now result.0 result.1 }
    ensures refused { (kind : Kind) → O.taken (of_kind kit.old kind) ≡ None
        → O.refused_of (of_kind kit.new kind)
        ≡ O.refused_of (of_kind kit.old kind) ++ refused_part kind job.now result.0 }
    ensures taken { (kind : Kind) → O.taken (of_kind kit.new kind) ≡ O.taken (of_kind kit.old kind) }
    ensures ended { MayEnd O.taken kit.old job.now result.0 result.1 }
{
    let mut pause = Pause::new();
    for _ in rt.forever() {
        match kit.begin(job) {
            Ok(()) => {
                let outcome = kit.perform(job);
                kit.finish(job.action.operator());
                return (true, outcome);
            }
            Err(BeginFault::Memory) => pause.wait(rt),
            Err(BeginFault::Busy | BeginFault::Scratch) => return (false, Outcome::Failed),
        }
    }
    unreachable!()
}
