//! The lanes: the queue of jobs and the queue of reports, which the director and the workers share.
ghost use Rattle.std.specs.Prelude.{◌≡◌, ◌+◌, ◌*◌, ◌<◌, ◌≤◌, max, []};
ghost use Rattle.crossbeam_queue.specs.Passes.{ruled_capacity};

use crate::bells::Bell;
use crate::items::{JobOrStop, Report, WorkerReport};
use crate::jobs_rule::{Counts, JoinPass, Sends, Takes};
use crate::passes::{DirectorPass, JobQueue, ReportQueue, WorkerPass, worker_pass};
use crate::reports_rule::{Compares, Hears, JoinTeller, Tells};
use std::alloc::{AllocError, Global};
use std::sync::Wait;
use std::thread;

/// What the director and the workers share: the queue of jobs and the queue of reports.
#[derive(Drop)]
pub struct Lanes {
    jobs: JobQueue,
    reports: ReportQueue,
    // rung at each item that is sent, and at each report that is told
    sent: Bell,
    told: Bell,
    ghost jobs_bounded: { ruled_capacity jobs ≤ 80 },
    ghost reports_bounded: { ruled_capacity reports ≤ 128 },
}

/// How many items were left when the last thread had ended.
#[derive(Clone, Copy, Debug, PartialEq, Eq)]
pub struct Tally {
    /// Jobs and stops that no worker took.
    pub jobs: u32,
    /// Reports that the director did not hear.
    pub reports: u32,
}

impl Lanes {
    ghost use Rattle.std.specs.Prelude.{IfOk, IfErr, IfSome, IfNone, ◌∷◌, ◌++◌, All, vec_len, ℕ};
    ghost use Rattle.ruled_dispatch.specs.Lanes.{sent_of, heard_of, taken_of, told_of, job_capacity_of, report_capacity_of};
    ghost use Rattle.ruled_dispatch.specs.Lanes.{IsDirectorOf, IsWorkerOf, AreNumbered, HasWorkers, AreAllOf};
    ghost use Rattle.ruled_dispatch.specs.Lanes.{JobsWereFull, IsSettledBut, IsHeardBut};

    /// A queue with room for a job on each lane and a stop for each worker, one with room for two reports of each lane, the pass that
    /// sends and hears, and a pass for each worker.
    ///
    /// There are up to 64 lanes and from 1 to 16 workers. All memory is taken here.
    pub fn open(
        alloc: Global,
        lanes: usize,
        workers: usize,
    ) -> Result<(Lanes, DirectorPass, Vec<WorkerPass>), AllocError>
        requires lanes { lanes ≤ 64 }
        requires workers { (0 < workers) × (workers ≤ 16) }
        ensures room { IfOk result (λ r. job_capacity_of r.0 ≡ lanes + workers) }
        ensures report_room { IfOk result (λ r. report_capacity_of r.0 ≡ max 1 (2 * lanes)) }
        ensures workers { IfOk result (λ r. vec_len r.2 ≡ workers) }
        ensures all { IfOk result (λ r. AreAllOf r.0 r.1 r.2.items) }
        ensures numbers { IfOk result (λ r. AreNumbered r.2.items) }
        ensures sent { IfOk result (λ r. sent_of r.1 ≡ []) }
        ensures heard { IfOk result (λ r. heard_of r.1 ≡ []) }
        ensures taken { IfOk result (λ r. All (λ w. taken_of w ≡ []) r.2.items) }
        ensures told { IfOk result (λ r. All (λ w. told_of w ≡ []) r.2.items) }
    {
        let (jobs, mut sender) = JobQueue::ruled(alloc, lanes + workers)?;
        let (reports, mut hearer) = ReportQueue::ruled(alloc, (2 * lanes).max(1))?;
        let mut passes = Vec::new(alloc);
        for made in 0..workers {
            let pass = worker_pass(&jobs, &mut sender, &reports, &mut hearer, made as u32);
            passes.push(pass)?;
        }
        let director = DirectorPass {
            jobs: sender,
            reports: hearer,
        };
        let lanes = Lanes {
            jobs,
            reports,
            sent: Bell::new(),
            told: Bell::new(),
        };
        Ok((lanes, director, passes))
    }

    /// Puts an item behind those that were sent before, or hands it back where the queue was full at one moment of the call.
    pub fn send<R: Wait>(
        &self,
        rt: &R,
        pass: &mut DirectorPass,
        item: JobOrStop,
    ) -> Result<(), JobOrStop>
        requires { IsDirectorOf self.now pass.old }
        ensures sent { IfOk result (λ _. sent_of pass.new ≡ sent_of pass.old ++ item ∷ []) }
        ensures back { IfErr result (λ it. (it ≡ item) × (sent_of pass.new ≡ sent_of pass.old)) }
        ensures full { IfErr result (λ _. JobsWereFull self.now pass.old) }
        ensures heard { heard_of pass.new ≡ heard_of pass.old }
        ensures pass { IsDirectorOf self.now pass.new }
        ensures workers { (n : ℕ) → HasWorkers pass.old n → HasWorkers pass.new n }
    {
        let sent = self.jobs.push_as::<Sends, R>(rt, &mut pass.jobs, item);
        self.sent.ring();
        sent
    }

    /// Puts an item behind those that were sent before; where the queue is full, it leaves the processor to others and asks again.
    ///
    /// There is room at once where no more jobs are in flight than there are lanes, and no more stops are sent than there are workers.
    pub fn wait_to_send<R: Wait>(&self, rt: &R, pass: &mut DirectorPass, item: JobOrStop)
        requires { IsDirectorOf self.now pass.old }
        ensures sent { sent_of pass.new ≡ sent_of pass.old ++ item ∷ [] }
        ensures heard { heard_of pass.new ≡ heard_of pass.old }
        ensures pass { IsDirectorOf self.now pass.new }
        ensures workers { (n : ℕ) → HasWorkers pass.old n → HasWorkers pass.new n }
    {
        let mut item = item;
        for _ in rt.forever() {
            match self.send(rt, pass, item) {
                Ok(()) => return,
                Err(back) => item = back,
            }
            thread::yield_now();
        }
        unreachable!()
    }

    /// Takes the item that was sent first of those in the queue, or gives `None` where the queue was empty at one moment of the
    /// call.
    pub fn take<R: Wait>(&self, rt: &R, pass: &mut WorkerPass) -> Option<JobOrStop>
        requires { IsWorkerOf self.now pass.old }
        ensures taken { IfSome result (λ item. taken_of pass.new ≡ taken_of pass.old ++ item ∷ []) }
        ensures none { IfNone result (taken_of pass.new ≡ taken_of pass.old) }
        ensures told { told_of pass.new ≡ told_of pass.old }
        ensures pass { IsWorkerOf self.now pass.new }
        ensures number { pass.new.number ≡ pass.old.number }
    {
        self.jobs.pop_as::<Takes, R>(rt, &mut pass.jobs)
    }

    /// Takes the item that was sent first of those in the queue; where there is none, it sleeps until one is sent.
    pub fn wait_to_take<R: Wait>(&self, rt: &R, pass: &mut WorkerPass) -> JobOrStop
        requires { IsWorkerOf self.now pass.old }
        ensures taken { taken_of pass.new ≡ taken_of pass.old ++ result ∷ [] }
        ensures told { told_of pass.new ≡ told_of pass.old }
        ensures pass { IsWorkerOf self.now pass.new }
        ensures number { pass.new.number ≡ pass.old.number }
    {
        for _ in rt.forever() {
            let rings = self.sent.rings();
            match self.take(rt, pass) {
                Some(item) => return item,
                None => self.sent.sleep(rt, rings),
            }
        }
        unreachable!()
    }

    /// Puts a report behind those that were told before, or hands it back where the queue was full at one moment of the call.
    pub fn tell<R: Wait>(&self, rt: &R, pass: &mut WorkerPass, report: Report) -> Result<(), Report>
        requires { IsWorkerOf self.now pass.old }
        ensures told { IfOk result (λ _. told_of pass.new ≡ told_of pass.old ++ report ∷ []) }
        ensures back { IfErr result (λ it. (it ≡ report) × (told_of pass.new ≡ told_of pass.old)) }
        ensures taken { taken_of pass.new ≡ taken_of pass.old }
        ensures pass { IsWorkerOf self.now pass.new }
        ensures number { pass.new.number ≡ pass.old.number }
    {
        let told = WorkerReport {
            worker: pass.number,
            report,
        };
        let told = self
            .reports
            .push_as::<Tells, R>(rt, &mut pass.reports, told);
        self.told.ring();
        match told {
            Ok(()) => Ok(()),
            Err(back) => Err(back.report),
        }
    }

    /// Takes the report that was told first of those in the queue, or gives `None` where the queue was empty at one moment of the
    /// call.
    pub fn hear<R: Wait>(&self, rt: &R, pass: &mut DirectorPass) -> Option<WorkerReport>
        requires { IsDirectorOf self.now pass.old }
        ensures heard { IfSome result (λ told. heard_of pass.new ≡ heard_of pass.old ++ told ∷ []) }
        ensures none { IfNone result (heard_of pass.new ≡ heard_of pass.old) }
        ensures worker { IfSome result (λ told. (n : ℕ) → HasWorkers pass.old n → told.worker < n) }
        ensures sent { sent_of pass.new ≡ sent_of pass.old }
        ensures pass { IsDirectorOf self.now pass.new }
        ensures workers { (n : ℕ) → HasWorkers pass.old n → HasWorkers pass.new n }
    {
        self.reports.pop_as::<Hears, R>(rt, &mut pass.reports)
    }

    /// Takes the report that was told first of those in the queue; where there is none, it sleeps until one is told.
    pub fn wait_to_hear<R: Wait>(&self, rt: &R, pass: &mut DirectorPass) -> WorkerReport
        requires { IsDirectorOf self.now pass.old }
        ensures heard { heard_of pass.new ≡ heard_of pass.old ++ result ∷ [] }
        ensures worker { (n : ℕ) → HasWorkers pass.old n → result.worker < n }
        ensures sent { sent_of pass.new ≡ sent_of pass.old }
        ensures pass { IsDirectorOf self.now pass.new }
        ensures workers { (n : ℕ) → HasWorkers pass.old n → HasWorkers pass.new n }
    {
        for _ in rt.forever() {
            let rings = self.told.rings();
            match self.hear(rt, pass) {
                Some(told) => return told,
                None => self.told.sleep(rt, rings),
            }
        }
        unreachable!()
    }

    /// How many items and reports are left, once all passes are back: each item was sent as often as it was taken or is left, what a
    /// worker told is what was heard of it and then what is left of it, and of no other number anything was heard.
    pub fn tally<R: Wait>(self, rt: &R, director: DirectorPass, workers: Vec<WorkerPass>) -> Tally
        requires { AreAllOf self director workers.items }
        ensures jobs { IsSettledBut director workers.items result.jobs }
        ensures reports { IsHeardBut director workers.items result.reports }
    {
        let Lanes { jobs, reports, .. } = self;
        let DirectorPass {
            jobs: mut sender,
            reports: mut hearer,
        } = director;
        for worker in workers {
            let WorkerPass {
                jobs: taker,
                reports: teller,
                number: _,
            } = worker;
            jobs.absorb::<JoinPass>(&mut sender, taker);
            reports.absorb::<JoinTeller>(&mut hearer, teller);
        }
        let jobs_left = jobs.len_as::<Counts, R>(rt, &mut sender);
        let reports_left = reports.len_as::<Compares, R>(rt, &mut hearer);
        Tally {
            jobs: jobs_left as u32,
            reports: reports_left as u32,
        }
    }
}
