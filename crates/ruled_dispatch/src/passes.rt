//! The passes: who holds one may send and hear, or take and tell. What a pass did is seen in proofs alone; a worker's has its number, and
//! the director's has no bytes.
ghost use Rattle.std.specs.Prelude.{◌≡◌, ◌+◌, ◌<◌, [], true, false};
ghost use Rattle.crossbeam_queue.specs.Passes.{view, IsPassOf};

use crate::items::{JobOrStop, WorkerReport};
use crate::jobs_rule::{JobActivity, NothingIsLost, SplitPass};
use crate::reports_rule::{ReportActivity, SplitTeller, StaysInOrder};
use crossbeam_queue::{Pass, RuledArrayQueue};

/// The queue of jobs under its rule.
pub(crate) type JobQueue = RuledArrayQueue<JobOrStop, JobActivity, NothingIsLost>;

/// The queue of reports under its rule.
pub(crate) type ReportQueue = RuledArrayQueue<WorkerReport, ReportActivity, StaysInOrder>;

/// The one pass that sends and hears. It is made by `Lanes::open` alone.
#[derive(Drop)]
pub struct DirectorPass {
    pub(crate) jobs: Pass<JobOrStop, JobActivity>,
    pub(crate) reports: Pass<WorkerReport, ReportActivity>,
    ghost sends: { (view jobs).senders ≡ 1 },
    ghost takes_none: { (view jobs).taken ≡ [] },
    ghost has_part: { 0 < (view jobs).parts },
    ghost hears: { (view reports).hears ≡ true },
    ghost none_is_back: { (view reports).returned ≡ [] },
}

/// A pass that takes and tells. It is made by `Lanes::open` alone.
#[derive(Drop)]
pub struct WorkerPass {
    pub(crate) jobs: Pass<JobOrStop, JobActivity>,
    pub(crate) reports: Pass<WorkerReport, ReportActivity>,
    pub(crate) number: u32,
    ghost is_no_sender: { (view jobs).senders ≡ 0 },
    ghost sends_none: { (view jobs).sent ≡ [] },
    ghost one_part: { (view jobs).parts ≡ 1 },
    ghost is_no_hearer: { (view reports).hears ≡ false },
    ghost tells: { (view reports).tells ≡ true },
    ghost numbered: { (view reports).number ≡ number },
}

/// A new pass that takes, with one part of the director's, and tells, under the next number.
pub(crate) fn worker_pass(
    jobs: &JobQueue,
    sender: &mut Pass<JobOrStop, JobActivity>,
    reports: &ReportQueue,
    hearer: &mut Pass<WorkerReport, ReportActivity>,
    number: u32,
) -> WorkerPass
    requires queues { IsPassOf jobs.now sender.old × IsPassOf reports.now hearer.old }
    requires part { 1 < (view sender.old).parts }
    requires sends { (view sender.old).senders ≡ 1 }
    requires hears { (view hearer.old).hears ≡ true }
    requires next { (view hearer.old).made ≡ number }
    ensures queues { IsPassOf jobs.now sender.new × IsPassOf reports.now hearer.new }
    ensures part { (view sender.new).parts + 1 ≡ (view sender.old).parts }
    ensures sends { (view sender.new).senders ≡ 1 }
    ensures sent { (view sender.new).sent ≡ (view sender.old).sent }
    ensures taken { (view sender.new).taken ≡ (view sender.old).taken }
    ensures hears { (view hearer.new).hears ≡ true }
    ensures heard { (view hearer.new).heard ≡ (view hearer.old).heard }
    ensures made { (view hearer.new).made ≡ number + 1 }
    ensures returned { (view hearer.new).returned ≡ (view hearer.old).returned }
    ensures takes { IsPassOf jobs.now result.jobs × ((view result.jobs).taken ≡ []) }
    ensures tells { IsPassOf reports.now result.reports × ((view result.reports).told ≡ []) }
    ensures number { result.number ≡ number }
{
    let jobs = jobs.another::<SplitPass>(sender);
    let reports = reports.another::<SplitTeller>(hearer);
    WorkerPass {
        jobs,
        reports,
        number,
    }
}
