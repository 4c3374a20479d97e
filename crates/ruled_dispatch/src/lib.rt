//! The queues between the threads: the director sends jobs, which workers take, and workers tell reports, which the director hears.
//!
//! `Lanes` is shared by all threads by reference. Each thread holds a pass of its own: it carries, for proofs alone, the list of what
//! this thread sent and heard, or took and told. Each queue has a rule (`src/jobs_rule.rt`, `src/reports_rule.rt`) over what it holds
//! and over the lists of all passes, and each step of a thread keeps it, whatever the others did before. So what a call says of its own
//! list is enough to know, once the threads have ended, what became of every item and every report.
//!
//! In: `let (lanes, mut director, workers) = Lanes::open(alloc, 4, 2)?;`, then `lanes.send(rt, &mut director, JobOrStop::Job(job))`
//! and `lanes.hear(rt, &mut director)` on one thread, `lanes.take(rt, &mut worker)` and `lanes.tell(rt, &mut worker, report)` on the
//! others. Out: `lanes.tally(rt, director, workers)`, which counts what is left. Easy to get wrong: a refused `send` or `tell` and a
//! `None` of `take` or `hear` speak of one moment of the call, and no longer hold when it returns.
#![tactic(auto)]

mod bells;
mod items;
mod jobs_rule;
mod lanes;
mod passes;
mod reports_rule;

pub use items::{JobOrStop, Report, WorkerReport};
pub use lanes::{Lanes, Tally};
pub use passes::{DirectorPass, WorkerPass};
