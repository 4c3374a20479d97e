//! What an accepted event answers.
ghost use Rattle.std.specs.Prelude.{◌≡◌, IfOk};

use graph_file::{Name, Sequence};
use moment_core::Moment;
use sched_state::{Job, RunKind};
use std::alloc::{AllocError, Global};

/// Which run: a graph has at most one for each logical date.
#[derive(Debug, Drop)]
pub struct RunId {
    /// The graph's id.
    pub graph: Name,
    /// The logical date.
    pub logical: Moment,
    /// How it came to be.
    pub kind: RunKind,
}

impl RunId {
    /// An equal run id.
    pub fn copy(&self, alloc: Global) -> Result<RunId, AllocError>
        ensures { IfOk result (λ id. id ≡ self.now) }
    {
        Ok(RunId {
            graph: self.graph.copy(alloc)?,
            logical: self.logical,
            kind: self.kind,
        })
    }
}

/// What an accepted event answers.
#[derive(Debug, Drop)]
pub struct Answer {
    /// The runs made, by graph id and logical date.
    pub made: Sequence<RunId>,
    /// Whether runs were left for the next tick.
    pub more: bool,
    /// How many of the task instances that were set back were not none.
    pub cleared: u32,
    /// The tries handed out, by serial.
    pub jobs: Sequence<Job>,
}

impl Answer {
    /// An equal answer.
    pub fn copy(&self, alloc: Global) -> Result<Answer, AllocError>
        ensures { IfOk result (λ answer. answer ≡ self.now) }
    {
        let mut made = Vec::new(alloc);
        for id in self.made.as_slice() {
            made.push(id.copy(alloc)?)?;
        }
        let mut jobs = Vec::new(alloc);
        for job in self.jobs.as_slice() {
            jobs.push(job.copy(alloc)?)?;
        }
        Ok(Answer {
            made: Sequence::new(made),
            more: self.more,
            cleared: self.cleared,
            jobs: Sequence::new(jobs),
        })
    }
}
