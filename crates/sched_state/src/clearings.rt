//! Which task instances are set back.
ghost use Rattle.std.specs.Prelude.{◌≡◌, IfOk};

use graph_file::Name;
use moment_core::Moment;
use std::alloc::{AllocError, Global};

/// Which task instances are set back (Airflow 2, "DAG Runs": re-run tasks): those of the runs of a graph whose logical dates lie in a span.
#[derive(Debug, Drop)]
pub struct Clearing {
    /// The graph's id.
    pub graph: Name,
    /// The earliest logical date.
    pub from: Moment,
    /// The latest logical date.
    pub to: Moment,
    /// The task, where it is one and not all of them.
    pub task: Option<Name>,
    /// Whether what the task depends on is set back with it, directly or not.
    pub upstream: bool,
    /// Whether what depends on the task is set back with it, directly or not.
    pub downstream: bool,
    /// Whether only those are set back that are failed or upstream_failed.
    pub only_failed: bool,
}

impl Clearing {
    /// An equal clearing.
    pub fn copy(&self, alloc: Global) -> Result<Clearing, AllocError>
        ensures { IfOk result (λ clearing. clearing ≡ self.now) }
    {
        let task = match &self.task {
            Some(task) => Some(task.copy(alloc)?),
            None => None,
        };
        Ok(Clearing {
            graph: self.graph.copy(alloc)?,
            from: self.from,
            to: self.to,
            task,
            upstream: self.upstream,
            downstream: self.downstream,
            only_failed: self.only_failed,
        })
    }
}
