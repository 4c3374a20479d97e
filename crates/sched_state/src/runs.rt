//! A run as a schedule holds it.
ghost use Rattle.std.specs.Prelude.{◌≡◌, IfOk};
ghost use Rattle.sched_state.specs.RunIds.{kind_text};

use cron_timetable::Interval;
use graph_file::{Name, Sequence};
use instance_machine::Instance;
use moment_core::Moment;
use std::alloc::{AllocError, Global};

/// How a run came to be, as the prefix of its run id says (Airflow 2, "DAG Runs").
#[derive(Clone, Copy, Debug, PartialEq, Eq)]
pub enum RunKind {
    /// By its timetable.
    Scheduled,
    /// By hand.
    Manual,
    /// By a backfill.
    Backfill,
}

impl RunKind {
    /// Its name, with which the id of a run begins (Airflow 2, "DAG Runs": run type).
    pub fn name(self) -> &'static str
        ensures { result.now ≡ kind_text self }
    {
        match self {
            RunKind::Scheduled => "scheduled",
            RunKind::Manual => "manual",
            RunKind::Backfill => "backfill",
        }
    }
}

/// How far a run is.
#[derive(Clone, Copy, Debug, PartialEq, Eq)]
pub enum RunPhase {
    /// Made, and not started.
    Queued,
    Running,
    Success,
    Failed,
}

/// A run of a graph for one data interval (Airflow 2, "DAG Runs"). A graph has at most one for each logical date.
#[derive(Debug, Drop)]
pub struct Run {
    /// The graph's id.
    pub graph: Name,
    /// The logical date.
    pub logical: Moment,
    /// The data interval.
    pub interval: Interval,
    pub kind: RunKind,
    pub phase: RunPhase,
    /// Its task instances, one for each task of its graph, by place (Airflow 2, "Tasks": task instances).
    pub instances: Sequence<Instance>,
}

impl Run {
    /// An equal run.
    pub fn copy(&self, alloc: Global) -> Result<Run, AllocError>
        ensures { IfOk result (λ run. run ≡ self.now) }
    {
        let mut instances = Vec::new(alloc);
        for instance in self.instances.as_slice() {
            instances.push(instance.copy(alloc)?)?;
        }
        Ok(Run {
            graph: self.graph.copy(alloc)?,
            logical: self.logical,
            interval: self.interval,
            kind: self.kind,
            phase: self.phase,
            instances: Sequence::new(instances),
        })
    }
}
