//! What is told of a try that is handed out.
ghost use Rattle.std.specs.Prelude.{◌≡◌, IfOk};

use crate::runs::RunKind;
use cron_timetable::Interval;
use graph_file::{Action, Bounded, Name};
use moment_core::Moment;
use std::alloc::{AllocError, Global};

/// A try that is handed out, with what a worker needs to carry it out.
#[derive(Debug, Drop)]
pub struct Job {
    /// The number of the try among all that were handed out.
    pub serial: u64,
    /// The graph's id.
    pub graph: Name,
    /// The logical date of its run.
    pub logical: Moment,
    /// The data interval of its run.
    pub interval: Interval,
    /// How its run came to be.
    pub kind: RunKind,
    /// The task's id.
    pub task: Name,
    /// The number of the try among those of its instance, from 1 (Airflow 2, "Tasks": try number).
    pub try_number: usize,
    /// What the task does.
    pub action: Action,
    /// The pool from which it takes its slots (Airflow 2, "Pools").
    pub pool: Name,
    /// How many slots it takes.
    pub slots: Bounded<1, 1_000>,
}

impl Job {
    /// An equal job.
    pub fn copy(&self, alloc: Global) -> Result<Job, AllocError>
        ensures { IfOk result (λ job. job ≡ self.now) }
    {
        Ok(Job {
            serial: self.serial,
            graph: self.graph.copy(alloc)?,
            logical: self.logical,
            interval: self.interval,
            kind: self.kind,
            task: self.task.copy(alloc)?,
            try_number: self.try_number,
            action: self.action.copy(alloc)?,
            pool: self.pool.copy(alloc)?,
            slots: self.slots,
        })
    }
}
