//! What comes to a schedule.
ghost use Rattle.std.specs.Prelude.{◌≡◌, IfOk};

use graph_file::Name;
use instance_machine::Stage;
use moment_core::Moment;
use pool_book::Slots;
use sched_state::{Clearing, GraphText};
use std::alloc::{AllocError, Global};

/// What comes to a schedule.
#[derive(Debug, Drop)]
pub enum Event {
    /// The text of a graph file is taken in (Airflow 2, "DAGs").
    Load(GraphText),
    /// The clock has reached this moment (Airflow 2, "Scheduler").
    Tick(Moment),
    /// A run of the graph with this id is made by hand, with the clock as its logical date (Airflow 2, "DAG Runs": external triggers).
    Trigger(Name),
    /// For each interval of the graph's timetable that starts from one moment to another, both among them, and has ended, a run is made
    /// where there is none (Airflow 2, "DAG Runs": backfill).
    Backfill {
        /// The graph's id.
        graph: Name,
        /// The earliest start.
        from: Moment,
        /// The latest start.
        to: Moment,
        /// Whether all task instances of the runs that are there are set back.
        reset: bool,
    },
    /// Task instances are set back, with a fresh allowance of tries, and finished runs of theirs go on (Airflow 2, "DAG Runs": re-run
    /// tasks).
    Clear(Clearing),
    /// The graph with this id is paused: no run of it is made by its timetable or started, and no try of it is handed out; tries that run
    /// go on (Airflow 2, "DAGs": pausing).
    Pause(Name),
    /// It is paused no more.
    Unpause(Name),
    /// The pool with this name gets so many slots; an unknown one is made (Airflow 2, "Pools").
    Resize(Name, Slots),
    /// A worker reports of the try with this serial.
    Report(u64, Stage),
    /// The scheduler was restarted, with so many lanes: tries without an end are lost (Airflow 2, "Tasks": zombie tasks).
    Restart(u32),
    /// The graph that is there with the id of this text takes the text, whether it has runs or not, and its runs go on by it: what has
    /// finished stays finished, and a task instance that has not goes by the new task of its id (Airflow 2, "DAGs").
    Replace(GraphText),
    /// The task of one run is passed over: it is skipped, and what failed after it is set back and goes on (Airflow 2, where a task
    /// instance's state is set to skipped).
    Mark {
        /// The graph's id.
        graph: Name,
        /// The run's logical date.
        logical: Moment,
        /// The task's id.
        task: Name,
    },
}

impl Event {
    /// An equal event.
    pub fn copy(&self, alloc: Global) -> Result<Event, AllocError>
        ensures { IfOk result (λ event. event ≡ self.now) }
    {
        match self {
            Event::Load(text) => Ok(Event::Load(text.copy(alloc)?)),
            Event::Tick(moment) => Ok(Event::Tick(*moment)),
            Event::Trigger(id) => Ok(Event::Trigger(id.copy(alloc)?)),
            Event::Backfill {
                graph,
                from,
                to,
                reset,
            } => Ok(Event::Backfill {
                graph: graph.copy(alloc)?,
                from: *from,
                to: *to,
                reset: *reset,
            }),
            Event::Clear(clearing) => Ok(Event::Clear(clearing.copy(alloc)?)),
            Event::Pause(id) => Ok(Event::Pause(id.copy(alloc)?)),
            Event::Unpause(id) => Ok(Event::Unpause(id.copy(alloc)?)),
            Event::Resize(pool, size) => Ok(Event::Resize(pool.copy(alloc)?, *size)),
            Event::Report(serial, stage) => Ok(Event::Report(*serial, *stage)),
            Event::Restart(lanes) => Ok(Event::Restart(*lanes)),
            Event::Replace(text) => Ok(Event::Replace(text.copy(alloc)?)),
            Event::Mark {
                graph,
                logical,
                task,
            } => Ok(Event::Mark {
                graph: graph.copy(alloc)?,
                logical: *logical,
                task: task.copy(alloc)?,
            }),
        }
    }
}
