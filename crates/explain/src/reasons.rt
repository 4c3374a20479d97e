//! Reasons, and why there are none.
use graph_file::Name;
use moment_core::Moment;
use sched_state::RunPhase;
use trigger_rules::State;

/// Why a task instance is where it is. Each is given exactly where it holds.
#[derive(Debug, Drop)]
pub enum Reason {
    /// The instance is finished, in this state.
    Finished(State),
    /// It is queued or running: this try of it is in flight.
    HandedOut(u64),
    /// It waits, and its run is queued: so many runs of its graph are running, and so many may be (Airflow 2, "DAG Runs": max_active_runs).
    RunQueued { active: usize, limit: u32 },
    /// It waits, and its graph is paused.
    Paused,
    /// Its run has ended, in this phase.
    RunFinished(RunPhase),
    /// It has no verdict, its trigger rule waits, and this upstream is not finished (Airflow 2, "DAGs": trigger rules).
    Upstream { task: Name, state: State },
    /// It has no verdict, its task depends on the past, and the run before, of this logical date, has the task in this state, which is neither
    /// success nor skipped (Airflow 2, "DAGs": depends on past).
    Past { logical: Moment, state: State },
    /// It is up for retry, from this second on, which is later than the clock. It may lie past the end of moments, and then never comes.
    RetryAt(u64),
    /// It could be handed out, and needs more slots than its pool has open (Airflow 2, "Pools").
    Pool { pool: Name, needs: u32, free: i64 },
    /// It could be handed out, and so many tries of its graph, over all its runs, are in flight, where only so many may be (Airflow 2, the class
    /// DAG: max_active_tasks).
    GraphFull { active: u64, limit: u32 },
    /// It could be handed out, and so many tries are in flight that no lane is free; or no serial is left.
    Lanes(usize),
}

/// Why a task instance is not explained.
#[derive(Clone, Copy, Debug, PartialEq, Eq)]
pub enum ExplainFault {
    /// There is no graph with this id.
    UnknownGraph,
    /// The graph has no run with this logical date.
    UnknownRun,
    /// The run has no instance of a task with this id.
    UnknownTask,
    /// There was no memory.
    Memory,
}
