//! The rows of `instance`.
use std::marker::Model;

/// The instance of a task in a run. Its key is the key of the run and the task's id.
#[derive(Debug, Drop)]
pub struct InstanceRow {
    pub dag_id: String,
    /// The logical date of its run, in whole seconds since 1970.
    pub logical: i64,
    pub task_id: String,
    /// 0 none, 1 Run, 2 Skip, 3 UpstreamFailed.
    pub verdict: i64,
    /// How many tries it had before its last clearing.
    pub since: i64,
}

impl Model for InstanceRow {
    ghost use Rattle.std.specs.Prelude.{string_bytes};
    ghost use Rattle.record_rows.specs.Rows.{InstanceRow as Row};

    ghost Value = { Row };

    ghost view = { λ w. record { dag_id = string_bytes w.dag_id; logical = w.logical; task_id = string_bytes w.task_id; verdict = w.verdict; since = w.since } };
}
