//! The rows of `attempt`.
use std::marker::Model;

/// A try of a task instance. Its key is the serial. Moments are whole seconds since 1970.
#[derive(Debug, Drop)]
pub struct AttemptRow {
    pub serial: i64,
    pub dag_id: String,
    /// The logical date of its instance's run.
    pub logical: i64,
    pub task_id: String,
    /// Its number among the tries of its instance, from 1.
    pub try_number: i64,
    /// How many slots of its task's pool it takes.
    pub slots: i64,
    /// When it began, if it has.
    pub started: Option<i64>,
    /// When it ended, if it has.
    pub ended: Option<i64>,
    /// If it has ended: 0 success, 1 failed, 2 skipped, 3 lost.
    pub outcome: Option<i64>,
}

impl Model for AttemptRow {
    ghost use Rattle.std.specs.Prelude.{string_bytes};
    ghost use Rattle.record_rows.specs.Rows.{AttemptRow as Row};

    ghost Value = { Row };

    ghost view = { λ w. record {
      serial = w.serial;
      dag_id = string_bytes w.dag_id;
      logical = w.logical;
      task_id = string_bytes w.task_id;
      try_number = w.try_number;
      slots = w.slots;
      started = w.started;
      ended = w.ended;
      outcome = w.outcome;
    } };
}
