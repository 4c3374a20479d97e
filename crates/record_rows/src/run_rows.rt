//! The rows of `run`.
use std::marker::Model;

/// A run of a graph. Its key is the graph's id and the logical date. Moments are whole seconds since 1970.
#[derive(Debug, Drop)]
pub struct RunRow {
    pub dag_id: String,
    /// The logical date.
    pub logical: i64,
    /// The first moment of its data interval.
    pub data_start: i64,
    /// The moment at which its data interval ends.
    pub data_end: i64,
    /// 0 scheduled, 1 manual, 2 backfill.
    pub kind: i64,
    /// 0 queued, 1 running, 2 success, 3 failed.
    pub phase: i64,
}

impl Model for RunRow {
    ghost use Rattle.std.specs.Prelude.{string_bytes};
    ghost use Rattle.record_rows.specs.Rows.{RunRow as Row};

    ghost Value = { Row };

    ghost view = { λ w. record { dag_id = string_bytes w.dag_id; logical = w.logical; data_start = w.data_start; data_end = w.data_end; kind = w.kind; phase = w.phase } };
}
