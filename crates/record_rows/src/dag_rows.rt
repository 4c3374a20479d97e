//! The rows of `dag`.
use std::marker::Model;

/// A graph. Its key is the id.
#[derive(Debug, Drop)]
pub struct DagRow {
    pub dag_id: String,
    /// The text of its file.
    pub body: String,
    /// 1 where it is paused, else 0.
    pub paused: i64,
}

impl Model for DagRow {
    ghost use Rattle.std.specs.Prelude.{string_bytes};
    ghost use Rattle.record_rows.specs.Rows.{DagRow as Row};

    ghost Value = { Row };

    ghost view = { λ w. record { dag_id = string_bytes w.dag_id; body = string_bytes w.body; paused = w.paused } };
}
