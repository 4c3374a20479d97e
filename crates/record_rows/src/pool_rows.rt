//! The rows of `pool`.
use std::marker::Model;

/// A pool. Its key is the name.
#[derive(Debug, Drop)]
pub struct PoolRow {
    pub name: String,
    /// How many slots it has.
    pub size: i64,
}

impl Model for PoolRow {
    ghost use Rattle.std.specs.Prelude.{string_bytes};
    ghost use Rattle.record_rows.specs.Rows.{PoolRow as Row};

    ghost Value = { Row };

    ghost view = { λ w. record { name = string_bytes w.name; size = w.size } };
}
