//! The order of each table's rows by key: texts by their bytes, numbers by their value.
ghost use Rattle.std.specs.Prelude.{◌≡◌, Bool};
ghost use Rattle.std.specs.Ordering.{is_lt};
ghost use Rattle.sched_laws.specs.sched_model.Lists.{rises};
ghost use Rattle.record_rules.specs.Keys.{IsOrdered, meta_row_before, pool_row_before, dag_row_before, dag_limit_row_before, run_row_before, instance_row_before, attempt_row_before};

use record_rows::{AttemptRow, DagLimitRow, DagRow, InstanceRow, MetaRow, PoolRow, RunRow};
use std::cmp::Ordering;

/// Rows that have a key.
pub trait Keyed {
    ghost before: { Self → Self → Bool };

    /// The order of two rows by key.
    fn compare(&self, other: &Self) -> Ordering
        ensures { is_lt result ≡ before self.now other.now };

    /// What is so of that order.
    fn ordered()
        ensures { IsOrdered before };
}

/// Whether rows rise by key, each behind the one before it.
pub fn rise<X: Keyed>(rows: &[X]) -> bool
    ensures { result ≡ rises X.before rows.now }
{
    X::ordered();
    for position in 1..rows.len() {
        if !rows[position - 1].compare(&rows[position]).is_lt() {
            return false;
        }
    }
    true
}

impl Keyed for MetaRow {
    ghost before = { meta_row_before };

    fn compare(&self, other: &MetaRow) -> Ordering {
        self.one.cmp(&other.one)
    }

    fn ordered() {}
}

impl Keyed for PoolRow {
    ghost before = { pool_row_before };

    fn compare(&self, other: &PoolRow) -> Ordering {
        self.name.cmp(&other.name)
    }

    fn ordered() {}
}

impl Keyed for DagRow {
    ghost before = { dag_row_before };

    fn compare(&self, other: &DagRow) -> Ordering {
        self.dag_id.cmp(&other.dag_id)
    }

    fn ordered() {}
}

impl Keyed for DagLimitRow {
    ghost before = { dag_limit_row_before };

    fn compare(&self, other: &DagLimitRow) -> Ordering {
        self.dag_id.cmp(&other.dag_id)
    }

    fn ordered() {}
}

impl Keyed for RunRow {
    ghost before = { run_row_before };

    fn compare(&self, other: &RunRow) -> Ordering {
        self.dag_id
            .cmp(&other.dag_id)
            .then_with(|| self.logical.cmp(&other.logical))
    }

    fn ordered() {}
}

impl Keyed for InstanceRow {
    ghost before = { instance_row_before };

    fn compare(&self, other: &InstanceRow) -> Ordering {
        self.dag_id.cmp(&other.dag_id).then_with(|| self
            .logical
            .cmp(&other.logical)
            .then_with(|| self.task_id.cmp(&other.task_id)))
    }

    fn ordered() {}
}

impl Keyed for AttemptRow {
    ghost before = { attempt_row_before };

    fn compare(&self, other: &AttemptRow) -> Ordering {
        self.serial.cmp(&other.serial)
    }

    fn ordered() {}
}
