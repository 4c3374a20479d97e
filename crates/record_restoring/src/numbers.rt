//! Numbers of columns as counts, lanes, serials and bounds.
ghost use Rattle.std.specs.Prelude.{◌≡◌, true, pos, int_le};
ghost use Rattle.record_rules.specs.Numbers.{natural, is_between};
ghost use Rattle.record_rules.specs.Reading as spec;

use graph_file::Bounded;

// The count of a column.
pub(crate) fn count_of(column: i64) -> usize
    requires { int_le (pos 0) column ≡ true }
    ensures { result ≡ natural column }
{
    column as usize
}

// The lanes of a column, which are no more than a limit.
pub(crate) fn lanes_of(limit: u32, column: i64) -> u32
    requires { is_between 0 limit column ≡ true }
    ensures { result ≡ natural column }
{
    column as u32
}

// The serial of a column.
pub(crate) fn serial_of(column: i64) -> u64
    requires { int_le (pos 1) column ≡ true }
    ensures { result ≡ natural column }
{
    column as u64
}

/// The bound of a graph whose text says none (Airflow 2, the class DAG: max_active_tasks).
pub const USUAL_BOUND: u32 = 16;

/// The bound of a graph whose text says none, in a record from before there were bounds.
pub const OLD_BOUND: u32 = 1_000_000;

// The bound of a column; where it is out of the range, the usual one.
pub(crate) fn bound_of(column: i64) -> Bounded<1, 1_000_000>
    ensures { result ≡ spec.bound_of_column column }
{
    if 1 <= column && column <= 1_000_000 {
        bounded(column)
    } else {
        Bounded::new(USUAL_BOUND)
    }
}

fn bounded(column: i64) -> Bounded<1, 1_000_000>
    requires { is_between 1 1000000 column ≡ true }
    ensures { result ≡ natural column }
{
    Bounded::new(column as u32)
}
