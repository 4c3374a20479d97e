//! The rule of `pool`.
ghost use Rattle.std.specs.Prelude.{◌≡◌};
ghost use Rattle.std.specs.List.{list_any};
ghost use Rattle.record_rows.specs.Rows.{PoolRow as Row};
ghost use Rattle.sched_state.specs.Lists.{same};
ghost use Rattle.record_rules.specs.Faults as spec;

use crate::columns::is_between;
use crate::earlier::{earlier, past_limit};
use graph_file::{DEFAULT_POOL, is_name};
use record_rows::{PoolRow, Rows};
use sched_state::Limits;

// The first row of `pool` at fault.
pub(crate) fn pool_fault(limits: Limits, rows: &Rows) -> Option<usize>
    ensures { result ≡ spec.pool_fault limits rows.now }
{
    let count = rows.pools.len();
    let missing = if has_pool(&rows.pools, DEFAULT_POOL) {
        None
    } else {
        Some(count)
    };
    let limit = past_limit(limits.pools(), count);
    earlier(first_bad(&rows.pools), earlier(limit, missing))
}

// Whether there is a row of the pool with this name.
pub(crate) fn has_pool(rows: &[PoolRow], name: &str) -> bool
    ensures { result ≡ list_any (λ (p : Row). same p.name name.now) rows.now }
{
    rows.iter().any(|row| row.name.as_str() == name)
}

// The first row with a name or a size that is none.
fn first_bad(rows: &[PoolRow]) -> Option<usize>
    ensures { result ≡ spec.first_bad spec.is_pool_row_right rows.now }
{
    for (position, row) in rows.iter().enumerate() {
        if !is_right(row) {
            return Some(position);
        }
    }
    None
}

fn is_right(row: &PoolRow) -> bool
    ensures { result ≡ spec.is_pool_row_right row.now }
{
    is_name(row.name.as_str()) && is_between(0, 1_000_000, row.size)
}
