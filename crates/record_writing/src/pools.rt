//! The rows of pools that a record lacks.
ghost use Rattle.std.specs.Prelude.{◌≡◌, true, map, pos, IfOk};
ghost use Rattle.std.specs.List.{list_any};
ghost use Rattle.record_rules.specs.Between.{lacked};
ghost use Rattle.record_rules.specs.Changes.{same_pool_row};
ghost use Rattle.sched_draft.specs.Books.{pools_in};
ghost use Rattle.sched_model.specs.Lists.{rises};
ghost use Rattle.sched_model.specs.Schedule.{pool_before};
ghost use Rattle.sched_model.specs.Tables.{pool_row};

use crate::making::pool_row;
use graph_file::Name;
use pool_book::{Pools, Slots};
use record_rows::PoolRow;
use std::alloc::{AllocError, Global};

// Whether the row of a pool with this name and size is one of theirs.
fn is_among(pools: &Pools, name: &Name, size: Slots) -> bool
    requires { rises pool_before (pools_in pools.now.pools) ≡ true }
    ensures { result ≡ list_any (same_pool_row (record { name = name.now; size = pos size }))
        (map pool_row (pools_in pools.now.pools)) }
{
    match pools.size(name) {
        Some(other) => size.get() == other.get(),
        None => false,
    }
}

/// The rows of the pools `after` that the rows of the pools `before` lack, by name.
pub(crate) fn pools_lacked(
    alloc: Global,
    before: &Pools,
    after: &Pools,
) -> Result<Vec<PoolRow>, AllocError>
    requires { rises pool_before (pools_in before.now.pools) ≡ true }
    ensures { IfOk result (λ rows. rows.items ≡ lacked same_pool_row
        (map pool_row (pools_in before.now.pools)) (map pool_row (pools_in after.now.pools))) }
{
    let mut rows = Vec::new(alloc);
    for (name, pool) in after.iter() {
        if !is_among(before, name, pool.size()) {
            rows.push(pool_row(alloc, name, pool.size())?)?;
        }
    }
    Ok(rows)
}
