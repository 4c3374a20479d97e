//! The book of pools, made of the rows of `pool`.
ghost use Rattle.std.specs.Prelude.{◌≡◌, ◌<◌, ◌≤◌, true, length, IfOk, OnOk};
ghost use Rattle.std.specs.List.{list_all};
ghost use Rattle.graph_file.specs.Names.{is_name};
ghost use Rattle.pool_book.specs.Limits.{pool_limit};
ghost use Rattle.pool_book.specs.Pools.{resized};
ghost use Rattle.sched_model.specs.Lists.{rises};
ghost use Rattle.record_rules.specs.Keys.{pool_row_before};
ghost use Rattle.record_rules.specs.Numbers.{natural, is_between};
ghost use Rattle.record_rules.specs.Faults.{is_pool_row_right};
ghost use Rattle.record_restoring.specs.Pools.{vacant_pools};

use graph_file::{Name, NameFault};
use pool_book::{PoolFault, Pools, Slots};
use record_rows::PoolRow;
use std::alloc::{AllocError, Global};

// The pools of rows, which are right, of which nothing is taken.
pub(crate) fn read_pools(alloc: Global, rows: &[PoolRow]) -> Result<Pools, AllocError>
    requires right { list_all is_pool_row_right rows.now ≡ true }
    requires order { rises pool_row_before rows.now ≡ true }
    requires few { length rows.now ≤ pool_limit }
    ensures { IfOk result (λ pools. pools.pools ≡ vacant_pools rows.now) }
{
    let mut pools = Pools::new(alloc);
    for row in rows {
        add_pool(alloc, &mut pools, row)?;
    }
    Ok(pools)
}

// Adds the pool of a row to fewer pools than there may be.
fn add_pool(alloc: Global, pools: &mut Pools, row: &PoolRow) -> Result<(), AllocError>
    requires right { is_pool_row_right row.now ≡ true }
    requires few { length pools.old.pools < pool_limit }
    ensures { OnOk result (pools.new.pools
        ≡ resized row.now.name (natural row.now.size) pools.old.pools) }
{
    let name = name_of(alloc, row.name.as_str())?;
    match pools.resize(name, slots_of(row.size)) {
        Ok(()) => Ok(()),
        Err(PoolFault::Memory) => Err(AllocError),
        Err(PoolFault::TooManyPools) => unreachable!(),
    }
}

// The name that a text is.
fn name_of(alloc: Global, text: &str) -> Result<Name, AllocError>
    requires { is_name text.now ≡ true }
    ensures { IfOk result (λ name. name ≡ text.now) }
{
    match Name::read(alloc, text) {
        Ok(name) => Ok(name),
        Err(NameFault::Memory) => Err(AllocError),
        Err(NameFault::BadName) => unreachable!(),
    }
}

// The size of a column.
fn slots_of(column: i64) -> Slots
    requires { is_between 0 1000000 column ≡ true }
    ensures { result ≡ natural column }
{
    Slots::of(column as u32)
}
