//! The pools that a schedule begins with.
ghost use Rattle.std.specs.Prelude.{◌≡◌, [], ◌∷◌, IfOk};
ghost use Rattle.sched_model.specs.Schedule.{default_pool};

use graph_file::{DEFAULT_POOL, Name, NameFault};
use pool_book::{PoolFault, Pools, Slots};
use std::alloc::{AllocError, Global};

/// How many slots the default pool has at first (Airflow 2, "Pools").
pub const DEFAULT_POOL_SLOTS: u32 = 128;

// The default pool alone, of which nothing is taken.
pub fn default_pools(alloc: Global) -> Result<Pools, AllocError>
    ensures { IfOk result (λ pools. pools.pools
        ≡ (default_pool.name, record { size = default_pool.size; occupied = 0 }) ∷ []) }
{
    let mut pools = Pools::new(alloc);
    match pools.resize(default_name(alloc)?, Slots::of(DEFAULT_POOL_SLOTS)) {
        Ok(()) => Ok(pools),
        Err(PoolFault::Memory) => Err(AllocError),
        Err(PoolFault::TooManyPools) => unreachable!(),
    }
}

// The name of the default pool.
fn default_name(alloc: Global) -> Result<Name, AllocError>
    ensures { IfOk result (λ name. name ≡ default_pool.name) }
{
    match Name::read(alloc, DEFAULT_POOL) {
        Ok(name) => Ok(name),
        Err(NameFault::Memory) => Err(AllocError),
        Err(NameFault::BadName) => unreachable!(),
    }
}
