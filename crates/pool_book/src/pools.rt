//! Pools by name, in the order of their names.
ghost use Rattle.std.specs.Prelude.{◌≡◌, ◌+◌, ◌-◌, ◌^◌, ◌<◌, ◌≤◌, ◌↔◌, ◌-ℤ◌, [], true, false, pos, length, option_map, option_copied, IsSome, IfSome, IfOk, IsErrOf, OnOk, OnErr, if◌then◌else◌};
ghost use Rattle.std.specs.Map.Iter.{ShowsInOrder, deref_pair};
ghost use Rattle.pool_book.specs.Keys.{fits_in};
ghost use Rattle.pool_book.specs.Limits.{pool_limit, slot_limit};
ghost use Rattle.pool_book.specs.Pools.{IsInOrder, pool_of, resized, with_pool, take_slots, take_counted, give_back, vacated, is_one_too_many, has_pool, has_place};

use crate::{Pool, Slots};
use graph_file::Name;
use indexmap::IndexMap;
use indexmap::map::Iter;
use std::alloc::{AllocError, Global};
use std::marker::Model;

// The greatest number of pools.
const MOST_POOLS: usize = 64;

/// Why a pool isn't resized.
#[derive(Clone, Copy, Debug, PartialEq, Eq)]
pub enum PoolFault {
    /// It isn't there, and there are 64 pools.
    TooManyPools,
    /// Memory ran out.
    Memory,
}

/// Pools by name, at most 64, in the order of their names, with the number of taken slots of each.
///
/// Contracts see the pools, and for how many more there is room. A look-up takes the same time however many pools there are;
/// a new pool moves those behind it.
#[derive(Debug, Drop)]
pub struct Pools {
    pools: IndexMap<Name, Pool>,
}

impl Model for Pools {
    ghost use Rattle.std.specs.Prelude.{◌≤◌, length};
    ghost use Rattle.indexmap.specs.IndexMap.{spare};
    ghost use Rattle.pool_book.specs.Limits.{pool_limit};
    ghost use Rattle.pool_book.specs.Pools.{Book, IsInOrder};

    ghost Value = { Book };

    ghost view = { λ p. record { pools = p.pools.entries; room = spare p.pools } };

    ghost invariant = { λ p. IsInOrder p.pools.entries × (length p.pools.entries ≤ pool_limit) };
}

impl Pools {
    /// No pool. This takes no memory.
    pub fn new(alloc: Global) -> Pools
        ensures { result.pools ≡ [] }
    {
        Pools {
            pools: IndexMap::new(alloc),
        }
    }

    /// How many pools there are.
    pub fn len(&self) -> usize
        ensures len { result ≡ length self.now.pools }
        ensures limit { result ≤ pool_limit }
        ensures in_order { IsInOrder self.now.pools }
    {
        self.pools.len()
    }

    // The pool of a name.
    pub(crate) fn get(&self, name: &Name) -> Option<&Pool>
        ensures { option_copied result ≡ pool_of name.now self.now.pools }
    {
        self.pools.get(name)
    }

    /// How many slots the pool of a name has.
    pub fn size(&self, name: &Name) -> Option<Slots>
        ensures { result ≡ option_map (λ p. p.size) (pool_of name.now self.now.pools) }
    {
        let pool = self.get(name)?;
        Some(pool.size())
    }

    /// How many slots of the pool of a name are taken.
    pub fn occupied(&self, name: &Name) -> Option<u64>
        ensures { result ≡ option_map (λ p. p.occupied) (pool_of name.now self.now.pools) }
    {
        let pool = self.get(name)?;
        Some(pool.occupied())
    }

    /// How many slots of the pool of a name are open: its size less what is taken, so fewer than none where it was made smaller
    /// than that.
    pub fn open_slots(&self, name: &Name) -> Option<i64>
        ensures { result ≡ option_map (λ p. pos p.size -ℤ pos p.occupied)
            (pool_of name.now self.now.pools) }
    {
        let pool = self.get(name)?;
        Some(pool.open_slots())
    }

    /// Whether so many slots of the pool of a name are open. Of a pool that isn't there none are.
    pub fn fits(&self, name: &Name, slots: Slots) -> bool
        ensures fits { result ≡ fits_in slots (pool_of name.now self.now.pools) }
        ensures high { IfSome (pool_of name.now self.now.pools) (λ p. p.size ≤ slot_limit) }
    {
        match self.get(name) {
            Some(pool) => pool.fits(slots),
            None => false,
        }
    }

    /// The pools with their names, in the order of the names.
    pub fn iter(&self) -> Iter<'_, Name, Pool>
        ensures rest { result ≡ self.now.pools }
        ensures runs { ShowsInOrder (deref_pair {K = Name} {X = Pool}) }
        ensures in_order { IsInOrder self.now.pools }
    {
        self.pools.iter()
    }

    /// Takes slots of the pool of a name, whether they are open or not. This takes no memory.
    pub fn occupy(&mut self, name: &Name, slots: Slots)
        requires there { IsSome (pool_of name.now self.old.pools) }
        requires below { IfSome (pool_of name.now self.old.pools)
            (λ p. p.occupied + slots < 2 ^ 62) }
        ensures pools { self.new.pools ≡ with_pool name.now (take_slots slots) self.old.pools }
        ensures room { self.new.room ≡ self.old.room }
    {
        if let Some(pool) = self.pools.get_mut(name) {
            pool.occupy(slots);
        }
    }

    /// Takes slots as `occupy` does, where nothing is known of how many are taken: from 2^62 - 1 on they aren't counted further. A
    /// pool that isn't there is left so. This takes no memory.
    pub fn occupy_counted(&mut self, name: &Name, slots: Slots)
        ensures pools { self.new.pools ≡ with_pool name.now (take_counted slots) self.old.pools }
        ensures room { self.new.room ≡ self.old.room }
    {
        if let Some(pool) = self.pools.get_mut(name) {
            pool.occupy_counted(slots);
        }
    }

    /// Gives slots of the pool of a name back. This takes no memory.
    pub fn vacate(&mut self, name: &Name, slots: Slots)
        requires there { IsSome (pool_of name.now self.old.pools) }
        requires enough { IfSome (pool_of name.now self.old.pools) (λ p. slots ≤ p.occupied) }
        ensures pools { self.new.pools ≡ with_pool name.now (give_back slots) self.old.pools }
        ensures room { self.new.room ≡ self.old.room }
    {
        if let Some(pool) = self.pools.get_mut(name) {
            pool.vacate(slots);
        }
    }

    /// Gives the pool of a name this size; one that isn't there is made. What is taken of it stays taken, also where it is more
    /// than the size. A refused call changes nothing.
    pub fn resize(&mut self, name: Name, size: Slots) -> Result<(), PoolFault>
        ensures pools { OnOk result (self.new.pools ≡ resized name size self.old.pools) }
        ensures too_many { IsErrOf result PoolFault.TooManyPools ↔
            (is_one_too_many name self.old.pools ≡ true) }
        ensures memory { IsErrOf result PoolFault.Memory → has_place name self.old ≡ false }
        ensures unchanged { OnErr result ((self.new.pools ≡ self.old.pools) ×
            (self.old.room ≤ self.new.room)) }
        ensures room { OnOk result (self.old.room ≤ self.new.room +
            (if has_pool name self.old.pools then 0 else 1)) }
    {
        if let Some(pool) = self.pools.get_mut(&name) {
            pool.resize(size);
            return Ok(());
        }
        if self.pools.len() >= MOST_POOLS {
            return Err(PoolFault::TooManyPools);
        }
        match self.pools.insert_sorted(name, Pool::new(size, 0)) {
            Ok(_) => Ok(()),
            Err(_) => Err(PoolFault::Memory),
        }
    }

    /// Makes room for the pool of a name, so that it is resized without memory.
    pub fn reserve(&mut self, name: &Name) -> Result<(), AllocError>
        ensures pools { self.new.pools ≡ self.old.pools }
        ensures place { OnOk result (has_place name.now self.new ≡ true) }
        ensures room { self.old.room ≤ self.new.room }
    {
        if self.pools.contains_key(name) {
            return Ok(());
        }
        self.pools.reserve(1)
    }

    /// The same pools once more. Room that was reserved isn't copied.
    pub fn copy(&self, alloc: Global) -> Result<Pools, AllocError>
        ensures { IfOk result (λ copy. copy.pools ≡ self.now.pools) }
    {
        let mut pools = IndexMap::with_capacity(alloc, self.pools.len())?;
        for (name, pool) in self.pools.iter() {
            pools.insert(name.copy(alloc)?, *pool)?;
        }
        Ok(Pools { pools })
    }

    /// The same pools once more, of which nothing is taken. Room that was reserved isn't copied.
    pub fn vacant_copy(&self, alloc: Global) -> Result<Pools, AllocError>
        ensures { IfOk result (λ copy. copy.pools ≡ vacated self.now.pools) }
    {
        let mut pools = IndexMap::with_capacity(alloc, self.pools.len())?;
        for (name, pool) in self.pools.iter() {
            pools.insert(name.copy(alloc)?, Pool::new(pool.size(), 0))?;
        }
        Ok(Pools { pools })
    }
}
