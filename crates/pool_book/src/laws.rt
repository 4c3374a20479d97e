//! Laws of the definitions: each is the contract of an empty function, so that the gate proves it.
ghost use Rattle.std.specs.Prelude.{◌≡◌, ◌≢◌, ◌≤◌, ◌↔◌, ◌⊎◌, ℕ, Bool, List, Some, true, false, option_map, bytes_eq, Contains, if◌then◌else◌};
ghost use Rattle.pool_book.specs.Pools.{Name, PoolUse, Entries, IsInOrder, pool_of, resized, with_pool, take_slots, occupied_of};
ghost use Rattle.pool_book.specs.Keys.{IsFirstInRank, fits, has_instance, with_key, without_key};
ghost use Rattle.pool_book.specs.declared.keys.Key.{Key};

/// Taking slots, giving them back and resizing change the pool of one name, and each other name has the pool that it had. All
/// keep the order of the names.
pub fn one_pool_changes()
    ensures changed { (name other : Name) (f : PoolUse → PoolUse) (pools : Entries)
        → pool_of other (with_pool name f pools)
        ≡ (if bytes_eq name other then option_map f (pool_of other pools) else pool_of other
        pools) }
    ensures resized { (name other : Name) (size : ℕ) (pools : Entries)
        → pool_of other (resized name size pools)
        ≡ (if bytes_eq name other then Some
        (record { size = size; occupied = occupied_of name pools }) else pool_of other pools) }
    ensures order { (name : Name) (f : PoolUse → PoolUse) (size : ℕ) (pools : Entries)
        → IsInOrder pools → IsInOrder (with_pool name f pools) × IsInOrder
        (resized name size pools) }
{}

/// Pools in the order of their names that have the same pool at each name are the same.
pub fn pools_are_known_by_their_names()
    ensures { (pools others : Entries) → IsInOrder pools → IsInOrder others →
        ((name : Name) → pool_of name pools ≡ pool_of name others) → pools ≡ others }
{}

/// After the slots of a key that fits are taken, no more of its pool is taken than it has.
pub fn what_fits_overdraws_no_pool()
    ensures { (pools : Entries) (rooms : List Bool) (key : Key) (p : PoolUse) → fits pools rooms key ≡ true
        → pool_of key.pool (with_pool key.pool (take_slots key.slots) pools) ≡ Some p
        → p.occupied ≤ p.size }
{}

/// An offer adds its key to those that are offered, and no other.
pub fn an_offer_adds_one_key()
    ensures { (key other : Key) (keys : List Key) → has_instance key keys ≡ false →
        (Contains (with_key key keys) other ↔ ((other ≡ key) ⊎ Contains keys other)) }
{}

/// A key that is taken back is no longer offered, and each other one is as before. One that isn't offered changes nothing.
pub fn what_is_withdrawn_is_not_offered()
    ensures unchanged { (key : Key) (keys : List Key) → (Contains keys key → ⊥)
        → without_key key keys ≡ keys }
    ensures withdrawn { (key other : Key) (keys : List Key)
        → Contains (without_key key keys) other ↔ (Contains keys other × (other ≢ key)) }
{}

/// Of the same keys one at most is the first in rank, in whatever order they are listed.
pub fn the_first_in_rank_is_one()
    ensures { (keys others : List Key) (x y : Key)
        → ((key : Key) → Contains keys key ↔ Contains others key) → IsFirstInRank keys x
        → IsFirstInRank others y → x ≡ y }
{}
