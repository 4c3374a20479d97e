//! A vector in tiers of the same size.
ghost use Rattle.std.specs.Prelude.{◌≡◌, ◌+◌, ◌*◌, ◌^◌, ◌<◌, ◌≤◌, [], length, IfOk, OnOk, Some, slice_get};
ghost use Rattle.std.specs.List.{insert, slice_set};
ghost use Rattle.tiered_vec.specs.Tiers.{tier_size};

use crate::tier::{TIER, Tier};
use std::alloc::{AllocError, Global};
use std::marker::Model;

// The most tiers: of fewer than 2^62 places.
const MOST_TIERS: usize = usize::MAX / 4 / TIER;

/// A list of items.
///
/// Contracts see the items, and for how many more there is room.
///
/// The items stand in tiers of 1,024, which are full up to the last one that has items; those behind it are room. So an item is found
/// at once by its place. One that is put in moves at most half the items of its tier, and two of each tier behind.
#[derive(Debug, Drop)]
pub struct TieredVec<T> {
    tiers: Vec<Tier<T>>,
    len: usize,
}

impl<T> Model for TieredVec<T> {
    ghost use Rattle.std.specs.Prelude.{◌≡◌, ◌-◌, ◌*◌, ◌^◌, ◌<◌, length};
    ghost use Rattle.tiered_vec.specs.Tiered.{Tiered};
    ghost use Rattle.tiered_vec.specs.Tiers.{AreTiers, items_of, tier_size};

    ghost Value = { Tiered T };

    ghost view = { λ v. record { items = items_of v.tiers.items; room = length v.tiers.items * tier_size - length (items_of v.tiers.items) } };

    ghost invariant = { λ v. AreTiers v.tiers.items × (v.len ≡ length (items_of v.tiers.items)) × (length v.tiers.items * tier_size < 2 ^ 62) };
}

impl<T: Drop> TieredVec<T> {
    /// No item. This takes no memory.
    pub fn new(alloc: Global) -> TieredVec<T>
        ensures { result.items ≡ [] }
    {
        TieredVec {
            tiers: Vec::new(alloc),
            len: 0,
        }
    }

    /// These items, in their order. An `Err` says that memory ran out.
    pub fn of(alloc: Global, items: Vec<T>) -> Result<TieredVec<T>, AllocError>
        ensures { IfOk result (λ made. made.items ≡ items.items) }
    {
        let mut made = TieredVec::new(alloc);
        made.reserve(items.len())?;
        for item in items {
            let end = made.len();
            made.insert(end, item);
        }
        Ok(made)
    }

    /// How many items there are: fewer than 2^62, since `reserve` makes no room for more.
    pub fn len(&self) -> usize
        ensures len { result ≡ length self.now.items }
        ensures small { result < 2 ^ 62 }
    {
        self.len
    }

    /// The item at a place.
    pub fn get(&self, place: usize) -> &T
        requires { place < length self.now.items }
        ensures { slice_get self.now.items place ≡ Some result.now }
    {
        self.tiers[place / TIER].get(place % TIER)
    }

    /// The item at a place is this one from now on. This takes no memory.
    pub fn set(&mut self, place: usize, item: T)
        requires { place < length self.old.items }
        ensures items { self.new.items ≡ slice_set self.old.items place item }
        ensures room { self.old.room ≤ self.new.room }
    {
        self.tiers[place / TIER].set(place % TIER, item);
    }

    /// The item is put in at a place, for which there is room; those from there on stand one place further on. This takes no memory.
    pub fn insert(&mut self, place: usize, item: T)
        requires within { place ≤ length self.old.items }
        requires room { 0 < self.old.room }
        ensures items { self.new.items ≡ insert self.old.items place item }
        ensures room { self.old.room ≤ self.new.room + 1 }
    {
        let mut at = place / TIER;
        let mut carried = self.tiers[at].insert(place % TIER, item);
        while let Some(last) = carried {
            at += 1;
            carried = self.tiers[at].push_front(last);
        }
        self.len += 1;
    }

    /// Makes room for so many more. What room there was is kept, also where memory runs out, which is what an `Err` says.
    pub fn reserve(&mut self, more: usize) -> Result<(), AllocError>
        ensures items { self.new.items ≡ self.old.items }
        ensures room { OnOk result (more ≤ self.new.room) }
        ensures kept { self.old.room ≤ self.new.room }
    {
        let count = tiers_for(self.len, more)?;
        let alloc = *self.tiers.allocator();
        while self.tiers.len() < count {
            self.tiers.push(Tier::empty(alloc)?)?;
        }
        Ok(())
    }
}

// How many tiers hold so many items and so many more. An `Err` says that these would be too many.
fn tiers_for(len: usize, more: usize) -> Result<usize, AllocError>
    ensures enough { IfOk result (λ count. len + more ≤ count * tier_size) }
    ensures few { IfOk result (λ count. count * tier_size < 2 ^ 62) }
{
    let all = len.checked_add(more).ok_or(AllocError)?;
    let count = all.div_ceil(TIER);
    if count <= MOST_TIERS {
        Ok(count)
    } else {
        Err(AllocError)
    }
}
