//! One pool: its size, and how many of its slots are taken.
ghost use Rattle.std.specs.Prelude.{◌≡◌, ◌+◌, ◌-◌, ◌^◌, ◌<◌, ◌≤◌, ◌-ℤ◌, pos, nat_le};
ghost use Rattle.pool_book.specs.Limits.{slot_limit};
ghost use Rattle.pool_book.specs.Pools.{take_slots, take_counted, give_back};

use crate::Slots;
use std::marker::Model;

// The most taken slots that are counted where nothing is known of how many they are.
const MOST_TAKEN: u64 = (1 << 62) - 1;

/// A pool: how many slots it has, and how many of them are taken.
#[derive(Clone, Copy, Debug, PartialEq, Eq)]
pub struct Pool {
    size: Slots,
    occupied: u64,
}

impl Model for Pool {
    ghost use Rattle.std.specs.Prelude.{◌<◌, ◌^◌};
    ghost use Rattle.pool_book.specs.Pools.{PoolUse};

    ghost Value = { PoolUse };

    ghost view = { λ p. record { size = p.size; occupied = p.occupied } };

    ghost invariant = { λ p. p.occupied < 2 ^ 62 };

    ghost inverse = { λ u. record { size = u.size; occupied = u.occupied } };
}

impl Pool {
    // A pool of this size with so many slots taken.
    pub(crate) fn new(size: Slots, occupied: u64) -> Pool
        requires { occupied < 2 ^ 62 }
        ensures { result ≡ record { size = size; occupied = occupied } }
    {
        Pool { size, occupied }
    }

    /// How many slots it has.
    pub fn size(&self) -> Slots
        ensures { result ≡ self.now.size }
    {
        self.size
    }

    /// How many of them are taken. These may be more than it has, where it was made smaller.
    pub fn occupied(&self) -> u64
        ensures value { result ≡ self.now.occupied }
        ensures high { result < 2 ^ 62 }
    {
        self.occupied
    }

    /// How many of them are open: its size less what is taken.
    pub fn open_slots(&self) -> i64
        ensures { result ≡ pos self.now.size -ℤ pos self.now.occupied }
    {
        i64::from(self.size.get()) - self.occupied as i64
    }

    // Whether so many slots are open.
    pub(crate) fn fits(&self, slots: Slots) -> bool
        ensures fits { result ≡ nat_le (self.now.occupied + slots) self.now.size }
        ensures high { self.now.size ≤ slot_limit }
    {
        self.occupied + u64::from(slots.get()) <= u64::from(self.size.get())
    }

    // It has this size from here on.
    pub(crate) fn resize(&mut self, size: Slots)
        ensures { self.new ≡ record self.old { size = size } }
    {
        self.size = size;
    }

    // So many more of its slots are taken.
    pub(crate) fn occupy(&mut self, slots: Slots)
        requires { self.old.occupied + slots < 2 ^ 62 }
        ensures { self.new ≡ take_slots slots self.old }
    {
        self.occupied += u64::from(slots.get());
    }

    // So many more of its slots are taken, and no more than the most are counted.
    pub(crate) fn occupy_counted(&mut self, slots: Slots)
        ensures { self.new ≡ take_counted slots self.old }
    {
        self.occupied = (self.occupied + u64::from(slots.get())).min(MOST_TAKEN);
    }

    // So many of its slots are given back.
    pub(crate) fn vacate(&mut self, slots: Slots)
        requires { slots ≤ self.old.occupied }
        ensures { self.new ≡ give_back slots self.old }
    {
        self.occupied -= u64::from(slots.get());
    }
}
