//! A row of items of a fixed size, whose last item leaves where one is put in that doesn't fit.
ghost use Rattle.std.specs.Prelude.{◌≡◌, ◌<◌, ◌≤◌, ◌++◌, ◌↔◌, [], ◌∷◌, length, IfOk, IsSome, Some, slice_get};
ghost use Rattle.std.specs.List.{insert, slice_set};
ghost use Rattle.std.specs.Option.{option_to_list};
ghost use Rattle.tiered_vec.specs.Tiers.{tier_size};

use std::alloc::{AllocError, Global};
use std::collections::VecDeque;
use std::marker::Model;

/// How many items a full tier has.
pub(crate) const TIER: usize = 1024;

/// At most `TIER` items, with memory for so many from the start.
///
/// Contracts see the items.
#[derive(Debug, Drop)]
pub(crate) struct Tier<T> {
    items: VecDeque<T>,
}

impl<T> Model for Tier<T> {
    ghost use Rattle.std.specs.Prelude.{List, ◌≤◌};
    ghost use Rattle.std.specs.VecDeque.{deque_len, deque_capacity};
    ghost use Rattle.tiered_vec.specs.Tiers.{tier_size};

    ghost Value = { List T };

    ghost view = { λ t. t.items.items };

    ghost invariant = { λ t. (deque_len t.items ≤ tier_size) × (tier_size ≤ deque_capacity t.items) };
}

impl<T: Drop> Tier<T> {
    /// No item, and memory for `TIER`. An `Err` says that memory ran out.
    pub(crate) fn empty(alloc: Global) -> Result<Tier<T>, AllocError>
        ensures { IfOk result (λ tier. tier ≡ []) }
    {
        Ok(Tier {
            items: VecDeque::with_capacity(alloc, TIER)?,
        })
    }

    /// The item at a place.
    pub(crate) fn get(&self, place: usize) -> &T
        requires { place < length self.now }
        ensures { slice_get self.now place ≡ Some result.now }
    {
        &self.items[place]
    }

    /// The item at a place is this one from now on.
    pub(crate) fn set(&mut self, place: usize, item: T)
        requires { place < length self.old }
        ensures { self.new ≡ slice_set self.old place item }
    {
        self.items[place] = item;
    }

    /// The item is put in at a place, which moves those on the shorter side of it. The last item leaves a full tier.
    pub(crate) fn insert(&mut self, place: usize, item: T) -> Option<T>
        requires within { place ≤ length self.old }
        requires place { place < tier_size }
        ensures items { self.new ++ option_to_list result ≡ insert self.old place item }
        ensures leaves { IsSome result ↔ (length self.old ≡ tier_size) }
    {
        let last = self.pop_if_full();
        let _ = self.items.insert(place, item);
        last
    }

    /// The item is the first one from now on. The last item leaves a full tier.
    pub(crate) fn push_front(&mut self, item: T) -> Option<T>
        ensures items { self.new ++ option_to_list result ≡ item ∷ self.old }
        ensures leaves { IsSome result ↔ (length self.old ≡ tier_size) }
    {
        let last = self.pop_if_full();
        self.items.push_front_reserved(item);
        last
    }

    // The last item of a full tier.
    fn pop_if_full(&mut self) -> Option<T>
        ensures items { self.new ++ option_to_list result ≡ self.old }
        ensures leaves { IsSome result ↔ (length self.old ≡ tier_size) }
        ensures place { length self.new < tier_size }
    {
        if self.items.len() < TIER {
            return None;
        }
        self.items.pop_back()
    }
}
