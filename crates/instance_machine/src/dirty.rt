//! A set of keys that rise, of which those that go are taken out later: what waits and what is ready is kept in such sets.
ghost use Rattle.std.specs.Prelude.{◌≡◌, ◌+◌, ◌<◌, ◌≤◌, [], ◌∷◌, filter, length, not, slice_get, IfOk, MatchOption, OnOk};
ghost use Rattle.std.specs.Ordering.{eq_by_cmp};
ghost use Rattle.std.specs.BTreeSet.{insert_key};
ghost use Rattle.std.specs.List.Sorted.{IsStrictlySortedBy};

use std::alloc::{AllocError, Global};
use std::collections::VecDeque;
use std::marker::Model;

/// A set of keys, of which the least is taken out first.
///
/// Contracts see the keys, the least first, and for how many more there is room. A key's place is found by binary search; a key that is
/// put in moves those on the shorter side of it.
#[derive(Drop)]
pub struct Dirty<K: Ord + Copy> {
    keys: VecDeque<K>,
}

impl<K: Ord + Copy> Model for Dirty<K> {
    ghost use Rattle.std.specs.Prelude.{◌-◌};
    ghost use Rattle.std.specs.VecDeque.{deque_len, deque_capacity};
    ghost use Rattle.std.specs.List.Sorted.{IsStrictlySortedBy};
    ghost use Rattle.instance_machine.specs.Marks.{Marked};

    ghost Value = { Marked K };

    ghost view = { λ d. record { keys = d.keys.items; room = deque_capacity d.keys - deque_len d.keys } };

    ghost invariant = { λ d. IsStrictlySortedBy K.cmp d.keys.items };
}

impl<K: Ord + Copy> Dirty<K> {
    /// No key. This takes no memory.
    pub fn new(alloc: Global) -> Dirty<K>
        ensures { result.keys ≡ [] }
    {
        Dirty {
            keys: VecDeque::new(alloc),
        }
    }

    /// Makes room for `n` keys more. What room there was is kept, also where memory runs out.
    pub fn reserve(&mut self, n: usize) -> Result<(), AllocError>
        ensures keys { self.new.keys ≡ self.old.keys }
        ensures room { OnOk result (n ≤ self.new.room) }
        ensures kept { self.old.room ≤ self.new.room }
    {
        self.keys.reserve(n)
    }

    /// Puts a key in, for which there is room. One that is there already changes nothing.
    pub fn mark(&mut self, key: K)
        requires { 0 < self.old.room }
        ensures keys { self.new.keys ≡ insert_key K.cmp self.old.keys key }
        ensures room { self.old.room ≤ self.new.room + 1 }
    {
        match self.keys.binary_search(&key) {
            Ok(_) => {}
            Err(at) => {
                let _ = self.keys.insert(at, key);
            }
        }
    }

    /// Takes the least key out, if there is one.
    pub fn take_first(&mut self) -> Option<K>
        ensures first { MatchOption result ((self.old.keys ≡ []) × (self.new.keys ≡ []))
            (λ key. self.old.keys ≡ key ∷ self.new.keys) }
        ensures rises { IsStrictlySortedBy K.cmp self.old.keys }
        ensures room { self.old.room ≤ self.new.room }
    {
        self.keys.pop_front()
    }

    /// How many keys there are.
    pub fn len(&self) -> usize
        ensures { result ≡ length self.now.keys }
    {
        self.keys.len()
    }

    /// The key at a place, the least first.
    pub fn get(&self, at: usize) -> Option<K>
        ensures key { result ≡ slice_get self.now.keys at }
        ensures rises { IsStrictlySortedBy K.cmp self.now.keys }
    {
        self.keys.get(at).copied()
    }

    /// Takes a key out. One that is not there changes nothing.
    pub fn unmark(&mut self, key: &K)
        ensures keys { self.new.keys ≡ filter (λ k. not (eq_by_cmp K.cmp key.now k)) self.old.keys }
        ensures room { self.old.room ≤ self.new.room }
    {
        if let Ok(at) = self.keys.binary_search(key) {
            self.keys.remove(at);
        }
    }

    /// The same keys, with room for `more`.
    pub fn copy(&self, alloc: Global, more: usize) -> Result<Dirty<K>, AllocError>
        ensures keys { IfOk result (λ copy. copy.keys ≡ self.now.keys) }
        ensures room { IfOk result (λ copy. more ≤ copy.room) }
    {
        let mut keys = VecDeque::with_capacity(alloc, self.keys.len())?;
        for at in 0..self.keys.len() {
            keys.push_back(self.keys[at])?;
        }
        keys.reserve(more)?;
        Ok(Dirty { keys })
    }
}
